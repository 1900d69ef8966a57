ghost use Rattle.std.specs.Prelude.{◌≡◌, ◌≢◌, true, false, map, IfOk};
ghost use Rattle.program_reader.specs.Terms as spec;

use cond_reader::value_of;
use std::alloc::Global;
use y2k_base::{List, Memory, Word, WordKind};

/// What a word is to the entries of the divisions, but for the words, names and marks that conditions have too.
#[derive(Clone, Copy, Debug, PartialEq, Eq)]
pub enum Term {
    /// A word that stands in no header and no entry, or in conditions too.
    Unlisted,
    /// IDENTIFICATION or ID; the latter may be a name too.
    Identification,
    Division,
    ProgramId,
    Environment,
    Configuration,
    Section,
    SourceComputer,
    ObjectComputer,
    InputOutput,
    FileControl,
    Select,
    Assign,
    Organization,
    Sequential,
    Access,
    Mode,
    File,
    Status,
    Data,
    WorkingStorage,
    Procedure,
    Fd,
    Label,
    Record,
    Records,
    Are,
    Standard,
    Omitted,
    Block,
    Contains,
    Characters,
    Recording,
    /// F, which may be a name too.
    Fixed,
    Filler,
    Redefines,
    /// PIC or PICTURE.
    Picture,
    Usage,
    Display,
    /// BINARY, COMP or COMPUTATIONAL.
    Binary,
    /// PACKED-DECIMAL, COMP-3 or COMPUTATIONAL-3.
    Packed,
    Occurs,
    Times,
    Sign,
    Leading,
    Trailing,
    Separate,
    Character,
    Value,
    Values,
    /// THRU or THROUGH.
    Through,
}

/// The words of the headers of divisions and sections, and of the entries for files.
pub const DIVISION_WORDS: [(&[u8], Term); 34] = [
    (b"IDENTIFICATION", Term::Identification),
    (b"ID", Term::Identification),
    (b"DIVISION", Term::Division),
    (b"PROGRAM-ID", Term::ProgramId),
    (b"ENVIRONMENT", Term::Environment),
    (b"CONFIGURATION", Term::Configuration),
    (b"SECTION", Term::Section),
    (b"SOURCE-COMPUTER", Term::SourceComputer),
    (b"OBJECT-COMPUTER", Term::ObjectComputer),
    (b"INPUT-OUTPUT", Term::InputOutput),
    (b"FILE-CONTROL", Term::FileControl),
    (b"SELECT", Term::Select),
    (b"ASSIGN", Term::Assign),
    (b"ORGANIZATION", Term::Organization),
    (b"SEQUENTIAL", Term::Sequential),
    (b"ACCESS", Term::Access),
    (b"MODE", Term::Mode),
    (b"FILE", Term::File),
    (b"STATUS", Term::Status),
    (b"DATA", Term::Data),
    (b"WORKING-STORAGE", Term::WorkingStorage),
    (b"PROCEDURE", Term::Procedure),
    (b"FD", Term::Fd),
    (b"LABEL", Term::Label),
    (b"RECORD", Term::Record),
    (b"RECORDS", Term::Records),
    (b"ARE", Term::Are),
    (b"STANDARD", Term::Standard),
    (b"OMITTED", Term::Omitted),
    (b"BLOCK", Term::Block),
    (b"CONTAINS", Term::Contains),
    (b"CHARACTERS", Term::Characters),
    (b"RECORDING", Term::Recording),
    (b"F", Term::Fixed),
];

/// The words of data description entries.
pub const ENTRY_WORDS: [(&[u8], Term); 23] = [
    (b"FILLER", Term::Filler),
    (b"REDEFINES", Term::Redefines),
    (b"PIC", Term::Picture),
    (b"PICTURE", Term::Picture),
    (b"USAGE", Term::Usage),
    (b"DISPLAY", Term::Display),
    (b"COMP", Term::Binary),
    (b"COMPUTATIONAL", Term::Binary),
    (b"BINARY", Term::Binary),
    (b"COMP-3", Term::Packed),
    (b"COMPUTATIONAL-3", Term::Packed),
    (b"PACKED-DECIMAL", Term::Packed),
    (b"OCCURS", Term::Occurs),
    (b"TIMES", Term::Times),
    (b"SIGN", Term::Sign),
    (b"LEADING", Term::Leading),
    (b"TRAILING", Term::Trailing),
    (b"SEPARATE", Term::Separate),
    (b"CHARACTER", Term::Character),
    (b"VALUE", Term::Value),
    (b"VALUES", Term::Values),
    (b"THRU", Term::Through),
    (b"THROUGH", Term::Through),
];

/// What a word is by its text.
#[tactic(auto, unfolding(crate::specs::Terms::division_term))]
fn division_term(text: &[u8]) -> Option<Term>
    ensures { result ≡ spec.division_term text.now }
{
    value_of(&DIVISION_WORDS, text)
}

#[tactic(auto, unfolding(crate::specs::Terms::entry_term))]
fn entry_term(text: &[u8]) -> Option<Term>
    ensures { result ≡ spec.entry_term text.now }
{
    value_of(&ENTRY_WORDS, text)
}

#[tactic(auto, unfolding(crate::specs::Terms::term_of_name))]
fn term_of_name(text: &[u8]) -> Term
    ensures { result ≡ spec.term_of_name text.now }
{
    match entry_term(text) {
        Some(term) => term,
        None => match division_term(text) {
            Some(term) => term,
            None => Term::Unlisted,
        },
    }
}

/// What a word is to the entries of the divisions.
#[tactic(auto, unfolding(crate::specs::Terms::term_of))]
pub fn term_of(word: &Word) -> Term
    ensures { result ≡ spec.term_of word.now }
{
    match word.kind {
        WordKind::Name => term_of_name(word.text.items()),
        WordKind::Number => Term::Unlisted,
        WordKind::Literal => Term::Unlisted,
        WordKind::Picture => Term::Unlisted,
        WordKind::Mark => Term::Unlisted,
    }
}

pub fn same_term(a: Term, b: Term) -> bool
    ensures value { result ≡ spec.same_term a b }
    ensures same { result ≡ true → a ≡ b }
    ensures other { result ≡ false → a ≢ b }
{
    a == b
}

/// What each of the words is.
pub fn terms_of(alloc: Global, words: &[Word]) -> Result<List<Term>, Memory>
    ensures { IfOk result (λ terms. terms ≡ map spec.term_of words.now) }
{
    let mut terms = List::new(alloc);
    for word in words {
        terms.push(term_of(word))?;
    }
    Ok(terms)
}
