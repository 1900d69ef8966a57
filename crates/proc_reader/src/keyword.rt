ghost use Rattle.std.specs.Prelude.{◌≡◌, ◌≢◌, map, true, false, IfOk};
ghost use Rattle.proc_reader.specs.Keywords as spec;

use cond_reader::value_of;
use std::alloc::Global;
use y2k_base::{List, Memory, Word, WordKind};

/// What a word is to the grammar of statements.
#[derive(Clone, Copy, Debug, PartialEq, Eq)]
pub enum Keyword {
    /// Past the last word, or a word that is reserved for no statement: a name, a number, a literal, a mark, or a
    /// word of operands and conditions, as TO, NOT or ZERO.
    Unlisted,
    Move,
    Add,
    Subtract,
    Multiply,
    Divide,
    Compute,
    If,
    Evaluate,
    Perform,
    Go,
    Stop,
    Exit,
    Continue,
    Open,
    Close,
    Read,
    Write,
    Accept,
    Display,
    EndAdd,
    EndSubtract,
    EndMultiply,
    EndDivide,
    EndCompute,
    EndIf,
    EndEvaluate,
    EndPerform,
    EndRead,
    EndWrite,
    Giving,
    From,
    By,
    Into,
    Remainder,
    Rounded,
    On,
    Size,
    Error,
    Then,
    Else,
    Next,
    Sentence,
    True,
    When,
    Other,
    /// THRU or THROUGH.
    Thru,
    Times,
    With,
    Test,
    Before,
    After,
    Varying,
    Until,
    Run,
    Input,
    Output,
    Extend,
    Record,
    At,
    End,
    Advancing,
    /// LINE or LINES.
    Line,
    Page,
    Date,
    Day,
    Time,
}

/// The words that begin statements, and those that end them.
pub const VERBS: [(&[u8], Keyword); 29] = [
    (b"MOVE", Keyword::Move),
    (b"ADD", Keyword::Add),
    (b"SUBTRACT", Keyword::Subtract),
    (b"MULTIPLY", Keyword::Multiply),
    (b"DIVIDE", Keyword::Divide),
    (b"COMPUTE", Keyword::Compute),
    (b"IF", Keyword::If),
    (b"EVALUATE", Keyword::Evaluate),
    (b"PERFORM", Keyword::Perform),
    (b"GO", Keyword::Go),
    (b"STOP", Keyword::Stop),
    (b"EXIT", Keyword::Exit),
    (b"CONTINUE", Keyword::Continue),
    (b"OPEN", Keyword::Open),
    (b"CLOSE", Keyword::Close),
    (b"READ", Keyword::Read),
    (b"WRITE", Keyword::Write),
    (b"ACCEPT", Keyword::Accept),
    (b"DISPLAY", Keyword::Display),
    (b"END-ADD", Keyword::EndAdd),
    (b"END-SUBTRACT", Keyword::EndSubtract),
    (b"END-MULTIPLY", Keyword::EndMultiply),
    (b"END-DIVIDE", Keyword::EndDivide),
    (b"END-COMPUTE", Keyword::EndCompute),
    (b"END-IF", Keyword::EndIf),
    (b"END-EVALUATE", Keyword::EndEvaluate),
    (b"END-PERFORM", Keyword::EndPerform),
    (b"END-READ", Keyword::EndRead),
    (b"END-WRITE", Keyword::EndWrite),
];

/// The words that stand inside statements.
pub const PHRASES: [(&[u8], Keyword); 39] = [
    (b"GIVING", Keyword::Giving),
    (b"FROM", Keyword::From),
    (b"BY", Keyword::By),
    (b"INTO", Keyword::Into),
    (b"REMAINDER", Keyword::Remainder),
    (b"ROUNDED", Keyword::Rounded),
    (b"ON", Keyword::On),
    (b"SIZE", Keyword::Size),
    (b"ERROR", Keyword::Error),
    (b"THEN", Keyword::Then),
    (b"ELSE", Keyword::Else),
    (b"NEXT", Keyword::Next),
    (b"SENTENCE", Keyword::Sentence),
    (b"TRUE", Keyword::True),
    (b"WHEN", Keyword::When),
    (b"OTHER", Keyword::Other),
    (b"THRU", Keyword::Thru),
    (b"THROUGH", Keyword::Thru),
    (b"TIMES", Keyword::Times),
    (b"WITH", Keyword::With),
    (b"TEST", Keyword::Test),
    (b"BEFORE", Keyword::Before),
    (b"AFTER", Keyword::After),
    (b"VARYING", Keyword::Varying),
    (b"UNTIL", Keyword::Until),
    (b"RUN", Keyword::Run),
    (b"INPUT", Keyword::Input),
    (b"OUTPUT", Keyword::Output),
    (b"EXTEND", Keyword::Extend),
    (b"RECORD", Keyword::Record),
    (b"AT", Keyword::At),
    (b"END", Keyword::End),
    (b"ADVANCING", Keyword::Advancing),
    (b"LINE", Keyword::Line),
    (b"LINES", Keyword::Line),
    (b"PAGE", Keyword::Page),
    (b"DATE", Keyword::Date),
    (b"DAY", Keyword::Day),
    (b"TIME", Keyword::Time),
];

#[tactic(auto, unfolding(crate::specs::Keywords::verb))]
fn verb(text: &[u8]) -> Option<Keyword>
    ensures { result ≡ spec.verb text.now }
{
    value_of(&VERBS, text)
}

#[tactic(auto, unfolding(crate::specs::Keywords::phrase))]
fn phrase(text: &[u8]) -> Option<Keyword>
    ensures { result ≡ spec.phrase text.now }
{
    value_of(&PHRASES, text)
}

/// What a name word is.
#[tactic(auto, unfolding(crate::specs::Keywords::keyword_of_name))]
fn keyword_of_name(text: &[u8]) -> Keyword
    ensures { result ≡ spec.keyword_of_name text.now }
{
    match verb(text) {
        Some(keyword) => keyword,
        None => match phrase(text) {
            Some(keyword) => keyword,
            None => Keyword::Unlisted,
        },
    }
}

/// What a word is.
#[tactic(auto, unfolding(crate::specs::Keywords::keyword_of))]
pub fn keyword_of(word: &Word) -> Keyword
    ensures { result ≡ spec.keyword_of word.now }
{
    match word.kind {
        WordKind::Name => keyword_of_name(word.text.items()),
        WordKind::Number => Keyword::Unlisted,
        WordKind::Literal => Keyword::Unlisted,
        WordKind::Picture => Keyword::Unlisted,
        WordKind::Mark => Keyword::Unlisted,
    }
}

/// What each of the words is, in order.
pub fn keywords_of(alloc: Global, words: &[Word]) -> Result<List<Keyword>, Memory>
    ensures { IfOk result (λ keywords. keywords ≡ map spec.keyword_of words.now) }
{
    let mut keywords = List::new(alloc);
    for word in words {
        keywords.push(keyword_of(word))?;
    }
    Ok(keywords)
}

pub fn same_keyword(a: Keyword, b: Keyword) -> bool
    ensures value { result ≡ spec.same_keyword a b }
    ensures same { result ≡ true → a ≡ b }
    ensures other { result ≡ false → a ≢ b }
{
    a == b
}
