ghost use Rattle.std.specs.Prelude.{◌≡◌, ◌++◌, ◌∷◌, [], OnOk};
ghost use Rattle.std.specs.List.{list_all};
ghost use Rattle.statement_words.specs.NewWords as spec;

use std::alloc::Global;
use y2k_base::{Bytes, List, Memory, Origin, Word, WordKind};

/// Adds a word that stands for what was at that origin.
pub fn add_word(
    alloc: Global,
    into: &mut List<Word>,
    kind: WordKind,
    text: &[u8],
    at: Origin,
) -> Result<(), Memory>
    ensures { OnOk result (into.new ≡ into.old ++ spec.made at kind text.now ∷ []) }
{
    let mut bytes = List::new(alloc);
    bytes.append(text)?;
    into.push(Word {
        text: bytes,
        kind,
        origin: at,
    })?;
    Ok(())
}

fn is_digit(byte: u8) -> bool
    ensures { result ≡ spec.is_digit byte }
{
    b'0' <= byte && byte <= b'9'
}

fn is_letter(byte: u8) -> bool
    ensures { result ≡ spec.is_letter byte }
{
    b'A' <= byte && byte <= b'Z'
}

fn all_digits(text: &[u8]) -> bool
    ensures { result ≡ list_all spec.is_digit text.now }
{
    let mut rest = text;
    while let [byte, more @ ..] = rest {
        if !is_digit(*byte) {
            return false;
        }
        rest = more;
    }
    true
}

fn begins_name(text: &[u8]) -> bool
    ensures { result ≡ spec.begins_name text.now }
{
    match text {
        [] => false,
        [first, ..] => is_letter(*first) || is_digit(*first),
    }
}

/// The kind of a word of program text.
fn kind_of(text: &[u8]) -> WordKind
    ensures { result ≡ spec.kind_of text.now }
{
    if all_digits(text) {
        WordKind::Number
    } else if begins_name(text) {
        WordKind::Name
    } else {
        WordKind::Mark
    }
}

/// Adds the word that ends here, if there is one.
fn add_ended(alloc: Global, into: &mut List<Word>, text: &[u8], at: Origin) -> Result<(), Memory>
    ensures { OnOk result (into.new ≡ into.old ++ spec.ended at text.now) }
{
    match text {
        [] => Ok(()),
        [_, ..] => {
            add_word(alloc, into, kind_of(text), text, at)?;
            Ok(())
        }
    }
}

#[tactic(auto, using(crate::proofs::Spelled::from_start, crate::proofs::Spelled::at_blank, crate::proofs::Spelled::at_byte, crate::proofs::Spelled::at_end))]
/// Adds the words of a text in which one blank stands between every two, all at one origin: digits alone are a number, what
/// begins with a letter or a digit is a name, and all else a mark.
pub fn add_text(alloc: Global, into: &mut List<Word>, text: &str, at: Origin) -> Result<(), Memory>
    ensures { OnOk result (into.new ≡ into.old ++ spec.text_words at text.now) }
{
    let mut begun: Bytes = List::new(alloc);
    let mut rest = text.as_bytes();
    while let [byte, more @ ..] = rest {
        if *byte == b' ' {
            add_ended(alloc, into, begun.items(), at)?;
            begun = List::new(alloc);
        } else {
            begun.push(*byte)?;
        }
        rest = more;
    }
    add_ended(alloc, into, begun.items(), at)?;
    Ok(())
}

/// Whether a word is the name.
fn is_name(name: &str, word: &Word) -> bool
    ensures { result ≡ spec.is_name name.now word.now }
{
    word.kind == WordKind::Name && word.text.items() == name.as_bytes()
}

/// The position of the first word that is the name.
fn name_at(name: &str, words: &[Word]) -> Option<usize>
    ensures { result ≡ spec.name_at name.now words.now }
{
    let mut position = 0;
    let mut rest = words;
    while let [word, more @ ..] = rest {
        if is_name(name, word) {
            return Some(position);
        }
        position += 1;
        rest = more;
    }
    None
}

fn narrow(position: usize) -> Option<u32>
    ensures { result ≡ spec.narrow position }
{
    u32::try_from(position).ok()
}

/// The position of the word PROCEDURE, which begins the header of the procedure division.
pub fn procedure_at(words: &[Word]) -> Option<u32>
    ensures { result ≡ spec.procedure_at words.now }
{
    match name_at("PROCEDURE", words) {
        None => None,
        Some(position) => narrow(position),
    }
}

/// Whether the program has a working storage section.
pub(crate) fn has_storage(words: &[Word]) -> bool
    ensures { result ≡ spec.has_storage words.now }
{
    let mut rest = words;
    while let [word, more @ ..] = rest {
        if is_name("WORKING-STORAGE", word) {
            return true;
        }
        rest = more;
    }
    false
}
