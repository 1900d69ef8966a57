ghost use Rattle.std.specs.Prelude.{◌≡◌, [], ◌∷◌, ◌++◌, IfOk, OnOk};
ghost use Rattle.line_layout.specs.Spelling as spec;

use std::alloc::Global;
use y2k_base::{Bytes, List, Memory, Origin, Word, WordKind};

pub fn is_literal(kind: WordKind) -> bool
    ensures { result ≡ spec.is_literal kind }
{
    match kind {
        WordKind::Literal => true,
        WordKind::Name | WordKind::Number | WordKind::Picture | WordKind::Mark => false,
    }
}

fn is_name(kind: WordKind) -> bool
    ensures { result ≡ spec.is_name kind }
{
    match kind {
        WordKind::Name => true,
        WordKind::Literal | WordKind::Number | WordKind::Picture | WordKind::Mark => false,
    }
}

fn is_number(kind: WordKind) -> bool
    ensures { result ≡ spec.is_number kind }
{
    match kind {
        WordKind::Number => true,
        WordKind::Name | WordKind::Literal | WordKind::Picture | WordKind::Mark => false,
    }
}

fn is_mark(kind: WordKind) -> bool
    ensures { result ≡ spec.is_mark kind }
{
    match kind {
        WordKind::Mark => true,
        WordKind::Name | WordKind::Number | WordKind::Picture | WordKind::Literal => false,
    }
}

/// Puts the bytes with each quotation mark twice at the end of `out`.
fn double(bytes: &[u8], out: &mut Bytes) -> Result<(), Memory>
    ensures { OnOk result (out.new ≡ out.old ++ spec.doubled bytes.now) }
{
    let mut rest = bytes;
    while let [first, more @ ..] = rest {
        if *first == b'"' {
            out.push(b'"')?;
            out.push(b'"')?;
        } else {
            out.push(*first)?;
        }
        rest = more;
    }
    Ok(())
}

/// A literal with its marks.
pub fn quoted(alloc: Global, content: &[u8]) -> Result<Bytes, Memory>
    ensures { IfOk result (λ text. text ≡ 34 ∷ (spec.doubled content.now ++ (34 ∷ []))) }
{
    let mut text = List::new(alloc);
    text.push(b'"')?;
    double(content, &mut text)?;
    text.push(b'"')?;
    Ok(text)
}

pub fn is_tight_before(word: &Word) -> bool
    ensures { result ≡ spec.is_tight_before word.now }
{
    let text = word.text.items();
    is_mark(word.kind)
        && (text == b".".as_slice() || (text == b")".as_slice() || text == b":".as_slice()))
}

pub fn is_tight_after(word: &Word) -> bool
    ensures { result ≡ spec.is_tight_after word.now }
{
    let text = word.text.items();
    is_mark(word.kind) && (text == b"(".as_slice() || text == b":".as_slice())
}

pub fn opens_comment(word: &Word) -> bool
    ensures { result ≡ spec.opens_comment word.now }
{
    let text = word.text.items();
    is_name(word.kind)
        && (text == b"AUTHOR".as_slice()
            || (text == b"INSTALLATION".as_slice()
                || (text == b"DATE-WRITTEN".as_slice()
                    || (text == b"DATE-COMPILED".as_slice() || text == b"SECURITY".as_slice()))))
}

fn begins_y2k(text: &[u8]) -> bool
    ensures { result ≡ spec.begins_y2k text.now }
{
    match text {
        [a, b, c, d, ..] => *a == b'Y' && (*b == b'2' && (*c == b'K' && *d == b'-')),
        _ => false,
    }
}

fn is_own_name(words: &[Word]) -> bool
    ensures { result ≡ spec.is_own_name words.now }
{
    match words {
        [] => false,
        [next, ..] => is_name(next.kind) && begins_y2k(next.text.items()),
    }
}

/// Whether a new line begins at column 8 before the word.
pub fn begins_area_a(word: &Word, rest: &[Word]) -> bool
    ensures { result ≡ spec.begins_area_a word.now rest.now }
{
    let text = word.text.items();
    (is_name(word.kind)
        && (text == b"WORKING-STORAGE".as_slice() || text == b"PROCEDURE".as_slice()))
        || (is_number(word.kind) && (text == b"01".as_slice() && is_own_name(rest)))
}

fn is_full(word: &Word) -> bool
    ensures { result ≡ spec.is_full word.now }
{
    is_literal(word.kind) && word.text.items().len() > 160
}

pub fn first_full(words: &[Word]) -> Option<Origin>
    ensures { result ≡ spec.first_full words.now }
{
    let mut rest = words;
    while let [word, more @ ..] = rest {
        if is_full(word) {
            return Some(word.origin);
        }
        rest = more;
    }
    None
}
