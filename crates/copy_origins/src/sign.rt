ghost use Rattle.std.specs.Prelude.{◌≡◌};
ghost use Rattle.copy_origins.specs.Signs as spec;
ghost use Rattle.copy_origins.specs.declared.sign.Sign.TheVariants as Sign;

use case_tables::{role_of, same_text};
use y2k_base::{Word, WordKind};

/// What a word is to a COPY statement.
#[derive(Clone, Copy, Debug, PartialEq, Eq)]
pub enum Sign {
    Copy,
    /// OF or IN.
    Of,
    Replacing,
    By,
    /// A name that is no word of the language.
    Name,
    Literal,
    /// The mark of pseudo-text.
    Double,
    Period,
    Other,
}

#[tactic(auto, unfolding(crate::specs::Signs::sign_of_name))]
fn sign_of_name(text: &[u8]) -> Sign
    ensures { result ≡ spec.sign_of_name text.now }
{
    if text == b"COPY".as_slice() {
        Sign::Copy
    } else if text == b"OF".as_slice() || text == b"IN".as_slice() {
        Sign::Of
    } else if text == b"REPLACING".as_slice() {
        Sign::Replacing
    } else if text == b"BY".as_slice() {
        Sign::By
    } else {
        match role_of(text) {
            Some(_) => Sign::Other,
            None => Sign::Name,
        }
    }
}

#[tactic(auto, unfolding(crate::specs::Signs::sign_of_mark))]
fn sign_of_mark(text: &[u8]) -> Sign
    ensures { result ≡ spec.sign_of_mark text.now }
{
    if text == b"==".as_slice() {
        Sign::Double
    } else if text == b".".as_slice() {
        Sign::Period
    } else {
        Sign::Other
    }
}

#[tactic(auto, unfolding(crate::specs::Signs::sign_of))]
pub fn sign_of(word: &Word) -> Sign
    ensures { result ≡ spec.sign_of word.now }
{
    let text = word.text.items();
    match word.kind {
        WordKind::Name => sign_of_name(text),
        WordKind::Number => Sign::Other,
        WordKind::Literal => Sign::Literal,
        WordKind::Picture => Sign::Other,
        WordKind::Mark => sign_of_mark(text),
    }
}

#[tactic(auto, unfolding(crate::specs::Signs::same_sign, crate::specs::Signs::is))]
pub fn is(sign: Sign, word: &Word) -> bool
    ensures { result ≡ spec.is sign word.now }
{
    sign_of(word) == sign
}

/// Whether a word is COPY. Most words are told apart by their first bytes, and none is looked up.
#[tactic(auto, using(crate::proofs::SignLaws::name_is_copy, crate::proofs::SignLaws::mark_is_copy, crate::proofs::SignLaws::other_is_copy, crate::proofs::SignLaws::literal_is_copy), unfolding(crate::specs::Signs::is, crate::specs::Signs::sign_of))]
pub fn is_copy(word: &Word) -> bool
    ensures { result ≡ spec.is Sign.Copy word.now }
{
    match word.kind {
        WordKind::Name => same_text(word.text.items(), b"COPY"),
        WordKind::Number => false,
        WordKind::Literal => false,
        WordKind::Picture => false,
        WordKind::Mark => false,
    }
}
