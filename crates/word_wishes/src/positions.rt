ghost use Rattle.std.specs.Prelude.{◌≡◌, ◌+◌, drop, IfOk};
ghost use Rattle.word_wishes.specs.Positions as spec;

use y2k_base::{Memory, Word, WordKind};

/// What is looked for in the words of a program: a PICTURE word, or the colon of a reference.
#[derive(Clone, Copy, Debug, PartialEq, Eq)]
pub(crate) enum Sought {
    Picture,
    Colon,
}

fn is_mark(kind: WordKind) -> bool
    ensures { result ≡ spec.is_mark kind }
{
    match kind {
        WordKind::Name => false,
        WordKind::Number => false,
        WordKind::Literal => false,
        WordKind::Picture => false,
        WordKind::Mark => true,
    }
}

fn is_picture(kind: WordKind) -> bool
    ensures { result ≡ spec.is_picture kind }
{
    match kind {
        WordKind::Name => false,
        WordKind::Number => false,
        WordKind::Literal => false,
        WordKind::Picture => true,
        WordKind::Mark => false,
    }
}

fn is_the_mark(text: &str, word: &Word) -> bool
    ensures { result ≡ spec.is_the_mark text.now word.now }
{
    is_mark(word.kind) && word.text.items() == text.as_bytes()
}

fn is_sought(sought: Sought, word: &Word) -> bool
    ensures { result ≡ spec.is_sought sought word.now }
{
    match sought {
        Sought::Picture => is_picture(word.kind),
        Sought::Colon => is_the_mark(":", word),
    }
}

fn next_position(position: u32) -> Result<u32, Memory>
    ensures { IfOk result (λ next. next ≡ position + 1) }
{
    match position.checked_add(1) {
        None => Err(Memory),
        Some(next) => Ok(next),
    }
}

/// The words from a position on.
fn words_from(words: &[Word], at: u32) -> &[Word]
    ensures { result.now ≡ drop at words.now }
{
    let at = at as usize;
    if at <= words.len() { &words[at..] } else { &[] }
}

/// The position of the first such word from a position on.
pub(crate) fn position_from(words: &[Word], at: u32, sought: Sought) -> Result<Option<u32>, Memory>
    ensures { IfOk result (λ position. position ≡ spec.position_from sought words.now at) }
{
    let mut position = at;
    let mut rest = words_from(words, at);
    while let [word, more @ ..] = rest {
        if is_sought(sought, word) {
            return Ok(Some(position));
        }
        position = next_position(position)?;
        rest = more;
    }
    Ok(None)
}

/// The position of the start in a reference with its colon there.
pub(crate) fn start_before(colon: u32) -> Option<u32>
    ensures { result ≡ spec.start_before colon }
{
    if colon == 0 { None } else { Some(colon - 1) }
}

/// The position of the length in a reference with its colon there; `None` where none is written.
pub(crate) fn length_behind(words: &[Word], colon: u32) -> Result<Option<u32>, Memory>
    ensures { IfOk result (λ position. position ≡ spec.length_behind words.now colon) }
{
    let position = next_position(colon)?;
    match words.get(position as usize) {
        None => Ok(None),
        Some(word) => {
            if is_the_mark(")", word) {
                Ok(None)
            } else {
                Ok(Some(position))
            }
        }
    }
}
