ghost use Rattle.std.specs.Prelude.{◌≡◌, ◌++◌, flat_map, OnOk, Some, None, MatchOption};
ghost use Rattle.window_rewrite.specs.Forms as spec;

use statement_words::add_text;
use std::alloc::Global;
use y2k_base::{List, Memory, Origin, Twin, Word};

/// The words that stand for the letters A, B, C and P of a form.
pub(crate) struct Slots {
    pub(crate) a: List<Word>,
    pub(crate) b: List<Word>,
    pub(crate) c: List<Word>,
    pub(crate) p: List<Word>,
}

impl Drop for Slots {
    fn drop(self) {
        let Slots {
            a: _a,
            b: _b,
            c: _c,
            p: _p,
        } = self;
    }
}

/// The words of a letter, if it is one of the four.
fn of_letter(slots: &Slots, letter: u8) -> Option<&[Word]>
    ensures { MatchOption result (spec.of_letter slots.now letter ≡ None) (λ words. spec.of_letter slots.now letter ≡ Some words.now) }
{
    if letter == b'A' {
        Some(slots.a.items())
    } else if letter == b'B' {
        Some(slots.b.items())
    } else if letter == b'C' {
        Some(slots.c.items())
    } else if letter == b'P' {
        Some(slots.p.items())
    } else {
        None
    }
}

fn stands_for<'s>(slots: &'s Slots, text: &[u8]) -> Option<&'s [Word]>
    ensures { MatchOption result (spec.stands_for slots.now text.now ≡ None) (λ words. spec.stands_for slots.now text.now ≡ Some words.now) }
{
    match text {
        [] => None,
        [letter] => of_letter(slots, *letter),
        [_, _, ..] => None,
    }
}

fn add_words(alloc: Global, into: &mut List<Word>, words: &[Word]) -> Result<(), Memory>
    ensures { OnOk result (into.new ≡ into.old ++ words.now) }
{
    let mut rest = words;
    while let [word, more @ ..] = rest {
        into.push(word.twin(alloc)?)?;
        rest = more;
    }
    Ok(())
}

/// Adds a word of a form, or what stands for it.
fn add_filled_word(
    alloc: Global,
    into: &mut List<Word>,
    slots: &Slots,
    word: &Word,
) -> Result<(), Memory>
    ensures { OnOk result (into.new ≡ into.old ++ spec.filled_word slots.now word.now) }
{
    match stands_for(slots, word.text.items()) {
        None => {
            into.push(word.twin(alloc)?)?;
            Ok(())
        }
        Some(words) => {
            add_words(alloc, into, words)?;
            Ok(())
        }
    }
}

fn add_filled_words(
    alloc: Global,
    into: &mut List<Word>,
    slots: &Slots,
    form: &[Word],
) -> Result<(), Memory>
    ensures { OnOk result (into.new ≡ into.old ++ flat_map (spec.filled_word slots.now) form.now) }
{
    let mut rest = form;
    while let [word, more @ ..] = rest {
        add_filled_word(alloc, into, slots, word)?;
        rest = more;
    }
    Ok(())
}

/// Adds the words of a form, with others for its letters. One blank stands between every two words of it.
pub(crate) fn add_filled(
    alloc: Global,
    into: &mut List<Word>,
    at: Origin,
    form: &str,
    slots: &Slots,
) -> Result<(), Memory>
    ensures { OnOk result (into.new ≡ into.old ++ spec.filled slots.now at form.now) }
{
    let mut words = List::new(alloc);
    add_text(alloc, &mut words, form, at)?;
    add_filled_words(alloc, into, slots, words.items())?;
    Ok(())
}
