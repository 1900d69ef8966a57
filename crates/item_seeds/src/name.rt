ghost use Rattle.std.specs.Prelude.{◌≡◌, ◌++◌, IfOk, OnOk};
ghost use Rattle.data_layout.specs.Index.{IsReady};
ghost use Rattle.item_seeds.specs.Names as spec;

use data_layout::{Found, Layout};
use std::alloc::Global;
use y2k_base::{Bytes, List, Memory, Twin};

/// Adds a word that has ended, if it has begun.
fn add_ended(words: &mut List<Bytes>, word: Bytes) -> Result<(), Memory>
    ensures { OnOk result (words.new ≡ words.old ++ spec.ended word) }
{
    if word.is_empty() {
        Ok(())
    } else {
        words.push(word)
    }
}

/// The words between blanks, in capitals.
fn words_of(alloc: Global, text: &[u8]) -> Result<List<Bytes>, Memory>
    ensures { IfOk result (λ words. words ≡ spec.words_of text.now) }
{
    let mut words = List::new(alloc);
    let mut word = List::new(alloc);
    let mut rest = text;
    while let [byte, more @ ..] = rest {
        if *byte == b' ' {
            add_ended(&mut words, word)?;
            word = List::new(alloc);
        } else {
            word.push(byte.to_ascii_uppercase())?;
        }
        rest = more;
    }
    add_ended(&mut words, word)?;
    Ok(words)
}

/// A name and its qualifiers, parted by OF.
fn names_of(alloc: Global, words: &[Bytes]) -> Result<Option<List<Bytes>>, Memory>
    ensures { IfOk result (λ names. names ≡ spec.names_of words.now) }
{
    let mut names = List::new(alloc);
    let mut rest = words;
    while let [name, of, more @ ..] = rest {
        if of.items() != b"OF".as_slice() {
            return Ok(None);
        }
        names.push(name.twin(alloc)?)?;
        rest = more;
    }
    match rest {
        [name] => {
            names.push(name.twin(alloc)?)?;
            Ok(Some(names))
        }
        _ => Ok(None),
    }
}

/// The number of the one item that a text means: names parted by OF, from the innermost on, with blanks between, in
/// capitals or small letters. IN, subscripts and references have no meaning there, and a condition-name is no item.
pub fn named_item(alloc: Global, layout: &Layout, text: &[u8]) -> Result<Option<u32>, Memory>
    requires { IsReady layout.now }
    ensures { IfOk result (λ item. item ≡ spec.named_item layout.now text.now) }
{
    let words = words_of(alloc, text)?;
    match names_of(alloc, words.items())? {
        Some(names) => Ok(item_of(layout.find(names.items()))),
        None => Ok(None),
    }
}

fn item_of(found: Found) -> Option<u32>
    ensures { result ≡ spec.item_of found }
{
    match found {
        Found::Item(number) => Some(number),
        Found::Named(_) => None,
        Found::Unknown => None,
        Found::Twice => None,
    }
}
