ghost use Rattle.std.specs.Prelude.{◌≡◌, ℕ, List as Items, map, IfOk};
ghost use Rattle.cond_reader.specs.Kinds.{kind_of, is_among, IsIndexOf};

use crate::symbol::{Symbol, same_symbol, symbol_of};
use std::alloc::Global;
use std::collections::BTreeSet;
use y2k_base::{Bytes, List, Memory, Word};

/// The condition-names of a program: the names of its entries of level 88.
#[derive(Debug, Drop)]
pub struct CondNames {
    pub list: List<Bytes>,
}

/// What a word is to conditions, and whether it is a condition-name of the program.
#[derive(Clone, Copy, Debug, PartialEq, Eq)]
pub struct Kind {
    pub symbol: Symbol,
    pub is_named: bool,
}

/// The names in order, so that each word is looked up once.
fn index_of<'a>(alloc: Global, names: &'a CondNames) -> Result<BTreeSet<&'a [u8]>, Memory>
    ensures { IfOk result (λ index. IsIndexOf index.keys (λ key. key.now) names.now.list) }
{
    let mut index = BTreeSet::new(alloc);
    for name in names.list.items() {
        index.insert(name.items())?;
    }
    Ok(index)
}

/// Whether a text is one of the names.
fn is_found(index: &BTreeSet<&[u8]>, text: &[u8]) -> bool
    ensures { (names : Items (Items ℕ)) → IsIndexOf index.now.keys (λ key. key.now) names → result ≡ is_among names text.now }
{
    index.contains(text)
}

/// What a word is, by the index of the condition-names.
#[tactic(auto, unfolding(crate::specs::Kinds::kind_of))]
fn kind_by(index: &BTreeSet<&[u8]>, word: &Word) -> Kind
    ensures { (names : Items (Items ℕ)) → IsIndexOf index.now.keys (λ key. key.now) names → result ≡ kind_of names word.now }
{
    let symbol = symbol_of(word);
    if same_symbol(symbol, Symbol::Name) {
        let is_named = is_found(index, word.text.items());
        Kind { symbol, is_named }
    } else {
        Kind {
            symbol,
            is_named: false,
        }
    }
}

/// What each of the words is in a program with these condition-names.
pub fn kinds_of(alloc: Global, words: &[Word], names: &CondNames) -> Result<List<Kind>, Memory>
    ensures { IfOk result (λ kinds. kinds ≡ map (kind_of names.now.list) words.now) }
{
    let index = index_of(alloc, names)?;
    let mut kinds = List::new(alloc);
    for word in words {
        kinds.push(kind_by(&index, word))?;
    }
    Ok(kinds)
}
