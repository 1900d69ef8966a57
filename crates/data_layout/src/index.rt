ghost use Rattle.std.specs.Prelude.{◌≡◌, ◌<◌, ◌^◌, ◌∷◌, [], List as Items, ℕ, false, length, bytes_eq, if◌then◌else◌, IfOk, OnOk, IfSome, IfNone};
ghost use Rattle.data_layout.specs.Index as spec;

use crate::found::Found;
use crate::item::{CondItem, Item};
use std::alloc::Global;
use std::collections::BTreeMap;
use y2k_base::{Bytes, List, Memory};

/// What has each name: items first, then condition-names, each in the order of their numbers.
#[derive(Drop)]
pub(crate) struct Index {
    lists: BTreeMap<Vec<u8>, List<Found>>,
}

impl Index {
    fn new(alloc: Global) -> Index
        ensures { spec.held result ≡ spec.holds_nothing }
    {
        Index {
            lists: BTreeMap::new(alloc),
        }
    }

    /// The index of items and condition-names.
    pub(crate) fn of(alloc: Global, items: &[Item], conds: &[CondItem]) -> Result<Index, Memory>
        requires items { length items.now < 2 ^ 32 }
        requires conds { length conds.now < 2 ^ 32 }
        ensures { IfOk result (λ index. spec.held index ≡ spec.names_of items.now conds.now) }
    {
        let mut index = Index::new(alloc);
        index.add_items(alloc, items)?;
        index.add_conds(alloc, conds)?;
        Ok(index)
    }

    /// What has the name.
    pub(crate) fn of_name(&self, name: &Bytes) -> &[Found]
        ensures { result.now ≡ spec.held self.now name.now }
    {
        match self.lists.get(name.items()) {
            Some(list) => list.items(),
            None => &[],
        }
    }

    fn take(&mut self, alloc: Global, name: &Bytes) -> List<Found>
        ensures list { result ≡ spec.held self.old name.now }
        ensures others { (other : Items ℕ) → bytes_eq name.now other ≡ false → spec.held self.new other ≡ spec.held self.old other }
    {
        match self.lists.remove(name.items()) {
            Some(list) => list,
            None => List::new(alloc),
        }
    }

    fn put(&mut self, alloc: Global, name: &Bytes, list: List<Found>) -> Result<(), Memory>
        ensures { OnOk result ((other : Items ℕ) → spec.held self.new other ≡ (if bytes_eq name.now other then list else spec.held self.old other)) }
    {
        let mut key = Vec::new(alloc);
        key.extend_from_slice(name.items())?;
        self.lists.insert(key, list)?;
        Ok(())
    }

    fn add(&mut self, alloc: Global, name: &Bytes, found: Found) -> Result<(), Memory>
        ensures { OnOk result (spec.held self.new ≡ spec.with_found (spec.held self.old) name.now found) }
    {
        let mut list = self.take(alloc, name);
        list.push(found)?;
        self.put(alloc, name, list)?;
        Ok(())
    }

    fn add_named(&mut self, alloc: Global, name: &Option<Bytes>, found: Found) -> Result<(), Memory>
        ensures { OnOk result (spec.held self.new ≡ spec.with_named (spec.held self.old) name.now found) }
    {
        match name {
            Some(name) => {
                self.add(alloc, name, found)?;
                Ok(())
            }
            None => Ok(()),
        }
    }

    fn add_items(&mut self, alloc: Global, items: &[Item]) -> Result<(), Memory>
        requires { length items.now < 2 ^ 32 }
        ensures { OnOk result (spec.held self.new ≡ spec.with_items (spec.held self.old) 0 items.now) }
    {
        let mut number = 0;
        let mut rest = items;
        while let Some((item, more)) = first_item(rest) {
            self.add_named(alloc, &item.name, Found::Item(number))?;
            number += 1;
            rest = more;
        }
        Ok(())
    }

    fn add_conds(&mut self, alloc: Global, conds: &[CondItem]) -> Result<(), Memory>
        requires { length conds.now < 2 ^ 32 }
        ensures { OnOk result (spec.held self.new ≡ spec.with_conds (spec.held self.old) 0 conds.now) }
    {
        let mut number = 0;
        let mut rest = conds;
        while let Some((cond, more)) = first_cond(rest) {
            self.add(alloc, &cond.name, Found::Named(number))?;
            number += 1;
            rest = more;
        }
        Ok(())
    }
}

fn first_item(items: &[Item]) -> Option<(&Item, &[Item])>
    ensures some { IfSome result (λ first. items.now ≡ first.0.now ∷ first.1.now) }
    ensures none { IfNone result (items.now ≡ []) }
{
    match items {
        [] => None,
        [item, more @ ..] => Some((item, more)),
    }
}

fn first_cond(conds: &[CondItem]) -> Option<(&CondItem, &[CondItem])>
    ensures some { IfSome result (λ first. conds.now ≡ first.0.now ∷ first.1.now) }
    ensures none { IfNone result (conds.now ≡ []) }
{
    match conds {
        [] => None,
        [cond, more @ ..] => Some((cond, more)),
    }
}
