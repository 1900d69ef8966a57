ghost use Rattle.std.specs.Prelude.{◌≡◌, OnOk};
ghost use Rattle.name_tables.specs.Table.{held, holds_nothing, with_value};

use std::alloc::Global;
use std::collections::BTreeMap;
use y2k_base::Memory;

/// What each of some names stands for.
#[derive(Drop)]
pub struct NameTable<'a, V> {
    index: BTreeMap<&'a [u8], V>,
}

impl<'a, V: Copy> NameTable<'a, V> {
    /// A table without names. It takes no memory.
    pub fn new(alloc: Global) -> NameTable<'a, V>
        ensures { held result ≡ holds_nothing }
    {
        NameTable {
            index: BTreeMap::new(alloc),
        }
    }

    /// What the name stands for.
    pub fn get(&self, name: &[u8]) -> Option<V>
        ensures { result ≡ held self.now name.now }
    {
        match self.index.get(name) {
            Some(value) => Some(*value),
            None => None,
        }
    }

    /// Lets the name stand for the value from now on.
    pub fn put(&mut self, name: &'a [u8], value: V) -> Result<(), Memory>
        ensures { OnOk result (held self.new ≡ with_value (held self.old) name.now value) }
    {
        self.index.insert(name, value)?;
        Ok(())
    }
}
