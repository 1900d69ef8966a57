ghost use Rattle.std.specs.Prelude.{◌≡◌, OnOk};
ghost use Rattle.data_layout.specs.Faults.{no_names, is_again, with_name, with_bytes};
ghost use Rattle.data_layout.specs.Names.{named};

use std::alloc::Global;
use std::collections::BTreeSet;
use y2k_base::{Bytes, Memory};

/// The names that stand side by side so far.
#[derive(Drop)]
pub(crate) struct Names {
    index: BTreeSet<Vec<u8>>,
}

impl Names {
    pub(crate) fn new(alloc: Global) -> Names
        ensures { named result ≡ no_names }
    {
        Names {
            index: BTreeSet::new(alloc),
        }
    }

    /// Whether a name stands already.
    pub(crate) fn has(&self, name: &Option<Bytes>) -> bool
        ensures { result ≡ is_again (named self.now) name.now }
    {
        match name {
            Some(name) => self.index.contains(name.items()),
            None => false,
        }
    }

    pub(crate) fn add(&mut self, alloc: Global, name: &Option<Bytes>) -> Result<(), Memory>
        ensures { OnOk result (named self.new ≡ with_name (named self.old) name.now) }
    {
        match name {
            Some(name) => {
                self.add_bytes(alloc, name)?;
                Ok(())
            }
            None => Ok(()),
        }
    }

    fn add_bytes(&mut self, alloc: Global, name: &Bytes) -> Result<(), Memory>
        ensures { OnOk result (named self.new ≡ with_bytes (named self.old) name.now) }
    {
        let mut bytes = Vec::new(alloc);
        bytes.extend_from_slice(name.items())?;
        self.index.insert(bytes)?;
        Ok(())
    }
}
