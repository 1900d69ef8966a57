ghost use Rattle.std.specs.Prelude.{◌≡◌, OnOk, IfSome, IfNone};
ghost use Rattle.name_tables.specs.Names.{named, no_names, with_name, IsLeast, NonePasses};

use std::alloc::Global;
use std::collections::BTreeSet;
use y2k_base::Memory;

/// A set of names.
#[derive(Drop)]
pub struct Names {
    index: BTreeSet<Vec<u8>>,
}

impl Names {
    /// No names. It takes no memory.
    pub fn new(alloc: Global) -> Names
        ensures { named result ≡ no_names }
    {
        Names {
            index: BTreeSet::new(alloc),
        }
    }

    /// Whether the name is there.
    pub fn has(&self, name: &[u8]) -> bool
        ensures { result ≡ named self.now name.now }
    {
        self.index.contains(name)
    }

    /// Adds a name, which may be there already.
    pub fn add(&mut self, alloc: Global, name: &[u8]) -> Result<(), Memory>
        ensures { OnOk result (named self.new ≡ with_name (named self.old) name.now) }
    {
        let mut bytes = Vec::new(alloc);
        bytes.extend_from_slice(name)?;
        self.index.insert(bytes)?;
        Ok(())
    }

    /// The least name in byte order.
    pub fn least(&self) -> Option<&[u8]>
        ensures some { IfSome result (λ name. IsLeast (named self.now) name.now) }
        ensures none { IfNone result (NonePasses (named self.now)) }
    {
        match self.index.first() {
            Some(name) => Some(name.as_slice()),
            None => None,
        }
    }
}
