ghost use Rattle.std.specs.Prelude.{◌≡◌, IfOk};

use crate::{List, Memory};
use sqlite_items::Boxed;
use std::alloc::Global;

/// A value equal to the one lent.
pub trait Twin {
    fn twin(&self, alloc: Global) -> Result<Self, Memory>
        ensures { IfOk result (λ copy. copy ≡ self.now) };
}

impl Twin for u8 {
    fn twin(&self, _: Global) -> Result<u8, Memory> {
        Ok(*self)
    }
}

impl<T: Twin + Drop> Twin for List<T> {
    fn twin(&self, alloc: Global) -> Result<List<T>, Memory> {
        let mut copy = List::new(alloc);
        for item in self.items() {
            copy.push(item.twin(alloc)?)?;
        }
        Ok(copy)
    }
}

impl<T: Twin> Twin for Option<T> {
    fn twin(&self, alloc: Global) -> Result<Option<T>, Memory> {
        match self {
            None => Ok(None),
            Some(value) => Ok(Some(value.twin(alloc)?)),
        }
    }
}

impl<T: Twin + Drop> Twin for Boxed<T> {
    fn twin(&self, alloc: Global) -> Result<Boxed<T>, Memory> {
        Ok(Boxed::new(alloc, self.get().twin(alloc)?)?)
    }
}
