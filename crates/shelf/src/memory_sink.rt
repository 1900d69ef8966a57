ghost use Rattle.std.specs.Prelude.{◌≡◌, ◌++◌, [], ◌∷◌, Some, IfOk, OnOk, OnErr, IsErrOf};
ghost use Rattle.shelf.specs.Calls.{HasBegun};
ghost use Rattle.shelf.specs.Causes.{HasSinkCause};

use crate::calls::Calls;
use crate::{Sink, SinkErr};
use std::alloc::Global;
use y2k_base::Memory;

/// Takes bytes in memory. Calls of `Sink` can be made to fail by their numbers.
#[derive(Debug)]
pub struct MemorySink {
    bytes: Vec<u8>,
    calls: Calls,
}

impl MemorySink {
    /// A sink that has taken no bytes.
    pub fn new(alloc: Global) -> Result<MemorySink, Memory>
        ensures bytes { IfOk result (λ sink. sink.bytes.items ≡ []) }
        ensures made { IfOk result (λ sink. sink.calls.made ≡ 0) }
        ensures failing { IfOk result (λ sink. sink.calls.failing.items ≡ []) }
        ensures faults { IfOk result (λ sink. sink.calls.faults ≡ 0) }
    {
        Ok(MemorySink {
            bytes: Vec::new(alloc),
            calls: Calls::new(alloc),
        })
    }

    /// Makes the call of that number fail. Calls of `put` are counted from 1.
    pub fn fail_on(&mut self, call: u64) -> Result<(), Memory>
        ensures ok { OnOk result (self.new.calls.failing.items ≡ self.old.calls.failing.items ++ call ∷ []) }
        ensures err { OnErr result (self.new.calls.failing.items ≡ self.old.calls.failing.items) }
        ensures made { self.new.calls.made ≡ self.old.calls.made }
        ensures faults { self.new.calls.faults ≡ self.old.calls.faults }
        ensures bytes { self.new.bytes.items ≡ self.old.bytes.items }
    {
        self.calls.fail_on(call)?;
        Ok(())
    }

    /// The bytes taken.
    pub fn bytes(&self) -> &[u8]
        ensures { result.now ≡ self.now.bytes.items }
    {
        self.bytes.as_slice()
    }
}

impl Drop for MemorySink {
    fn drop(self) {
        let MemorySink {
            bytes: _bytes,
            calls: _calls,
        } = self;
    }
}

impl Sink for MemorySink {
    ghost taken = { λ s. Some s.bytes.items };

    ghost faults = { λ s. s.calls.faults };

    /// After an error nothing of the piece has been taken.
    fn put(&mut self, piece: &[u8]) -> Result<(), SinkErr>
        ensures ok { OnOk result (self.new.bytes.items ≡ self.old.bytes.items ++ piece.now) }
        ensures err { OnErr result (self.new.bytes.items ≡ self.old.bytes.items) }
        ensures cause { HasSinkCause self.old.calls.faults self.new.calls.faults result }
        ensures begun { HasBegun self.old.calls self.new.calls (IsErrOf result SinkErr.Failed) }
    {
        if self.calls.begin() {
            return Err(SinkErr::Failed);
        }
        match self.bytes.extend_from_slice(piece) {
            Ok(()) => Ok(()),
            Err(_) => Err(SinkErr::Memory),
        }
    }
}
