ghost use Rattle.std.specs.Prelude.{◌≡◌, ◌+◌, ◌-◌, ◌^◌, ◌≤◌, ◌++◌, [], ◌∷◌, ℕ, min, IsTrue, OnOk, OnErr, ◌↔◌};

use std::alloc::Global;
use y2k_base::Memory;

/// Counts the calls of an object, some of which are made to fail by their numbers. Calls are numbered from
/// 1, and the number stays at the last value of `u64`, at which no call fails.
#[derive(Debug, Drop)]
pub(crate) struct Calls {
    made: u64,
    failing: Vec<u64>,
    faults: u64,
    ghost counted: { faults ≤ made },
}

impl Calls {
    ghost use Rattle.shelf.specs.Calls.{IsMadeToFail, HasBegun};

    /// No call is made, and none is to fail.
    pub(crate) fn new(alloc: Global) -> Calls
        ensures made { result.made ≡ 0 }
        ensures failing { result.failing.items ≡ [] }
        ensures faults { result.faults ≡ 0 }
    {
        Calls {
            made: 0,
            failing: Vec::new(alloc),
            faults: 0,
        }
    }

    /// Makes the call of that number fail.
    pub(crate) fn fail_on(&mut self, call: u64) -> Result<(), Memory>
        ensures ok { OnOk result (self.new.failing.items ≡ self.old.failing.items ++ call ∷ []) }
        ensures err { OnErr result (self.new.failing.items ≡ self.old.failing.items) }
        ensures made { self.new.made ≡ self.old.made }
        ensures faults { self.new.faults ≡ self.old.faults }
    {
        self.failing.push(call)?;
        Ok(())
    }

    /// Begins a call, and answers whether it is made to fail.
    pub(crate) fn begin(&mut self) -> bool
        ensures { HasBegun self.old self.new (IsTrue result) }
    {
        self.made = self.made.saturating_add(1);
        let fails = self.is_made_to_fail();
        if fails {
            self.faults += 1;
        }
        fails
    }

    /// Whether the last call that was begun is made to fail.
    fn is_made_to_fail(&self) -> bool
        ensures { IsTrue result ↔ IsMadeToFail self.now }
    {
        self.made < u64::MAX && self.failing.contains(&self.made)
    }
}
