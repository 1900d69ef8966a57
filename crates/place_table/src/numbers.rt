ghost use Rattle.std.specs.Prelude.{◌≡◌, ◌≢◌, ℕ, None, Some, OnOk};
ghost use Rattle.place_table.specs.Numbers.{number_at};

use std::alloc::Global;
use y2k_base::Memory;

/// The number of the place that stands at each position of a program's words.
#[derive(Drop)]
pub(crate) struct Numbers {
    numbers: Vec<Option<u32>>,
}

impl Numbers {
    /// No position has a number. It takes no memory.
    pub(crate) fn new(alloc: Global) -> Numbers
        ensures { (at : ℕ) → number_at result at ≡ None }
    {
        Numbers {
            numbers: Vec::new(alloc),
        }
    }

    /// The number at a position.
    pub(crate) fn get(&self, at: u32) -> Option<u32>
        ensures { result ≡ number_at self.now at }
    {
        match self.numbers.get(at as usize) {
            Some(number) => *number,
            None => None,
        }
    }

    /// Gives a position this number from now on.
    pub(crate) fn put(&mut self, at: u32, number: u32) -> Result<(), Memory>
        ensures here { OnOk result (number_at self.new at ≡ Some number) }
        ensures others { (other : ℕ) → other ≢ at → number_at self.new other ≡ number_at self.old other }
    {
        let place = at as usize;
        if self.numbers.len() <= place {
            self.numbers.resize(place + 1, None)?;
        }
        self.numbers[place] = Some(number);
        Ok(())
    }
}
