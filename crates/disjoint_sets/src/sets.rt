ghost use Rattle.std.specs.Prelude.{◌≡◌, ◌↔◌, ℕ, ◌<◌, Bool, length, slice_index, IfOk};
ghost use Rattle.disjoint_sets.specs.Sets.{IsKept, AreNamesOf};

use crate::forest::join_trees;
use crate::names::names_of;
use std::alloc::Global;
use std::marker::Model;
use y2k_base::{List, Memory};

/// The numbers below a count, in disjoint sets. It is seen as a list that has for each number one of its set; a test is
/// the same on each set where it is on a number and its entry.
#[derive(Drop)]
pub struct DisjointSets {
    parents: Vec<usize>,
}

impl Model for DisjointSets {
    ghost use Rattle.std.specs.Prelude.{List, ℕ};

    ghost Value = { List ℕ };

    ghost use Rattle.disjoint_sets.specs.Sets.{IsForest};

    ghost view = { λ a. a.parents.items };

    ghost invariant = { λ a. IsForest a.parents.items };
}

impl DisjointSets {
    /// Each number is a set of its own.
    pub fn new(alloc: Global, count: usize) -> Result<DisjointSets, Memory>
        ensures long { IfOk result (λ sets. length sets ≡ count) }
        ensures apart { IfOk result (λ sets. (keep : ℕ → Bool) → IsKept sets keep) }
    {
        let mut parents = Vec::new(alloc);
        for number in 0..count {
            parents.push(number)?;
        }
        Ok(DisjointSets { parents })
    }

    /// Joins the sets of the two numbers. It takes no memory.
    pub fn join(&mut self, first: usize, second: usize)
        requires first { first < length self.old }
        requires second { second < length self.old }
        ensures long { length self.new ≡ length self.old }
        ensures joined { (keep : ℕ → Bool) → IsKept self.new keep ↔ (IsKept self.old keep × (keep first ≡ keep second)) }
    {
        join_trees(&mut self.parents, first, second);
    }

    /// A name for the set of each number, which is one of its numbers.
    pub fn names(&self, alloc: Global) -> Result<List<usize>, Memory>
        ensures { IfOk result (AreNamesOf self.now) }
    {
        let names = names_of(alloc, &self.parents)?;
        Ok(List::from_vec(names))
    }
}
