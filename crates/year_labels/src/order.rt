ghost use Rattle.std.specs.Prelude.{◌≡◌, ◌↔◌, IsTrue, IfOk, OnOk, Contains, length};
ghost use Rattle.std.specs.BTreeSet.{insert_key};
ghost use Rattle.std.specs.List.Sorted.{IsBinarySearchResult, IsSearchInRange};
ghost use Rattle.year_labels.specs.Order.{IsAscending, fact_cmp};

use crate::Fact;
use std::alloc::{AllocError, Global};
use std::collections::BTreeSet;

/// Adds a fact to a set.
pub(crate) fn insert_key_of(sorted: &mut BTreeSet<Fact>, fact: Fact) -> Result<(), AllocError>
    ensures { OnOk result (sorted.new.keys ≡ insert_key fact_cmp sorted.old.keys fact) }
{
    sorted.insert(fact)?;
    Ok(())
}

/// The facts of a set in order.
pub(crate) fn keys_of(alloc: Global, sorted: BTreeSet<Fact>) -> Result<Vec<Fact>, AllocError>
    ensures keys { IfOk result (λ v. v.items ≡ sorted.keys) }
    ensures ordered { IfOk result (λ v. IsAscending v.items) }
{
    sorted.into_iter().collect(alloc)
}

/// Whether the fact is one of those, which are in order.
pub(crate) fn is_there(facts: &[Fact], fact: Fact) -> bool
    requires { IsAscending facts.now }
    ensures { IsTrue result ↔ Contains facts.now fact }
{
    match search(facts, fact) {
        Ok(_) => true,
        Err(_) => false,
    }
}

/// Where the fact stands, or where it would.
fn search(facts: &[Fact], fact: Fact) -> Result<usize, usize>
    ensures range { IsSearchInRange result (length facts.now) }
    ensures place { IsBinarySearchResult (λ other. fact_cmp other fact) facts.now result }
{
    facts.binary_search(&fact)
}
