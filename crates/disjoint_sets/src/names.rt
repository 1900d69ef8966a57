ghost use Rattle.std.specs.Prelude.{◌≡◌, ◌⊎◌, ◌<◌, length, slice_index, IfOk};
ghost use Rattle.disjoint_sets.specs.Sets.{IsForest, AreNames};

use std::alloc::{AllocError, Global};

/// The roots of the trees that hold the numbers.
pub(crate) fn names_of(alloc: Global, parents: &[usize]) -> Result<Vec<usize>, AllocError>
    requires { IsForest parents.now }
    ensures { IfOk result (λ names. AreNames parents.now (length parents.now) names.items) }
{
    let mut names = Vec::new(alloc);
    for number in 0..parents.len() {
        let name = name_of(parents, &names, number);
        names.push(name)?;
    }
    Ok(names)
}

/// The root of a number, where those of the lower ones are known.
fn name_of(parents: &[usize], names: &[usize], number: usize) -> usize
    requires forest { IsForest parents.now }
    requires within { number < length parents.now }
    requires known { length names.now ≡ number }
    ensures { ((slice_index parents.now number < number) × (result ≡ slice_index names.now (slice_index parents.now number))) ⊎ ((slice_index parents.now number ≡ number) × (result ≡ number)) }
{
    let parent = parents[number];
    if parent < number {
        names[parent]
    } else {
        number
    }
}
