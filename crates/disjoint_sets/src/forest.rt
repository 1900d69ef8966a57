ghost use Rattle.std.specs.Prelude.{◌≡◌, ◌↔◌, ℕ, ◌<◌, ◌≤◌, Bool, length, slice_index};
ghost use Rattle.disjoint_sets.specs.Sets.{IsForest, IsKept};

/// The root of the tree that holds the number. Each second number on the way is hung one step higher.
fn find_root(parents: &mut [usize], number: usize) -> usize
    requires forest { IsForest parents.old }
    requires within { number < length parents.old }
    ensures forest { IsForest parents.new }
    ensures same { (keep : ℕ → Bool) → IsKept parents.new keep ↔ IsKept parents.old keep }
    ensures held { (keep : ℕ → Bool) → IsKept parents.old keep → keep number ≡ keep result }
    ensures roots { (k : ℕ) → slice_index parents.old k ≡ k → slice_index parents.new k ≡ k }
    ensures root { slice_index parents.new result ≡ result }
    ensures within { result < length parents.new }
{
    let mut at = number;
    while parents[at] < at {
        at = climb(parents, at);
    }
    at
}

/// Hangs a number that isn't a root one step higher, and answers what it hangs on.
fn climb(parents: &mut [usize], number: usize) -> usize
    requires forest { IsForest parents.old }
    requires within { number < length parents.old }
    requires hung { slice_index parents.old number < number }
    ensures forest { IsForest parents.new }
    ensures same { (keep : ℕ → Bool) → IsKept parents.new keep ↔ IsKept parents.old keep }
    ensures held { (keep : ℕ → Bool) → IsKept parents.old keep → keep number ≡ keep result }
    ensures roots { (k : ℕ) → slice_index parents.old k ≡ k → slice_index parents.new k ≡ k }
    ensures lower { result < number }
{
    let above = parents[parents[number]];
    parents[number] = above;
    above
}

/// Joins the sets of the two numbers.
pub(crate) fn join_trees(parents: &mut [usize], first: usize, second: usize)
    requires forest { IsForest parents.old }
    requires first { first < length parents.old }
    requires second { second < length parents.old }
    ensures forest { IsForest parents.new }
    ensures joined { (keep : ℕ → Bool) → IsKept parents.new keep ↔ (IsKept parents.old keep × (keep first ≡ keep second)) }
{
    let one = find_root(parents, first);
    let other = find_root(parents, second);
    if one < other {
        hang(parents, other, one);
    } else {
        hang(parents, one, other);
    }
}

/// Hangs a root on a number that isn't above it.
fn hang(parents: &mut [usize], root: usize, on: usize)
    requires forest { IsForest parents.old }
    requires within { root < length parents.old }
    requires root { slice_index parents.old root ≡ root }
    requires lower { on ≤ root }
    ensures forest { IsForest parents.new }
    ensures joined { (keep : ℕ → Bool) → IsKept parents.new keep ↔ (IsKept parents.old keep × (keep root ≡ keep on)) }
{
    parents[root] = on;
}
