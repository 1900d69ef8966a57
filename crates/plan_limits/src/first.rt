ghost use Rattle.std.specs.Prelude.{◌≡◌, [], IfNone, IfSome};
ghost use Rattle.plan_limits.specs.First as spec;
ghost use Rattle.plan_limits.specs.First.{IsFirst};

use crate::limit::Limit;
use std::cmp::Ordering;
use y2k_base::List;

impl Limit {
    /// Which of two limits comes first: by kind, then by place in the texts, then by what is kept, but for undecided sums.
    fn compare(&self, other: &Limit) -> Ordering
        ensures { result ≡ spec.limit_cmp self.now other.now }
    {
        let kinds = self.kind.number().cmp(&other.kind.number());
        let files = self.at.file.0.cmp(&other.at.file.0);
        let lines = self.at.line.cmp(&other.at.line);
        let columns = self.at.column.cmp(&other.at.column);
        kinds.then(files.then(lines.then(columns.then(self.compare_shown(other)))))
    }
}

/// The first of some limits: of the first kind, of those the one with the first place in the texts, and of those the one with
/// the least place, number or word. Of several undecided sums at one place it is the first of the list.
pub fn first_limit(limits: List<Limit>) -> Option<Limit>
    ensures some { IfSome result (IsFirst limits) }
    ensures none { IfNone result (limits ≡ []) }
{
    let mut rest = limits.into_vec();
    let mut first = match rest.pop() {
        Some(last) => last,
        None => return None,
    };
    while let Some(limit) = rest.pop() {
        if first.compare(&limit).is_ge() {
            first = limit;
        }
    }
    Some(first)
}
