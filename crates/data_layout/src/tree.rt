ghost use Rattle.std.specs.Prelude.{◌≡◌, ◌↔◌, IsTrue, IfSome, IfNone};
ghost use Rattle.data_layout.specs.Tree as tree;

use cobol_syntax::Entry;

pub(crate) const SINGLE: u8 = 77;

pub(crate) const NAMED: u8 = 88;

/// How deep a level stands.
pub(crate) fn rank(level: u8) -> u8
    ensures { result ≡ tree.rank level }
{
    if level == SINGLE || level == 0 {
        1
    } else if level > NAMED {
        NAMED
    } else {
        level
    }
}

/// The first entry and those after it, if it stands deeper than the rank.
pub(crate) fn first_within(entries: &[Entry], around: u8) -> Option<(&Entry, &[Entry])>
    ensures some { IfSome result (λ first. tree.BeginsWithin around entries.now first.0.now first.1.now) }
    ensures none { IfNone result (tree.BeginsBeyond around entries.now) }
{
    match entries {
        [] => None,
        [entry, inner @ ..] => {
            if rank(entry.level) > around {
                Some((entry, inner))
            } else {
                None
            }
        }
    }
}
