ghost use Rattle.std.specs.Prelude.{◌≡◌};
ghost use Rattle.year_ageing.specs.Years as spec;

use crate::side::Side;

/// What is done with records: the years of those of one side are moved, or the images get two digits a year
/// again.
#[derive(Clone, Copy, PartialEq, Eq, Debug)]
pub enum Task {
    Age { side: Side, years: i8 },
    Contract,
}

/// The side of the records that are read.
pub(crate) fn task_side(task: Task) -> Side
    ensures { result ≡ spec.task_side task }
{
    match task {
        Task::Age { side, years: _ } => side,
        Task::Contract => Side::New,
    }
}
