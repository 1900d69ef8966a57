ghost use Rattle.std.specs.Prelude.{◌≡◌};
ghost use Rattle.program_meaning.specs.Step as meant;
ghost use Rattle.program_meaning.specs.Step.{by_size, by_status};
ghost use Rattle.program_meaning.specs.Tree.{Present, Statements};
ghost use Rattle.seq_files.specs.Codes.{code};
ghost use Rattle.tree_reading.specs.Reading.{read_statements};
ghost use Rattle.trial_run.specs.Branches.{branch_if};

use cobol_syntax::{Branch, Statement};
use seq_files::Status;

/// Whether there is a size phrase, of either kind.
pub(crate) fn has_size(size: &Option<Branch>) -> bool
    ensures { result ≡ meant.has_size (branch_if size.now) }
{
    match size {
        None => false,
        Some(_) => true,
    }
}

/// Whether there is an AT END.
pub(crate) fn has_end(end: &Option<Branch>) -> bool
    ensures { result ≡ meant.has_end (branch_if end.now) }
{
    match end {
        None => false,
        Some(branch) => has_statements(branch.yes.items()),
    }
}

#[tactic(auto, using(crate::proofs::Led::some_statements))]
fn has_statements(list: &[Statement]) -> bool
    ensures { (other : Statements) → result ≡ meant.has_end (Present (read_statements list.now) other) }
{
    match list {
        [] => false,
        [_, ..] => true,
    }
}

/// The statements of a size phrase that run.
pub(crate) fn list_by_size(size: &Option<Branch>, error: bool) -> &[Statement]
    ensures { read_statements result.now ≡ by_size error (branch_if size.now) }
{
    match size {
        None => &[],
        Some(branch) => {
            if error {
                branch.yes.items()
            } else {
                branch.no.items()
            }
        }
    }
}

/// The statements of AT END and NOT AT END that run.
pub(crate) fn list_by_status(end: &Option<Branch>, status: Status) -> &[Statement]
    ensures { read_statements result.now ≡ by_status (code status) (branch_if end.now) }
{
    match end {
        None => &[],
        Some(branch) => match status {
            Status::S00 => branch.no.items(),
            Status::S10 => branch.yes.items(),
            Status::S35 => &[],
            Status::S41 => &[],
            Status::S42 => &[],
            Status::S46 => &[],
            Status::S47 => &[],
            Status::S48 => &[],
        },
    }
}
