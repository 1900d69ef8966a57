ghost use Rattle.std.specs.Prelude.{◌≡◌};
ghost use Rattle.std.specs.List.{list_any};
ghost use Rattle.run_lines.specs.Lines as spec;

use answers::DONE;
use trial_run::{End, FaultKind};

/// The job hasn't ended within the bound.
pub const STILL_RUNNING: u8 = 9;

pub(crate) fn kind_word(kind: FaultKind) -> &'static str
    ensures { result.now ≡ spec.kind_word kind }
{
    match kind {
        FaultKind::Data => "Data",
        FaultKind::Range => "Range",
        FaultKind::Zero => "Zero",
        FaultKind::Wide => "Wide",
        FaultKind::File => "File",
    }
}

fn is_running(end: End) -> bool
    ensures { result ≡ spec.is_running end }
{
    match end {
        End::Stopped => false,
        End::Fault { .. } => false,
        End::Running => true,
    }
}

fn any_running(ends: &[End]) -> bool
    ensures { result ≡ list_any spec.is_running ends.now }
{
    let mut rest = ends;
    while let [end, more @ ..] = rest {
        if is_running(*end) {
            return true;
        }
        rest = more;
    }
    false
}

/// The status that goes with the ends of a job.
pub fn job_status(ends: &[End]) -> u8
    ensures { result ≡ spec.job_status ends.now }
{
    if any_running(ends) {
        STILL_RUNNING
    } else {
        DONE
    }
}
