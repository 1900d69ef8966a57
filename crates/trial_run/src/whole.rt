ghost use Rattle.std.specs.Prelude.{◌≡◌, IfOk, map};
ghost use Rattle.std.specs.List.{AllByRecursion};
ghost use Rattle.data_layout.specs.Index.{IsReady};
ghost use Rattle.layout_reading.specs.Reading.{programs_of};
ghost use Rattle.program_meaning.specs.Job.{job_after, ends_of, files_of, shown_of};
ghost use Rattle.seq_files.specs.Disks.{disks};
ghost use Rattle.trial_run.specs.Answers.{read_day, read_end, read_shown};
ghost use Rattle.trial_run.specs.Jobs.{HasNumbers, IsNumberIn};

use crate::day::Day;
use crate::job::{Job, JobEnd};
use crate::progress::Progress;
use data_layout::Portfolio;
use seq_files::Store;
use std::alloc::Global;
use y2k_base::{List, Memory};

/// Runs a job for at most `bound` steps, on a day. A program whose layout doesn't fit, or that names a record that
/// isn't there, is want of memory; a sound portfolio has none. After want of memory the store is given up.
pub fn run_job(
    alloc: Global,
    portfolio: &Portfolio,
    job: &Job,
    store: Store,
    day: Day,
    bound: u64,
) -> Result<JobEnd, Memory>
    requires programs { AllByRecursion (IsNumberIn portfolio.now) job.now.programs }
    requires ready { AllByRecursion IsReady portfolio.now.layouts }
    requires numbered { AllByRecursion HasNumbers portfolio.now.layouts }
    ensures ends { IfOk result (λ answer. ends_of (job_after (read_day day) (programs_of portfolio.now job.now.programs) (disks store) bound) ≡ map read_end answer.ends) }
    ensures files { IfOk result (λ answer. files_of (job_after (read_day day) (programs_of portfolio.now job.now.programs) (disks store) bound) ≡ disks answer.store) }
    ensures shown { IfOk result (λ answer. shown_of (job_after (read_day day) (programs_of portfolio.now job.now.programs) (disks store) bound) ≡ map read_shown answer.shown) }
{
    let mut progress = Progress {
        ends: List::new(alloc),
        store,
        shown: List::new(alloc),
        left: bound,
    };
    progress.run_all(alloc, portfolio, job.programs.items(), day)?;
    Ok(progress.answer())
}
