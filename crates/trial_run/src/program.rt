ghost use Rattle.std.specs.Prelude.{List, IfOk};
ghost use Rattle.program_meaning.specs.Job as job;
ghost use Rattle.program_meaning.specs.Job.{Going, job_run};
ghost use Rattle.program_meaning.specs.State.{Program};
ghost use Rattle.trial_run.specs.Jobs.{HasEnded};
ghost use Rattle.trial_run.specs.Plans.{IsPlan, program_of, day_of};
ghost use Rattle.trial_run.specs.Runs.{IsRunOf, state_of};

use crate::end::End;
use crate::plan::Plan;
use crate::run::{Run, Stepped};
use y2k_base::Memory;

/// How a program ended, and how many steps are left.
#[derive(Clone, Copy)]
pub(crate) struct Ran {
    pub(crate) end: End,
    pub(crate) left: u64,
}

impl<'a> Run<'a> {
    /// Runs the program for at most `bound` steps.
    pub(crate) fn run(&mut self, plan: &Plan<'a>, bound: u64) -> Result<Ran, Memory>
        requires plan { IsPlan plan.now }
        requires run { IsRunOf plan.now self.old }
        ensures { (ends : List job.End) (rest : List Program) → IfOk result (λ ran.
            HasEnded plan.now self.new (job_run (day_of plan.now) bound (Going ends (program_of plan.now) (state_of self.old) rest)) ends rest ran.end ran.left) }
    {
        let mut left = bound;
        while left > 0 {
            left -= 1;
            match self.step(plan)? {
                Stepped::On => {}
                Stepped::Stopped => {
                    return Ok(Ran {
                        end: End::Stopped,
                        left,
                    });
                }
                Stepped::Failed { kind, at } => {
                    return Ok(Ran {
                        end: End::Fault { kind, at },
                        left,
                    });
                }
            }
        }
        Ok(Ran {
            end: End::Running,
            left,
        })
    }
}
