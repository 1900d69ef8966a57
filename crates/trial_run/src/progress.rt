ghost use Rattle.std.specs.Prelude.{◌≡◌, ◌<◌, ◌∷◌, List, IfOk, OnOk, length, map, slice_index_or};
ghost use Rattle.std.specs.List.{AllByRecursion};
ghost use Rattle.data_layout.specs.Index.{IsReady};
ghost use Rattle.layout_reading.specs.Reading.{read_portfolio, programs_of, no_program};
ghost use Rattle.program_meaning.specs.Files.{closed};
ghost use Rattle.program_meaning.specs.Job.{job_run};
ghost use Rattle.program_meaning.specs.State.{Program};
ghost use Rattle.program_meaning.specs.Step.{initial};
ghost use Rattle.seq_files.specs.Disks.{disks};
ghost use Rattle.trial_run.specs.Answers.{read_day, read_shown};
ghost use Rattle.trial_run.specs.Jobs.{Answers, HasNumbers, HasPassed, IsNumberIn, state_before};
ghost use Rattle.trial_run.specs.Plans.{IsPlan, program_of};
ghost use Rattle.trial_run.specs.Runs.{IsRunOf, state_of};

use crate::day::Day;
use crate::end::End;
use crate::job::{JobEnd, Shown};
use crate::plan::Plan;
use crate::run::Run;
use data_layout::Portfolio;
use file_statements::RunUnit;
use place_table::Places;
use run_control::Position;
use seq_files::Store;
use std::alloc::Global;
use std::mem::replace;
use storage_start::start;
use y2k_base::{List, Memory};

/// A job between two of its programs: the ends of those that were begun, the files, what was shown, and the steps left.
pub(crate) struct Progress {
    pub(crate) ends: List<End>,
    pub(crate) store: Store,
    pub(crate) shown: List<Shown>,
    pub(crate) left: u64,
}

impl Drop for Progress {
    fn drop(self) {
        let Progress {
            ends: _ends,
            store: _store,
            shown: _shown,
            left: _,
        } = self;
    }
}

impl Progress {
    /// Runs programs of the portfolio, until one doesn't stop.
    pub(crate) fn run_all(
        &mut self,
        alloc: Global,
        portfolio: &Portfolio,
        numbers: &[u32],
        day: Day,
    ) -> Result<(), Memory>
        requires numbers { AllByRecursion (IsNumberIn portfolio.now) numbers.now }
        requires ready { AllByRecursion IsReady portfolio.now.layouts }
        requires numbered { AllByRecursion HasNumbers portfolio.now.layouts }
        ensures { OnOk result (Answers (job_run (read_day day) self.old.left (state_before (programs_of portfolio.now numbers.now) self.old)) self.new.ends (disks self.new.store) (map read_shown self.new.shown)) }
    {
        let mut rest = numbers;
        while let [number, more @ ..] = rest {
            match self.run_program(alloc, portfolio, *number, day)? {
                End::Stopped => {}
                End::Fault { .. } => return Ok(()),
                End::Running => return Ok(()),
            }
            rest = more;
        }
        Ok(())
    }

    /// Runs a program of the portfolio. Answers how it ended.
    pub(crate) fn run_program(
        &mut self,
        alloc: Global,
        portfolio: &Portfolio,
        number: u32,
        day: Day,
    ) -> Result<End, Memory>
        requires program { number < length portfolio.now.programs }
        requires layout { number < length portfolio.now.layouts }
        requires ready { AllByRecursion IsReady portfolio.now.layouts }
        requires numbered { AllByRecursion HasNumbers portfolio.now.layouts }
        ensures { (rest : List Program) → IfOk result (HasPassed (read_day day)
            (job_run (read_day day) self.old.left (state_before (slice_index_or (read_portfolio portfolio.now) number no_program ∷ rest) self.old)) rest self.new) }
    {
        let program = &portfolio.programs.items()[number as usize];
        let layout = &portfolio.layouts.items()[number as usize];
        let plan = Plan::of(alloc, portfolio.files.items(), program, layout, day)?;
        let end = self.run_plan(&plan)?;
        Ok(end)
    }

    /// Runs a program.
    fn run_plan(&mut self, plan: &Plan<'_>) -> Result<End, Memory>
        requires plan { IsPlan plan.now }
        ensures { (rest : List Program) → IfOk result (HasPassed (read_day plan.now.day)
            (job_run (read_day plan.now.day) self.old.left (state_before (program_of plan.now ∷ rest) self.old)) rest self.new) }
    {
        let mut run = self.begin(plan)?;
        let ran = run.run(plan, self.left)?;
        self.take_back(plan.alloc, &mut run)?;
        self.ends.push(ran.end)?;
        self.left = ran.left;
        Ok(ran.end)
    }

    /// A program before its first step, with all files closed. Files and what was shown go over to it.
    fn begin<'a>(&mut self, plan: &Plan<'a>) -> Result<Run<'a>, Memory>
        requires plan { IsPlan plan.now }
        ensures run { IfOk result (IsRunOf plan.now) }
        ensures state { IfOk result (λ run. state_of run ≡ initial (program_of plan.now) (closed (disks self.old.store)) (map read_shown self.old.shown)) }
        ensures ends { self.new.ends ≡ self.old.ends }
        ensures left { self.new.left ≡ self.old.left }
    {
        let storage = start(plan.alloc, plan.program, plan.layout)?;
        let places = Places::of(plan.alloc, plan.layout);
        let position = Position::start(plan.alloc, &plan.labels);
        let empty = Store::new(plan.alloc, &[])?;
        let mut store = replace(&mut self.store, empty);
        store.close_all();
        let shown = replace(&mut self.shown, List::new(plan.alloc));
        let unit = RunUnit {
            places,
            storage,
            store,
        };
        Ok(Run {
            position,
            unit,
            shown,
        })
    }

    /// Takes the files and what was shown back from a program.
    fn take_back(&mut self, alloc: Global, run: &mut Run<'_>) -> Result<(), Memory>
        ensures files { OnOk result (disks self.new.store ≡ disks run.old.unit.store) }
        ensures shown { OnOk result (map read_shown self.new.shown ≡ map read_shown run.old.shown) }
        ensures ends { self.new.ends ≡ self.old.ends }
        ensures left { self.new.left ≡ self.old.left }
    {
        let store = store_of(alloc, &mut run.unit)?;
        self.store = store;
        self.shown = replace(&mut run.shown, List::new(alloc));
        Ok(())
    }

    /// What the job answers.
    pub(crate) fn answer(self) -> JobEnd
        ensures ends { result.ends ≡ self.ends }
        ensures store { result.store ≡ self.store }
        ensures shown { result.shown ≡ self.shown }
    {
        let Progress {
            ends,
            store,
            shown,
            left: _,
        } = self;
        JobEnd { ends, store, shown }
    }
}

/// The files of a program that has ended.
fn store_of(alloc: Global, unit: &mut RunUnit<'_>) -> Result<Store, Memory>
    ensures { IfOk result (λ store. disks store ≡ disks unit.old.store) }
{
    let empty = Store::new(alloc, &[])?;
    Ok(replace(&mut unit.store, empty))
}
