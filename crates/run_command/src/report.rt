ghost use Rattle.std.specs.Prelude.{◌≡◌, ◌≢◌, ◌≤◌, length, IfOk};
ghost use Rattle.std.specs.List.{AllByRecursion};
ghost use Rattle.data_layout.specs.Index.{IsReady};
ghost use Rattle.gathered.specs.Sound.{IsSound};
ghost use Rattle.seq_files.specs.Disks.{disks};
ghost use Rattle.shelf.specs.Causes.{Rose};
ghost use Rattle.answers.specs.Said.{IsSaid};
ghost use Rattle.run_lines.specs.Lines.{job_status as end_status};
ghost use Rattle.trial_run.specs.Jobs.{HasNumbers, IsNumberIn};
ghost use Rattle.run_command.specs.Answer as spec;

use crate::answer::{refuse_run, refuse_write};
use crate::prepare::prepare;
use crate::prepared::Prepared;
use answers::{NO_MEMORY, say};
use data_layout::FileUse;
use gathered::Gathered;
use job_files::write_files;
use manifest_load::{Opened, open_manifest};
use portfolio::{Manifest, Named};
use refusal_lines::refuse_manifest;
use run_lines::{job_lines, job_status};
use shelf::{Shelf, Sink};
use std::alloc::Global;
use trial_run::{Day, Job, JobEnd, run_job};
use y2k_base::{Bytes, Memory};

/// Runs a job of the portfolio of that manifest on a day for at most `bound` steps, leaves the files that then stand in the
/// folder `out`, and `done`, and prints what the job showed and how its programs ended; or else the line of the first
/// refusal. The status is 0 or 9, or 3, 5, 6, 7 or 8.
pub fn report_run<S: Shelf, K: Sink>(
    alloc: Global,
    main: &str,
    job: &str,
    day: Day,
    bound: u64,
    out: &str,
    shelf: &mut S,
    sink: &mut K,
) -> u8
    ensures answer { spec.IsAnswered (spec.IsAnswer (S.told shelf.old) main.now job.now day bound out.now) (K.taken sink.old) (K.taken sink.new) (S.told shelf.new) result }
    ensures form { result ≢ 2 }
    ensures shelf_fault { result ≡ 6 → Rose (S.faults shelf.old) (S.faults shelf.new) }
    ensures sink_fault { result ≡ 7 → Rose (K.faults sink.old) (K.faults sink.new) }
{
    match open_manifest(alloc, main, shelf) {
        Ok(opened) => run_opened(alloc, main, job, day, bound, out, &opened, shelf, sink),
        Err(refusal) => refuse_manifest(alloc, main, &refusal, sink),
    }
}

fn run_opened<S: Shelf, K: Sink>(
    alloc: Global,
    main: &str,
    job: &str,
    day: Day,
    bound: u64,
    out: &str,
    opened: &Opened,
    shelf: &mut S,
    sink: &mut K,
) -> u8
    ensures answer { spec.IsAnswered (spec.IsAnswerFor (S.told shelf.old) main.now job.now day bound out.now opened.now) (K.taken sink.old) (K.taken sink.new) (S.told shelf.new) result }
    ensures form { result ≢ 2 }
    ensures shelf_fault { result ≡ 6 → Rose (S.faults shelf.old) (S.faults shelf.new) }
    ensures sink_fault { result ≡ 7 → Rose (K.faults sink.old) (K.faults sink.new) }
{
    match prepare(alloc, main, job, out, opened, shelf) {
        Ok(prepared) => run_prepared(alloc, day, bound, out, opened, prepared, shelf, sink),
        Err(refusal) => refuse_run(alloc, &opened.manifest, job, out, &refusal, sink),
    }
}

/// Runs a job with its data files.
fn run_prepared<S: Shelf, K: Sink>(
    alloc: Global,
    day: Day,
    bound: u64,
    out: &str,
    opened: &Opened,
    prepared: Prepared,
    shelf: &mut S,
    sink: &mut K,
) -> u8
    requires programs { AllByRecursion (IsNumberIn prepared.gathered.portfolio) prepared.job.programs }
    requires ready { AllByRecursion IsReady prepared.gathered.portfolio.layouts }
    requires numbered { AllByRecursion HasNumbers prepared.gathered.portfolio.layouts }
    requires files { length (disks prepared.store) ≡ length prepared.gathered.portfolio.files }
    ensures answer { spec.IsAnswered (spec.IsAnswerOf (S.told shelf.old) opened.now out.now day bound prepared) (K.taken sink.old) (K.taken sink.new) (S.told shelf.new) result }
    ensures form { result ≢ 2 }
    ensures shelf_fault { result ≡ 6 → Rose (S.faults shelf.old) (S.faults shelf.new) }
    ensures sink_fault { result ≡ 7 → Rose (K.faults sink.old) (K.faults sink.new) }
{
    let (gathered, job, store) = prepared.into_parts();
    match run_job(alloc, &gathered.portfolio, &job, store, day, bound) {
        Ok(end) => finish(alloc, out, opened, &gathered, &job, &end, shelf, sink),
        Err(_) => NO_MEMORY,
    }
}

/// Writes the files of a job that ran, and then prints its lines.
fn finish<S: Shelf, K: Sink>(
    alloc: Global,
    out: &str,
    opened: &Opened,
    gathered: &Gathered,
    job: &Job,
    end: &JobEnd,
    shelf: &mut S,
    sink: &mut K,
) -> u8
    requires { length (disks end.now.store) ≡ length gathered.now.portfolio.files }
    ensures answer { spec.IsAnswered (spec.IsOrMemory (S.told shelf.old) (spec.IsOutcomeFor (S.told shelf.old) opened.now out.now gathered.now job.now end.now)) (K.taken sink.old) (K.taken sink.new) (S.told shelf.new) result }
    ensures form { result ≢ 2 }
    ensures shelf_fault { result ≡ 6 → Rose (S.faults shelf.old) (S.faults shelf.new) }
    ensures sink_fault { result ≡ 7 → Rose (K.faults sink.old) (K.faults sink.new) }
{
    match lines_of(alloc, &opened.manifest, gathered, job, end) {
        Ok(lines) => {
            let listed = opened.manifest.files.items();
            let files = gathered.portfolio.files.items();
            write_and_say(alloc, out, listed, files, end, lines.items(), shelf, sink)
        }
        Err(_) => NO_MEMORY,
    }
}

fn lines_of(
    alloc: Global,
    manifest: &Manifest,
    gathered: &Gathered,
    job: &Job,
    end: &JobEnd,
) -> Result<Bytes, Memory>
    ensures { IfOk result (λ lines. lines ≡ spec.lines_of manifest.now gathered.now job.now end.now) }
{
    let programs = gathered.portfolio.programs.items();
    let numbers = job.programs.items();
    let lines = job_lines(
        alloc,
        manifest,
        programs,
        numbers,
        end.shown.items(),
        end.ends.items(),
    )?;
    Ok(lines)
}

fn write_and_say<S: Shelf, K: Sink>(
    alloc: Global,
    out: &str,
    listed: &[Named],
    files: &[FileUse],
    end: &JobEnd,
    lines: &[u8],
    shelf: &mut S,
    sink: &mut K,
) -> u8
    requires { length (disks end.now.store) ≡ length files.now }
    ensures answer { spec.IsAnswered (spec.IsOutcome (S.told shelf.old) listed.now out.now files.now lines.now end.now) (K.taken sink.old) (K.taken sink.new) (S.told shelf.new) result }
    ensures form { result ≢ 2 }
    ensures shelf_fault { result ≡ 6 → Rose (S.faults shelf.old) (S.faults shelf.new) }
    ensures sink_fault { result ≡ 7 → Rose (K.faults sink.old) (K.faults sink.new) }
{
    match write_files(alloc, out, listed, files, &end.store, shelf) {
        Ok(()) => say_lines(end, lines, sink),
        Err(fault) => refuse_write(alloc, &fault, sink),
    }
}

/// Prints the lines of a job that ran, and answers the status.
fn say_lines<K: Sink>(end: &JobEnd, lines: &[u8], sink: &mut K) -> u8
    ensures said { IsSaid (end_status end.now.ends) lines.now (K.taken sink.old) (K.taken sink.new) result }
    ensures form { result ≢ 2 }
    ensures inside { result ≢ 6 }
    ensures sink_fault { result ≡ 7 → Rose (K.faults sink.old) (K.faults sink.new) }
{
    let status = status_of(end);
    say(lines, status, sink)
}

fn status_of(end: &JobEnd) -> u8
    ensures status { result ≡ end_status end.now.ends }
    ensures printed { result ≢ 7 }
    ensures form { result ≢ 2 }
    ensures inside { result ≢ 6 }
{
    job_status(end.ends.items())
}
