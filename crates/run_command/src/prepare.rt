ghost use Rattle.std.specs.Prelude.{◌≡◌, ◌≤◌, ◌<◌, All, MatchOption, IfOk, IfErr, OnOk, IsTrue, string_bytes};
ghost use Rattle.std.specs.List.{AllByRecursion};
ghost use Rattle.data_layout.specs.Index.{IsReady};
ghost use Rattle.gathered.specs.Sound.{IsSound};
ghost use Rattle.name_tables.specs.Names.{IsLeast, NonePasses};
ghost use Rattle.job_files.specs.Loaded.{HasDataRefusal, RoseWith};
ghost use Rattle.seq_files.specs.Disks.{disks};
ghost use Rattle.run_command.specs.Refused as spec;

use crate::job::job_of;
use crate::prepared::Prepared;
use crate::refusal::RunRefusal;
use data_layout::FileUse;
use gathered::{Gathered, gather};
use job_files::{DataRefusal, load_files};
use manifest_load::Opened;
use seq_files::Store;
use shelf::{Shelf, ShelfErr};
use std::alloc::Global;
use trial_run::Job;
use written_names::{names_of_run, out_clash, out_taken};
use y2k_base::{Bytes, Memory};

/// What a run of a job begins with, or the first refusal: the names that it may write, the texts of the manifest, the
/// job, and its data files.
pub(crate) fn prepare<S: Shelf>(
    alloc: Global,
    main: &str,
    job: &str,
    out: &str,
    opened: &Opened,
    shelf: &mut S,
) -> Result<Prepared, RunRefusal>
    ensures prepared { IfOk result (spec.IsPrepared (S.told shelf.old) main.now job.now out.now opened.now) }
    ensures sound { IfOk result (λ p. IsSound p.gathered.portfolio) }
    ensures ready { IfOk result (λ p. AllByRecursion IsReady p.gathered.portfolio.layouts) }
    ensures refusal { IfErr result (spec.HasRunRefusal (S.told shelf.old) main.now job.now out.now opened.now) }
    ensures rose { IfErr result (λ refusal. spec.RoseBy refusal (S.faults shelf.old) (S.faults shelf.new)) }
    ensures later { S.faults shelf.old ≤ S.faults shelf.new }
    ensures same { S.told shelf.new ≡ S.told shelf.old }
{
    match check_names(alloc, main, out, opened, shelf) {
        Ok(()) => match prepare_free(alloc, job, opened, shelf) {
            Ok(prepared) => Ok(prepared),
            Err(refusal) => Err(refusal),
        },
        Err(refusal) => Err(refusal),
    }
}

/// Whether the names that the run may write are free.
fn check_names<S: Shelf>(
    alloc: Global,
    main: &str,
    out: &str,
    opened: &Opened,
    shelf: &mut S,
) -> Result<(), RunRefusal>
    ensures free { OnOk result (spec.IsFree (S.told shelf.old) main.now opened.now out.now) }
    ensures refusal { IfErr result (spec.HasNameCause (S.told shelf.old) main.now out.now opened.now) }
    ensures rose { IfErr result (λ refusal. spec.RoseBy refusal (S.faults shelf.old) (S.faults shelf.new)) }
    ensures later { S.faults shelf.old ≤ S.faults shelf.new }
    ensures same { S.told shelf.new ≡ S.told shelf.old }
{
    match clash(alloc, main, out, opened) {
        Ok(None) => match out_taken(alloc, out, shelf) {
            Ok(true) => Err(RunRefusal::Taken),
            Ok(false) => Ok(()),
            Err(ShelfErr::Failed) => Err(RunRefusal::Shelf),
            Err(ShelfErr::Memory) => Err(RunRefusal::Memory),
        },
        Ok(Some(name)) => Err(RunRefusal::Clash(name)),
        Err(_) => Err(RunRefusal::Memory),
    }
}

/// The least name that the run may write and that is taken.
fn clash(alloc: Global, main: &str, out: &str, opened: &Opened) -> Result<Option<Bytes>, Memory>
    ensures { IfOk result (λ found. MatchOption found (NonePasses (spec.clashes main.now opened.now out.now)) (IsLeast (spec.clashes main.now opened.now out.now))) }
{
    let written = names_of_run(alloc, out, opened.manifest.files.items())?;
    let found = out_clash(alloc, main, opened, written.items())?;
    Ok(found)
}

fn prepare_free<S: Shelf>(
    alloc: Global,
    job: &str,
    opened: &Opened,
    shelf: &mut S,
) -> Result<Prepared, RunRefusal>
    ensures prepared { IfOk result (spec.IsPreparedFrom (S.told shelf.old) job.now opened.now) }
    ensures sound { IfOk result (λ p. IsSound p.gathered.portfolio) }
    ensures ready { IfOk result (λ p. AllByRecursion IsReady p.gathered.portfolio.layouts) }
    ensures refusal { IfErr result (spec.HasPortfolioCause (S.told shelf.old) job.now opened.now) }
    ensures rose { IfErr result (λ refusal. spec.RoseBy refusal (S.faults shelf.old) (S.faults shelf.new)) }
    ensures later { S.faults shelf.old ≤ S.faults shelf.new }
    ensures same { S.told shelf.new ≡ S.told shelf.old }
{
    let folder = opened.folder.as_str();
    match gather(alloc, &opened.manifest, folder, opened.length, shelf) {
        Ok(gathered) => match prepare_gathered(alloc, job, opened, gathered, shelf) {
            Ok(prepared) => Ok(prepared),
            Err(refusal) => Err(refusal),
        },
        Err(fault) => Err(RunRefusal::Portfolio(fault)),
    }
}

/// The job of a portfolio with its data files.
fn prepare_gathered<S: Shelf>(
    alloc: Global,
    job: &str,
    opened: &Opened,
    gathered: Gathered,
    shelf: &mut S,
) -> Result<Prepared, RunRefusal>
    requires { IsSound gathered.portfolio }
    ensures gathered { IfOk result (λ p. p.gathered ≡ gathered) }
    ensures prepared { IfOk result (spec.IsPreparedOf (S.told shelf.old) job.now opened.now) }
    ensures refusal { IfErr result (spec.HasJobCause (S.told shelf.old) job.now opened.now gathered) }
    ensures rose { IfErr result (λ refusal. spec.RoseBy refusal (S.faults shelf.old) (S.faults shelf.new)) }
    ensures later { S.faults shelf.old ≤ S.faults shelf.new }
    ensures same { S.told shelf.new ≡ S.told shelf.old }
{
    match job_of(
        alloc,
        &opened.manifest,
        gathered.portfolio.programs.items(),
        job,
    ) {
        Ok(Some(job)) => match files_for(alloc, opened, &gathered, shelf) {
            Ok(store) => Ok(Prepared {
                gathered,
                job,
                store,
            }),
            Err(fault) => Err(RunRefusal::Data(fault)),
        },
        Ok(None) => Err(RunRefusal::Job),
        Err(_) => Err(RunRefusal::Memory),
    }
}

/// The data files of a portfolio.
fn files_for<S: Shelf>(
    alloc: Global,
    opened: &Opened,
    gathered: &Gathered,
    shelf: &mut S,
) -> Result<Store, DataRefusal>
    requires { IsSound gathered.now.portfolio }
    ensures loaded { IfOk result (λ store. spec.AreLoadedFor (S.told shelf.old) opened.now gathered.now (disks store)) }
    ensures whole { OnOk result (spec.AreWholeFor (S.told shelf.old) opened.now gathered.now) }
    ensures refusal { IfErr result (HasDataRefusal (S.told shelf.old) (string_bytes opened.now.folder) gathered.now.portfolio.files opened.now.manifest.files) }
    ensures rose { IfErr result (λ refusal. RoseWith refusal (S.faults shelf.old) (S.faults shelf.new)) }
    ensures later { S.faults shelf.old ≤ S.faults shelf.new }
    ensures same { S.told shelf.new ≡ S.told shelf.old }
{
    let folder = opened.folder.as_str();
    let listed = opened.manifest.files.items();
    let files = gathered.portfolio.files.items();
    if !have_lengths(files) {
        return Err(DataRefusal::Memory);
    }
    match load_files(alloc, folder, listed, files, shelf) {
        Ok(store) => Ok(store),
        Err(refusal) => Err(refusal),
    }
}

/// Whether the records of each file have a length. Those of a sound portfolio do.
fn have_lengths(files: &[FileUse]) -> bool
    ensures { IsTrue result → All (λ file. 0 < file.length) files.now }
{
    let mut rest = files;
    while let [file, more @ ..] = rest {
        if !has_length(file) {
            return false;
        }
        rest = more;
    }
    true
}

fn has_length(file: &FileUse) -> bool
    ensures { IsTrue result → 0 < file.now.length }
{
    file.length != 0
}
