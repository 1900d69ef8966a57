ghost use Rattle.std.specs.Prelude.{◌≡◌, ◌<◌, ◌+◌, length, IfOk, MatchOption, None, Some};
ghost use Rattle.std.specs.List.{AllByRecursion};
ghost use Rattle.trial_run.specs.Jobs.{IsNumberIn};
ghost use Rattle.run_command.specs.Jobs as spec;

use cobol_syntax::Program;
use portfolio::{Manifest, NamedJob};
use std::alloc::Global;
use trial_run::Job;
use y2k_base::{Bytes, List, Memory};

/// The job of that name, where the manifest has it and the portfolio its programs.
pub(crate) fn job_of(
    alloc: Global,
    manifest: &Manifest,
    programs: &[Program],
    job: &str,
) -> Result<Option<Job>, Memory>
    ensures { IfOk result (λ found. MatchOption found (spec.job_numbers manifest.now programs.now job.now ≡ None) (λ j. spec.job_numbers manifest.now programs.now job.now ≡ Some j.programs)) }
{
    match names_in(manifest.jobs.items(), job.as_bytes()) {
        Some(names) => match numbers_of(alloc, programs, names)? {
            Some(programs) => Ok(Some(Job { programs })),
            None => Ok(None),
        },
        None => Ok(None),
    }
}

/// The names of the programs of a job.
fn names_in<'a>(jobs: &'a [NamedJob], job: &[u8]) -> Option<&'a [Bytes]>
    ensures { MatchOption result (spec.names_in jobs.now job.now ≡ None) (λ names. spec.names_in jobs.now job.now ≡ Some names.now) }
{
    let mut rest = jobs;
    while let [named, more @ ..] = rest {
        if named.key.items() == job {
            return Some(named.programs.items());
        }
        rest = more;
    }
    None
}

/// The numbers of programs by their names, where each is there.
fn numbers_of(
    alloc: Global,
    programs: &[Program],
    names: &[Bytes],
) -> Result<Option<List<u32>>, Memory>
    ensures { IfOk result (λ numbers. numbers ≡ spec.numbers_of programs.now names.now) }
{
    let mut numbers = List::new(alloc);
    let mut rest = names;
    while let [name, more @ ..] = rest {
        match number_of(programs, name.items())? {
            Some(number) => numbers.push(number)?,
            None => return Ok(None),
        }
        rest = more;
    }
    Ok(Some(numbers))
}

/// The number of the program of that name. A program past the numbers of 32 bits is want of memory.
fn number_of(programs: &[Program], name: &[u8]) -> Result<Option<u32>, Memory>
    ensures { IfOk result (λ number. number ≡ spec.number_from 0 programs.now name.now) }
{
    let mut number = 0u32;
    let mut rest = programs;
    while let [program, more @ ..] = rest {
        if program.id.items() == name {
            return Ok(Some(number));
        }
        number = next(number)?;
        rest = more;
    }
    Ok(None)
}

fn next(number: u32) -> Result<u32, Memory>
    ensures { IfOk result (λ next. next ≡ number + 1) }
{
    match number.checked_add(1) {
        Some(next) => Ok(next),
        None => Err(Memory),
    }
}
