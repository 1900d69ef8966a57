ghost use Rattle.std.specs.Prelude.{◌≡◌, ◌≢◌, ◌≤◌, ◌++◌, IfOk, OnOk, codes, decimal};
ghost use Rattle.shelf.specs.Causes.{Rose};
ghost use Rattle.answers.specs.Said.{IsSaid};
ghost use Rattle.refusal_lines.specs.Lines as lines;
ghost use Rattle.run_command.specs.Answer as answer;
ghost use Rattle.run_command.specs.Refused as spec;

use crate::refusal::RunRefusal;
use answers::{NO_MEMORY, REFUSED, SHELF_FAULT, refused_name, say, shelf_fault};
use gathered::GatherFault;
use job_files::{DataRefusal, WriteFault};
use portfolio::Manifest;
use refusal_lines::portfolio_line;
use shelf::Sink;
use std::alloc::Global;
use written_names::name_under;
use y2k_base::{Bytes, List, Memory};

/// A data file isn't whole records.
const DATA_FAULT: u8 = 5;

/// Prints why a run doesn't begin, and answers the status.
pub(crate) fn refuse_run<K: Sink>(
    alloc: Global,
    manifest: &Manifest,
    job: &str,
    out: &str,
    refusal: &RunRefusal,
    sink: &mut K,
) -> u8
    ensures said { IsSaid (spec.run_status refusal.now) (spec.run_line manifest.now job.now out.now refusal.now) (K.taken sink.old) (K.taken sink.new) result }
    ensures sink_fault { result ≡ 7 → Rose (K.faults sink.old) (K.faults sink.new) }
{
    let status = run_status(refusal);
    match run_line(alloc, manifest, job, out, refusal) {
        Ok(line) => say(line.items(), status, sink),
        Err(_) => NO_MEMORY,
    }
}

/// Prints why the files of a run aren't all written, and answers the status.
pub(crate) fn refuse_write<K: Sink>(alloc: Global, fault: &WriteFault, sink: &mut K) -> u8
    ensures said { IsSaid (answer.fault_status fault.now) (answer.fault_line fault.now) (K.taken sink.old) (K.taken sink.new) result }
    ensures sink_fault { result ≡ 7 → Rose (K.faults sink.old) (K.faults sink.new) }
{
    let status = fault_status(fault);
    match fault_line(alloc, fault) {
        Ok(line) => say(line.items(), status, sink),
        Err(_) => NO_MEMORY,
    }
}

fn fault_status(fault: &WriteFault) -> u8
    ensures status { result ≡ answer.fault_status fault.now }
    ensures printed { result ≢ 7 }
{
    match fault {
        WriteFault::Shelf(_) => SHELF_FAULT,
        WriteFault::Memory => NO_MEMORY,
    }
}

fn fault_line(alloc: Global, fault: &WriteFault) -> Result<Bytes, Memory>
    ensures { IfOk result (λ line. line ≡ answer.fault_line fault.now) }
{
    match fault {
        WriteFault::Shelf(name) => shelf_fault(alloc, name.items()),
        WriteFault::Memory => Ok(List::new(alloc)),
    }
}

fn run_status(refusal: &RunRefusal) -> u8
    ensures status { result ≡ spec.run_status refusal.now }
    ensures printed { result ≢ 7 }
{
    match refusal {
        RunRefusal::Clash(_) => REFUSED,
        RunRefusal::Taken => REFUSED,
        RunRefusal::Portfolio(fault) => portfolio_status(fault),
        RunRefusal::Job => REFUSED,
        RunRefusal::Data(fault) => data_status(fault),
        RunRefusal::Shelf => SHELF_FAULT,
        RunRefusal::Memory => NO_MEMORY,
    }
}

fn portfolio_status(fault: &GatherFault) -> u8
    ensures status { result ≡ lines.portfolio_status fault.now }
    ensures printed { result ≢ 7 }
{
    match fault {
        GatherFault::Refused(_) => REFUSED,
        GatherFault::Missing(_) => REFUSED,
        GatherFault::TooLarge(_) => REFUSED,
        GatherFault::FileUnknown(_) => REFUSED,
        GatherFault::RecordLengths(_) => REFUSED,
        GatherFault::Shelf(_) => SHELF_FAULT,
        GatherFault::Memory => NO_MEMORY,
    }
}

fn data_status(fault: &DataRefusal) -> u8
    ensures status { result ≡ spec.data_status fault.now }
    ensures printed { result ≢ 7 }
{
    match fault {
        DataRefusal::TooLarge(_) => REFUSED,
        DataRefusal::PartialRecord {
            external: _,
            left: _,
        } => DATA_FAULT,
        DataRefusal::Shelf(_) => SHELF_FAULT,
        DataRefusal::Memory => NO_MEMORY,
    }
}

fn run_line(
    alloc: Global,
    manifest: &Manifest,
    job: &str,
    out: &str,
    refusal: &RunRefusal,
) -> Result<Bytes, Memory>
    ensures { IfOk result (λ line. line ≡ spec.run_line manifest.now job.now out.now refusal.now) }
{
    match refusal {
        RunRefusal::Clash(name) => refused_name(alloc, "OutClash", name.items()),
        RunRefusal::Taken => taken_line(alloc, out),
        RunRefusal::Portfolio(fault) => portfolio_line(alloc, manifest, fault),
        RunRefusal::Job => refused_name(alloc, "UnknownJob", job.as_bytes()),
        RunRefusal::Data(fault) => data_line(alloc, fault),
        RunRefusal::Shelf => done_fault(alloc, out),
        RunRefusal::Memory => Ok(List::new(alloc)),
    }
}

fn taken_line(alloc: Global, out: &str) -> Result<Bytes, Memory>
    ensures { IfOk result (λ line. line ≡ spec.taken_line out.now) }
{
    let name = name_under(alloc, out, b"done")?;
    let line = refused_name(alloc, "OutTaken", name.as_bytes())?;
    Ok(line)
}

fn done_fault(alloc: Global, out: &str) -> Result<Bytes, Memory>
    ensures { IfOk result (λ line. line ≡ spec.done_fault out.now) }
{
    let name = name_under(alloc, out, b"done")?;
    let line = shelf_fault(alloc, name.as_bytes())?;
    Ok(line)
}

fn data_line(alloc: Global, fault: &DataRefusal) -> Result<Bytes, Memory>
    ensures { IfOk result (λ line. line ≡ spec.data_line fault.now) }
{
    match fault {
        DataRefusal::TooLarge(name) => refused_name(alloc, "TooLarge", name.items()),
        DataRefusal::PartialRecord { external, left } => {
            partial_line(alloc, external.items(), *left)
        }
        DataRefusal::Shelf(name) => shelf_fault(alloc, name.items()),
        DataRefusal::Memory => Ok(List::new(alloc)),
    }
}

fn partial_line(alloc: Global, external: &[u8], left: u32) -> Result<Bytes, Memory>
    ensures { IfOk result (λ line. line ≡ spec.partial_line external.now left) }
{
    let mut line = List::new(alloc);
    line.append("data PartialRecord ".as_bytes())?;
    line.append(external)?;
    add_left(alloc, &mut line, left)?;
    Ok(line)
}

fn add_left(alloc: Global, line: &mut Bytes, left: u32) -> Result<(), Memory>
    ensures { OnOk result (line.new ≡ line.old ++ (codes " left " ++ (decimal left ++ codes "\n"))) }
{
    let text = format!(in alloc; " left {left}\n")?;
    line.append(text.as_bytes())
}
