ghost use Rattle.std.specs.Prelude.{◌≡◌, ◌≢◌, ◌≤◌, IfErr};
ghost use Rattle.data_conversion.specs.Faults.{HasRose, IsOfWriting};
ghost use Rattle.shelf.specs.Causes.{Rose};
ghost use Rattle.convert_command.specs.Status.{IsRefusal};
ghost use Rattle.job_files.specs.Written as writes;
ghost use Rattle.job_files.specs.declared.refusal.WriteFault.TheVariants as faults;

use crate::data_line::{data_line, data_status};
use crate::page::Page;
use crate::said::say_line;
use answers::{DONE, NO_MEMORY, SHELF_FAULT, say, shelf_fault};
use convert_plan::Plan;
use data_conversion::{DataFault, convert_data};
use job_files::{WriteFault, write_file};
use labelled_portfolio::Labelled;
use manifest_load::Opened;
use shelf::{Shelf, Sink};
use std::alloc::Global;
use y2k_base::{Bytes, List, Memory};

/// Writes the images of the data files, and then the other files, and prints how much it is.
pub(crate) fn write_converted<S: Shelf, K: Sink>(
    alloc: Global,
    out: &str,
    opened: &Opened,
    labelled: &Labelled,
    plan: &Plan<'_>,
    pages: &[Page],
    shelf: &mut S,
    sink: &mut K,
) -> u8
    ensures form { result ≢ 2 }
    ensures shelf_fault { result ≡ 6 → Rose (S.faults shelf.old) (S.faults shelf.new) }
    ensures sink_fault { result ≡ 7 → Rose (K.faults sink.old) (K.faults sink.new) }
    ensures no_refusal { IsRefusal result → ⊥ }
{
    match write_data(alloc, out, opened, labelled, plan, shelf) {
        Ok(count) => write_rest(alloc, out, opened, count, pages, shelf, sink),
        Err(fault) => {
            let status = data_status(&fault);
            say_line(data_line(alloc, &fault), status, sink)
        }
    }
}

fn write_data<S: Shelf>(
    alloc: Global,
    out: &str,
    opened: &Opened,
    labelled: &Labelled,
    plan: &Plan<'_>,
    shelf: &mut S,
) -> Result<usize, DataFault>
    ensures writing { IfErr result IsOfWriting }
    ensures rose { IfErr result (HasRose (S.faults shelf.old) (S.faults shelf.new)) }
    ensures later { S.faults shelf.old ≤ S.faults shelf.new }
{
    let listed = opened.manifest.files.items();
    let files = labelled.seeded.gathered.portfolio.files.items();
    let folder = opened.folder.as_str();
    match convert_data(alloc, folder, out, listed, files, plan, shelf) {
        Ok(count) => Ok(count),
        Err(fault) => Err(fault),
    }
}

/// Writes what comes after so many data files, and prints how much all is.
fn write_rest<S: Shelf, K: Sink>(
    alloc: Global,
    out: &str,
    opened: &Opened,
    count: usize,
    pages: &[Page],
    shelf: &mut S,
    sink: &mut K,
) -> u8
    ensures form { result ≢ 2 }
    ensures shelf_fault { result ≡ 6 → Rose (S.faults shelf.old) (S.faults shelf.new) }
    ensures sink_fault { result ≡ 7 → Rose (K.faults sink.old) (K.faults sink.new) }
    ensures no_refusal { IsRefusal result → ⊥ }
{
    match converted_line(alloc, opened, count) {
        Ok(line) => match write_pages(alloc, out, pages, shelf) {
            Ok(()) => say(line.items(), DONE, sink),
            Err(fault) => say_fault(alloc, &fault, sink),
        },
        Err(_) => NO_MEMORY,
    }
}

fn converted_line(alloc: Global, opened: &Opened, count: usize) -> Result<Bytes, Memory> {
    let programs = opened.manifest.programs.len();
    let books = opened.manifest.copybooks.len();
    let text = format!(in alloc;
        "converted {programs} programs, {books} copybooks, {count} data files\n"
    )?;
    let mut line = List::new(alloc);
    line.append(text.as_bytes())?;
    Ok(line)
}

fn write_pages<S: Shelf>(
    alloc: Global,
    out: &str,
    pages: &[Page],
    shelf: &mut S,
) -> Result<(), WriteFault>
    ensures rose { IfErr result (λ fault. writes.RoseWith fault (S.faults shelf.old) (S.faults shelf.new)) }
    ensures later { S.faults shelf.old ≤ S.faults shelf.new }
{
    let mut rest = pages;
    while let [page, more @ ..] = rest {
        match write_file(alloc, out, page.name.items(), page.bytes.items(), shelf) {
            Ok(()) => rest = more,
            Err(fault) => return Err(fault),
        }
    }
    Ok(())
}

/// Prints why not all is written.
fn say_fault<K: Sink>(alloc: Global, fault: &WriteFault, sink: &mut K) -> u8
    ensures form { result ≢ 2 }
    ensures no_refusal { IsRefusal result → ⊥ }
    ensures shelf_fault { result ≡ 6 → fault.now ≢ faults.Memory }
    ensures sink_fault { result ≡ 7 → Rose (K.faults sink.old) (K.faults sink.new) }
{
    match fault {
        WriteFault::Shelf(name) => say_line(shelf_fault(alloc, name.items()), SHELF_FAULT, sink),
        WriteFault::Memory => NO_MEMORY,
    }
}
