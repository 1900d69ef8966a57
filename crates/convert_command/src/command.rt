ghost use Rattle.std.specs.Prelude.{◌≡◌, ◌≢◌, ◌≤◌, IfOk, IfErr};
ghost use Rattle.std.specs.List.{AllByRecursion};
ghost use Rattle.data_layout.specs.Index.{IsReady};
ghost use Rattle.year_labels.specs.Facts.{IsClean};
ghost use Rattle.data_conversion.specs.Faults.{HasRose};
ghost use Rattle.shelf.specs.Causes.{Rose};
ghost use Rattle.convert_plan.specs.Plans.{IsPlanOf};
ghost use Rattle.convert_command.specs.Status.{IsRefusal};

use crate::data_line::{data_line, data_status};
use crate::page::pages_of;
use crate::said::say_line;
use crate::write::write_converted;
use answers::{CONFLICT, NO_MEMORY, REFUSED, SHELF_FAULT, refused_name, shelf_fault};
use data_conversion::{DataFault, check_data};
use label_report::conflicts_text;
use labelled_portfolio::{Labelled, label_portfolio};
use manifest_load::{Opened, open_manifest};
use plan_command::report_limit;
use refusal_lines::{refuse, refuse_manifest};
use shelf::{Shelf, ShelfErr, Sink};
use std::alloc::Global;
use text_conversion::{Conversion, convert_portfolio};
use written_names::{name_under, names_of_conversion, out_clash, out_taken};
use y2k_base::{Bytes, Memory};

/// Writes the converted portfolio of that manifest into the folder `out`, with its labels and its plan, then `done`, and prints
/// how much it is; or else prints the line of the first refusal, the conflicts, the first limit, or the first fault of a data
/// file, and leaves the files as they are. The status is 0, 1, 3, 4, 5, 6, 7 or 8.
pub fn report_conversion<S: Shelf, K: Sink>(
    alloc: Global,
    main: &str,
    out: &str,
    shelf: &mut S,
    sink: &mut K,
) -> u8
    ensures form { result ≢ 2 }
    ensures shelf_fault { result ≡ 6 → Rose (S.faults shelf.old) (S.faults shelf.new) }
    ensures sink_fault { result ≡ 7 → Rose (K.faults sink.old) (K.faults sink.new) }
    ensures kept { IsRefusal result → S.told shelf.new ≡ S.told shelf.old }
{
    match open_manifest(alloc, main, shelf) {
        Ok(opened) => convert_opened(alloc, main, out, &opened, shelf, sink),
        Err(refusal) => refuse_manifest(alloc, main, &refusal, sink),
    }
}

/// Converts the portfolio of a manifest where no name that is written is taken.
fn convert_opened<S: Shelf, K: Sink>(
    alloc: Global,
    main: &str,
    out: &str,
    opened: &Opened,
    shelf: &mut S,
    sink: &mut K,
) -> u8
    ensures form { result ≢ 2 }
    ensures shelf_fault { result ≡ 6 → Rose (S.faults shelf.old) (S.faults shelf.new) }
    ensures sink_fault { result ≡ 7 → Rose (K.faults sink.old) (K.faults sink.new) }
    ensures kept { IsRefusal result → S.told shelf.new ≡ S.told shelf.old }
{
    match clash(alloc, main, out, opened) {
        Ok(None) => convert_apart(alloc, main, out, opened, shelf, sink),
        Ok(Some(name)) => {
            let line = refused_name(alloc, "OutClash", name.items());
            say_line(line, REFUSED, sink)
        }
        Err(_) => NO_MEMORY,
    }
}

/// The least name that the conversion may write and that is taken.
fn clash(alloc: Global, main: &str, out: &str, opened: &Opened) -> Result<Option<Bytes>, Memory> {
    let written = names_of_conversion(alloc, out, main, &opened.manifest)?;
    let found = out_clash(alloc, main, opened, written.items())?;
    Ok(found)
}

/// The same where no earlier conversion has ended in the folder.
fn convert_apart<S: Shelf, K: Sink>(
    alloc: Global,
    main: &str,
    out: &str,
    opened: &Opened,
    shelf: &mut S,
    sink: &mut K,
) -> u8
    ensures form { result ≢ 2 }
    ensures shelf_fault { result ≡ 6 → Rose (S.faults shelf.old) (S.faults shelf.new) }
    ensures sink_fault { result ≡ 7 → Rose (K.faults sink.old) (K.faults sink.new) }
    ensures kept { IsRefusal result → S.told shelf.new ≡ S.told shelf.old }
{
    match out_taken(alloc, out, shelf) {
        Ok(false) => convert_free(alloc, main, out, opened, shelf, sink),
        Ok(true) => say_line(taken_line(alloc, out), REFUSED, sink),
        Err(ShelfErr::Failed) => say_line(done_fault(alloc, out), SHELF_FAULT, sink),
        Err(ShelfErr::Memory) => NO_MEMORY,
    }
}

fn taken_line(alloc: Global, out: &str) -> Result<Bytes, Memory> {
    let name = name_under(alloc, out, b"done")?;
    let line = refused_name(alloc, "OutTaken", name.as_bytes())?;
    Ok(line)
}

fn done_fault(alloc: Global, out: &str) -> Result<Bytes, Memory> {
    let name = name_under(alloc, out, b"done")?;
    let line = shelf_fault(alloc, name.as_bytes())?;
    Ok(line)
}

/// The same where the names are free.
fn convert_free<S: Shelf, K: Sink>(
    alloc: Global,
    main: &str,
    out: &str,
    opened: &Opened,
    shelf: &mut S,
    sink: &mut K,
) -> u8
    ensures form { result ≢ 2 }
    ensures shelf_fault { result ≡ 6 → Rose (S.faults shelf.old) (S.faults shelf.new) }
    ensures sink_fault { result ≡ 7 → Rose (K.faults sink.old) (K.faults sink.new) }
    ensures kept { IsRefusal result → S.told shelf.new ≡ S.told shelf.old }
{
    match label_portfolio(alloc, opened, shelf) {
        Ok(labelled) => convert_labelled(alloc, main, out, opened, &labelled, shelf, sink),
        Err(refusal) => refuse(alloc, opened, &refusal, sink),
    }
}

/// Converts a labelled portfolio, or prints its conflicts.
fn convert_labelled<S: Shelf, K: Sink>(
    alloc: Global,
    main: &str,
    out: &str,
    opened: &Opened,
    labelled: &Labelled,
    shelf: &mut S,
    sink: &mut K,
) -> u8
    requires ready { AllByRecursion IsReady labelled.now.seeded.gathered.portfolio.layouts }
    ensures form { result ≢ 2 }
    ensures shelf_fault { result ≡ 6 → Rose (S.faults shelf.old) (S.faults shelf.new) }
    ensures sink_fault { result ≡ 7 → Rose (K.faults sink.old) (K.faults sink.new) }
    ensures kept { IsRefusal result → S.told shelf.new ≡ S.told shelf.old }
{
    if labelled.labels.labelling.clean() {
        convert_clean(alloc, main, out, opened, labelled, shelf, sink)
    } else {
        say_line(conflicts_text(alloc, opened, labelled), CONFLICT, sink)
    }
}

/// The same where no byte has unlike labels.
fn convert_clean<S: Shelf, K: Sink>(
    alloc: Global,
    main: &str,
    out: &str,
    opened: &Opened,
    labelled: &Labelled,
    shelf: &mut S,
    sink: &mut K,
) -> u8
    requires ready { AllByRecursion IsReady labelled.now.seeded.gathered.portfolio.layouts }
    requires clean { IsClean labelled.now.labels.labelling }
    ensures form { result ≢ 2 }
    ensures shelf_fault { result ≡ 6 → Rose (S.faults shelf.old) (S.faults shelf.new) }
    ensures sink_fault { result ≡ 7 → Rose (K.faults sink.old) (K.faults sink.new) }
    ensures kept { IsRefusal result → S.told shelf.new ≡ S.told shelf.old }
{
    match convert_portfolio(
        alloc,
        &labelled.seeded.gathered,
        &labelled.labels.labelling,
        &labelled.windows,
    ) {
        Ok(conversion) => {
            convert_planned(alloc, main, out, opened, labelled, &conversion, shelf, sink)
        }
        Err(fault) => report_limit(alloc, labelled, &fault, sink),
    }
}

/// The same where nothing stands against the conversion of the texts.
fn convert_planned<S: Shelf, K: Sink>(
    alloc: Global,
    main: &str,
    out: &str,
    opened: &Opened,
    labelled: &Labelled,
    conversion: &Conversion<'_>,
    shelf: &mut S,
    sink: &mut K,
) -> u8
    ensures form { result ≢ 2 }
    ensures shelf_fault { result ≡ 6 → Rose (S.faults shelf.old) (S.faults shelf.new) }
    ensures sink_fault { result ≡ 7 → Rose (K.faults sink.old) (K.faults sink.new) }
    ensures kept { IsRefusal result → S.told shelf.new ≡ S.told shelf.old }
{
    match check(alloc, opened, labelled, conversion, shelf) {
        Ok(()) => convert_checked(alloc, main, out, opened, labelled, conversion, shelf, sink),
        Err(fault) => {
            let status = data_status(&fault);
            say_line(data_line(alloc, &fault), status, sink)
        }
    }
}

fn check<S: Shelf>(
    alloc: Global,
    opened: &Opened,
    labelled: &Labelled,
    conversion: &Conversion<'_>,
    shelf: &mut S,
) -> Result<(), DataFault>
    ensures rose { IfErr result (HasRose (S.faults shelf.old) (S.faults shelf.new)) }
    ensures later { S.faults shelf.old ≤ S.faults shelf.new }
    ensures same { S.told shelf.new ≡ S.told shelf.old }
{
    let listed = opened.manifest.files.items();
    let files = labelled.seeded.gathered.portfolio.files.items();
    match check_data(
        alloc,
        opened.folder.as_str(),
        listed,
        files,
        &conversion.plan,
        shelf,
    ) {
        Ok(()) => Ok(()),
        Err(fault) => Err(fault),
    }
}

/// The same where each data file has an image: what is to be written is made, and written.
fn convert_checked<S: Shelf, K: Sink>(
    alloc: Global,
    main: &str,
    out: &str,
    opened: &Opened,
    labelled: &Labelled,
    conversion: &Conversion<'_>,
    shelf: &mut S,
    sink: &mut K,
) -> u8
    ensures form { result ≢ 2 }
    ensures shelf_fault { result ≡ 6 → Rose (S.faults shelf.old) (S.faults shelf.new) }
    ensures sink_fault { result ≡ 7 → Rose (K.faults sink.old) (K.faults sink.new) }
    ensures kept { IsRefusal result → S.told shelf.new ≡ S.told shelf.old }
{
    match pages_of(alloc, main, opened, labelled, conversion) {
        Ok(pages) => write_converted(
            alloc,
            out,
            opened,
            labelled,
            &conversion.plan,
            pages.items(),
            shelf,
            sink,
        ),
        Err(_) => NO_MEMORY,
    }
}
