ghost use Rattle.std.specs.Prelude.{◌≡◌, ◌≢◌, IfOk};
ghost use Rattle.shelf.specs.Causes.{Rose};
ghost use Rattle.label_report.specs.Answer as spec;

use answers::{CONFLICT, DONE, NO_MEMORY, say};
use labelled_portfolio::{Labelled, label_portfolio};
use manifest_load::{Opened, open_manifest};
use refusal_lines::{refuse, refuse_manifest, seeds_name};
use reports::{conflict_rows, label_rows};
use shelf::{Shelf, Sink};
use std::alloc::Global;
use std::str;
use y2k_base::{Bytes, Memory};

/// Prints the labels of the portfolio of that manifest, or, where a byte has unlike labels, its conflicts; else the line
/// of the first refusal. The status is 0, 1, 3, 6, 7 or 8.
pub fn report_labels<S: Shelf, K: Sink>(alloc: Global, main: &str, shelf: &mut S, out: &mut K) -> u8
    ensures answer { spec.IsAnswered (spec.IsAnswer main.now (S.told shelf.old)) (K.taken out.old) (K.taken out.new) result }
    ensures form { result ≢ 2 }
    ensures shelf_fault { result ≡ 6 → Rose (S.faults shelf.old) (S.faults shelf.new) }
    ensures sink_fault { result ≡ 7 → Rose (K.faults out.old) (K.faults out.new) }
    ensures same { S.told shelf.new ≡ S.told shelf.old }
{
    match open_manifest(alloc, main, shelf) {
        Ok(opened) => report_opened(alloc, &opened, shelf, out),
        Err(refusal) => refuse_manifest(alloc, main, &refusal, out),
    }
}

fn report_opened<S: Shelf, K: Sink>(
    alloc: Global,
    opened: &Opened,
    shelf: &mut S,
    out: &mut K,
) -> u8
    ensures answer { spec.IsAnswered (spec.IsAnswerFor (S.told shelf.old) opened.now) (K.taken out.old) (K.taken out.new) result }
    ensures form { result ≢ 2 }
    ensures shelf_fault { result ≡ 6 → Rose (S.faults shelf.old) (S.faults shelf.new) }
    ensures sink_fault { result ≡ 7 → Rose (K.faults out.old) (K.faults out.new) }
    ensures same { S.told shelf.new ≡ S.told shelf.old }
{
    match label_portfolio(alloc, opened, shelf) {
        Ok(labelled) => report(alloc, opened, &labelled, out),
        Err(refusal) => refuse(alloc, opened, &refusal, out),
    }
}

/// Prints the labels of a labelled portfolio, or its conflicts.
fn report<K: Sink>(alloc: Global, opened: &Opened, labelled: &Labelled, out: &mut K) -> u8
    ensures answer { spec.IsAnswered (spec.IsReport opened.now labelled.now) (K.taken out.old) (K.taken out.new) result }
    ensures form { result ≢ 2 }
    ensures inside { result ≢ 6 }
    ensures sink_fault { result ≡ 7 → Rose (K.faults out.old) (K.faults out.new) }
{
    if labelled.labels.labelling.clean() {
        match labels_text(alloc, labelled) {
            Ok(rows) => say(rows.items(), DONE, out),
            Err(_) => NO_MEMORY,
        }
    } else {
        match conflicts_text(alloc, opened, labelled) {
            Ok(rows) => say(rows.items(), CONFLICT, out),
            Err(_) => NO_MEMORY,
        }
    }
}

fn labels_text(alloc: Global, labelled: &Labelled) -> Result<Bytes, Memory>
    ensures { IfOk result (λ text. text ≡ spec.labels_text labelled.now) }
{
    let portfolio = &labelled.seeded.gathered.portfolio;
    let text = label_rows(alloc, portfolio, &labelled.labels.labelling)?;
    Ok(text)
}

/// The rows of the conflicts of a labelled portfolio.
pub fn conflicts_text(alloc: Global, opened: &Opened, labelled: &Labelled) -> Result<Bytes, Memory>
    ensures { IfOk result (λ text. text ≡ spec.conflicts_text opened.now labelled.now) }
{
    let seeds = text_of(seeds_name(&opened.manifest))?;
    let gathered = &labelled.seeded.gathered;
    let labels = &labelled.labels;
    let text = conflict_rows(
        alloc,
        &gathered.texts,
        &gathered.portfolio,
        labels.rules.items(),
        labels.conflicts.items(),
        seeds,
    )?;
    Ok(text)
}

/// The bytes as text. The names of a manifest are text.
fn text_of(bytes: &[u8]) -> Result<&str, Memory>
    ensures { IfOk result (λ text. text.now ≡ bytes.now) }
{
    match str::from_utf8(bytes) {
        Ok(text) => Ok(text),
        Err(_) => Err(Memory),
    }
}
