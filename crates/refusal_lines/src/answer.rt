ghost use Rattle.std.specs.Prelude.{◌≡◌, ◌≤◌};
ghost use Rattle.shelf.specs.Causes.{Rose};
ghost use Rattle.answers.specs.Said.{IsSaid};
ghost use Rattle.refusal_lines.specs.Lines as spec;

use crate::line::{line_of, manifest_line};
use crate::status::{manifest_status, status_of};
use answers::{NO_MEMORY, say};
use labelled_portfolio::Refusal;
use manifest_load::{ManifestRefusal, Opened};
use shelf::Sink;
use std::alloc::Global;

/// Prints why there is no manifest of that name, and answers the status.
pub fn refuse_manifest<K: Sink>(
    alloc: Global,
    main: &str,
    refusal: &ManifestRefusal,
    out: &mut K,
) -> u8
    ensures said { IsSaid (spec.manifest_status refusal.now) (spec.manifest_line main.now refusal.now) (K.taken out.old) (K.taken out.new) result }
    ensures sink_fault { result ≡ 7 → Rose (K.faults out.old) (K.faults out.new) }
    ensures later { K.faults out.old ≤ K.faults out.new }
{
    let status = manifest_status(refusal);
    match manifest_line(alloc, main.as_bytes(), refusal) {
        Ok(line) => say(line.items(), status, out),
        Err(_) => NO_MEMORY,
    }
}

/// Prints why the portfolio of a manifest is not labelled, and answers the status.
pub fn refuse<K: Sink>(alloc: Global, opened: &Opened, refusal: &Refusal, out: &mut K) -> u8
    ensures said { IsSaid (spec.status_of refusal.now) (spec.line_of opened.now refusal.now) (K.taken out.old) (K.taken out.new) result }
    ensures sink_fault { result ≡ 7 → Rose (K.faults out.old) (K.faults out.new) }
    ensures later { K.faults out.old ≤ K.faults out.new }
{
    let status = status_of(refusal);
    match line_of(alloc, opened, refusal) {
        Ok(line) => say(line.items(), status, out),
        Err(_) => NO_MEMORY,
    }
}
