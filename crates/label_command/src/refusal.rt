ghost use Rattle.std.specs.Prelude.{◌≡◌, IfOk};
ghost use Rattle.shelf.specs.Causes.{Rose};
ghost use Rattle.answers.specs.Said.{IsSaid};
ghost use Rattle.label_command.specs.Answer.{kind_name, line_of, status_of};

use answers::{NO_MEMORY, REFUSED, SHELF_FAULT, refused_name, refused_place, say, shelf_fault};
use program_reader::RefusedKind;
use shelf::Sink;
use std::alloc::Global;
use y2k_base::{Bytes, List, Memory, Origin};

/// Why there are no label lines.
pub(crate) enum Refusal {
    /// The shelf has no such text.
    Missing,
    /// The text is too long.
    TooLarge,
    /// The text has no reading.
    At { kind: RefusedKind, at: Origin },
    /// An external name is selected twice.
    FileUnknown(Bytes),
    /// The records of a file have unlike lengths.
    RecordLengths(Bytes),
    /// The item is none whose first two digits may be a year.
    SeedUnknown,
    /// The shelf failed.
    Shelf,
    /// There was no memory left.
    Memory,
}

impl Drop for Refusal {
    fn drop(self) {
        match self {
            Refusal::Missing => {}
            Refusal::TooLarge => {}
            Refusal::At { kind: _, at: _ } => {}
            Refusal::FileUnknown(_name) => {}
            Refusal::RecordLengths(_name) => {}
            Refusal::SeedUnknown => {}
            Refusal::Shelf => {}
            Refusal::Memory => {}
        }
    }
}

/// Prints the line of a refusal, and answers its status.
pub(crate) fn refuse<K: Sink>(
    alloc: Global,
    source: &str,
    item: &str,
    refusal: &Refusal,
    out: &mut K,
) -> u8
    ensures said { IsSaid (status_of refusal.now) (line_of source.now item.now refusal.now) (K.taken out.old) (K.taken out.new) result }
    ensures sink_fault { result ≡ 7 → Rose (K.faults out.old) (K.faults out.new) }
{
    let status = status_for(refusal);
    match line_for(alloc, source.as_bytes(), item.as_bytes(), refusal) {
        Ok(line) => say(line.items(), status, out),
        Err(_) => NO_MEMORY,
    }
}

/// The word that a kind prints as.
fn name_of(kind: RefusedKind) -> &'static str
    ensures { result.now ≡ kind_name kind }
{
    match kind {
        RefusedKind::BadByte => "BadByte",
        RefusedKind::LineLong => "LineLong",
        RefusedKind::OpenLiteral => "OpenLiteral",
        RefusedKind::BadContinuation => "BadContinuation",
        RefusedKind::WordLong => "WordLong",
        RefusedKind::CopyShape => "CopyShape",
        RefusedKind::CopyMissing => "CopyMissing",
        RefusedKind::NestedCopy => "NestedCopy",
        RefusedKind::UnitShape => "UnitShape",
        RefusedKind::NestDeep => "NestDeep",
        RefusedKind::PictureFull => "PictureFull",
        RefusedKind::PictureShape => "PictureShape",
        RefusedKind::TooManyDigits => "TooManyDigits",
        RefusedKind::LayoutShape => "LayoutShape",
        RefusedKind::AreaFull => "AreaFull",
        RefusedKind::NameTwice => "NameTwice",
        RefusedKind::NameUnknown => "NameUnknown",
        RefusedKind::UseShape => "UseShape",
    }
}

fn status_for(refusal: &Refusal) -> u8
    ensures { result ≡ status_of refusal.now }
{
    match refusal {
        Refusal::Missing => REFUSED,
        Refusal::TooLarge => REFUSED,
        Refusal::At { kind: _, at: _ } => REFUSED,
        Refusal::FileUnknown(_) => REFUSED,
        Refusal::RecordLengths(_) => REFUSED,
        Refusal::SeedUnknown => REFUSED,
        Refusal::Shelf => SHELF_FAULT,
        Refusal::Memory => NO_MEMORY,
    }
}

fn line_for(alloc: Global, source: &[u8], item: &[u8], refusal: &Refusal) -> Result<Bytes, Memory>
    ensures { IfOk result (λ line. line ≡ line_of source.now item.now refusal.now) }
{
    match refusal {
        Refusal::Missing => refused_name(alloc, "Missing", source),
        Refusal::TooLarge => refused_name(alloc, "TooLarge", source),
        Refusal::At { kind, at } => {
            refused_place(alloc, name_of(*kind), source, at.line, at.column)
        }
        Refusal::FileUnknown(name) => refused_name(alloc, "FileUnknown", name.items()),
        Refusal::RecordLengths(name) => refused_name(alloc, "RecordLengths", name.items()),
        Refusal::SeedUnknown => refused_name(alloc, "SeedUnknown", item),
        Refusal::Shelf => shelf_fault(alloc, source),
        Refusal::Memory => Ok(List::new(alloc)),
    }
}
