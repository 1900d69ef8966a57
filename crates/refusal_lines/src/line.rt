ghost use Rattle.std.specs.Prelude.{◌≡◌, ◌++◌, IfOk, OnOk, decimal, codes};
ghost use Rattle.answers.specs.Lines.{shelf_fault_line};
ghost use Rattle.refusal_lines.specs.Lines as spec;

use crate::name::{seeds_name, text_name};
use crate::word::{key_word, kind_word};
use answers::{refused_name, refused_place, shelf_fault};
use gathered::GatherFault;
use labelled_portfolio::Refusal;
use manifest_load::{ManifestRefusal, Opened};
use portfolio::Manifest;
use program_reader::Refused;
use seed_load::SeedRefusal;
use std::alloc::Global;
use window_items::WindowFault;
use y2k_base::{Bytes, List, Memory};

/// The line of a manifest under the name that the command was given.
pub fn manifest_line(alloc: Global, main: &[u8], refusal: &ManifestRefusal) -> Result<Bytes, Memory>
    ensures { IfOk result (λ line. line ≡ spec.manifest_line main.now refusal.now) }
{
    match refusal {
        ManifestRefusal::Missing => refused_name(alloc, "Missing", main),
        ManifestRefusal::TooLarge => refused_name(alloc, "TooLarge", main),
        ManifestRefusal::NotToml => refused_name(alloc, "NotToml", main),
        ManifestRefusal::At { kind, key } => refused_name(alloc, key_word(*kind), key.items()),
        ManifestRefusal::Shelf => shelf_fault(alloc, main),
        ManifestRefusal::Memory => Ok(List::new(alloc)),
    }
}

/// The line of a manifest's texts and programs.
pub fn portfolio_line(
    alloc: Global,
    manifest: &Manifest,
    fault: &GatherFault,
) -> Result<Bytes, Memory>
    ensures { IfOk result (λ line. line ≡ spec.portfolio_line manifest.now fault.now) }
{
    match fault {
        GatherFault::Refused(refused) => place_line(alloc, manifest, refused),
        GatherFault::Missing(name) => refused_name(alloc, "Missing", name.items()),
        GatherFault::TooLarge(name) => refused_name(alloc, "TooLarge", name.items()),
        GatherFault::FileUnknown(name) => refused_name(alloc, "FileUnknown", name.items()),
        GatherFault::RecordLengths(name) => refused_name(alloc, "RecordLengths", name.items()),
        GatherFault::Shelf(name) => shelf_fault(alloc, name.items()),
        GatherFault::Memory => Ok(List::new(alloc)),
    }
}

fn place_line(alloc: Global, manifest: &Manifest, refused: &Refused) -> Result<Bytes, Memory>
    ensures { IfOk result (λ line. line ≡ spec.place_line manifest.now refused.now) }
{
    let at = refused.at;
    refused_place(
        alloc,
        kind_word(refused.kind),
        text_name(manifest, at.file.0),
        at.line,
        at.column,
    )
}

/// The line of a manifest's seed file.
pub fn seeds_line(alloc: Global, opened: &Opened, fault: SeedRefusal) -> Result<Bytes, Memory>
    ensures { IfOk result (λ line. line ≡ spec.seeds_line opened.now fault) }
{
    let name = seeds_name(&opened.manifest);
    match fault {
        SeedRefusal::Missing => refused_name(alloc, "Missing", name),
        SeedRefusal::TooLarge => refused_name(alloc, "TooLarge", name),
        SeedRefusal::RowShape(row) => refused_row(alloc, "RowShape", row),
        SeedRefusal::SeedUnknown(row) => refused_row(alloc, "SeedUnknown", row),
        SeedRefusal::Shelf => shelf_fault_in(alloc, opened.folder.as_str(), name),
        SeedRefusal::Memory => Ok(List::new(alloc)),
    }
}

fn shelf_fault_in(alloc: Global, folder: &str, name: &[u8]) -> Result<Bytes, Memory>
    ensures { IfOk result (λ line. line ≡ shelf_fault_line (folder.now ++ name.now)) }
{
    let mut whole = List::new(alloc);
    whole.append(folder.as_bytes())?;
    whole.append(name)?;
    shelf_fault(alloc, whole.items())
}

/// The line of a refusal that names a row.
fn refused_row(alloc: Global, kind: &str, row: u32) -> Result<Bytes, Memory>
    ensures { IfOk result (λ line. line ≡ spec.refused_row_line kind.now row) }
{
    let mut line = List::new(alloc);
    line.append("refused ".as_bytes())?;
    line.append(kind.as_bytes())?;
    add_row(alloc, &mut line, row)?;
    Ok(line)
}

fn add_row(alloc: Global, line: &mut Bytes, row: u32) -> Result<(), Memory>
    ensures { OnOk result (line.new ≡ line.old ++ (codes " row " ++ (decimal row ++ codes "\n"))) }
{
    let text = format!(in alloc; " row {row}\n")?;
    line.append(text.as_bytes())
}

/// The line of a window item without a meaning.
pub fn window_line(alloc: Global, fault: &WindowFault) -> Result<Bytes, Memory>
    ensures { IfOk result (λ line. line ≡ spec.window_line fault.now) }
{
    match fault {
        WindowFault::Unknown(text) => refused_name(alloc, "WindowUnknown", text.items()),
        WindowFault::Memory => Ok(List::new(alloc)),
    }
}

pub(crate) fn line_of(alloc: Global, opened: &Opened, refusal: &Refusal) -> Result<Bytes, Memory>
    ensures { IfOk result (λ line. line ≡ spec.line_of opened.now refusal.now) }
{
    match refusal {
        Refusal::Portfolio(fault) => portfolio_line(alloc, &opened.manifest, fault),
        Refusal::Seeds(fault) => seeds_line(alloc, opened, *fault),
        Refusal::Windows(fault) => window_line(alloc, fault),
        Refusal::Memory => Ok(List::new(alloc)),
    }
}
