ghost use Rattle.std.specs.Prelude.{◌≡◌, IfOk, IfErr};
ghost use Rattle.program_texts.specs.Programs as spec;

use crate::line::Source;
use cobol_syntax::Program;
use copy_origins::{Books, CopyFault, Expanded, expand};
use data_layout::{Layout, LayoutFault, lay_out};
use program_reader::{ReadFault, Refused, RefusedKind, read_program};
use std::alloc::Global;
use y2k_base::{AreaId, FileId, Origin};

/// The program of that number that the words of a text are with the copybooks.
pub(crate) fn tree_of(
    alloc: Global,
    books: &Books,
    source: &Source,
    program: u32,
) -> Result<Program, ReadFault>
    ensures tree { IfOk result (spec.IsTree books.now.list program source.now) }
    ensures fault { IfErr result (spec.IsRefusedSource books.now.list program source.now) }
{
    match expand(alloc, source.words.items(), books) {
        Ok(expanded) => match tree_of_expanded(alloc, &expanded, program, source.file) {
            Ok(tree) => Ok(tree),
            Err(fault) => Err(fault),
        },
        Err(fault) => Err(refusal_of_copy(fault)),
    }
}

fn tree_of_expanded(
    alloc: Global,
    expanded: &Expanded,
    program: u32,
    file: FileId,
) -> Result<Program, ReadFault>
    ensures tree { IfOk result (spec.IsTreeOf expanded.now.words program file) }
    ensures fault { IfErr result (spec.IsUnread expanded.now.words program file) }
{
    match read_program(alloc, expanded, program, file) {
        Ok(tree) => Ok(tree),
        Err(fault) => Err(fault),
    }
}

fn refused(kind: RefusedKind, at: Origin) -> ReadFault
    ensures { result ≡ ReadFault.Refused (record { kind = kind; at = at }) }
{
    ReadFault::Refused(Refused { kind, at })
}

fn refusal_of_copy(fault: CopyFault) -> ReadFault
    ensures { result ≡ spec.copy_refusal fault }
{
    match fault {
        CopyFault::CopyShape(at) => refused(RefusedKind::CopyShape, at),
        CopyFault::CopyMissing(at) => refused(RefusedKind::CopyMissing, at),
        CopyFault::NestedCopy(at) => refused(RefusedKind::NestedCopy, at),
        CopyFault::Memory => ReadFault::Memory,
    }
}

fn refusal_of_layout(fault: LayoutFault) -> ReadFault
    ensures { result ≡ spec.layout_refusal fault }
{
    match fault {
        LayoutFault::LayoutShape(at) => refused(RefusedKind::LayoutShape, at),
        LayoutFault::AreaFull(at) => refused(RefusedKind::AreaFull, at),
        LayoutFault::NameTwice(at) => refused(RefusedKind::NameTwice, at),
        LayoutFault::Memory => ReadFault::Memory,
    }
}

/// The layout of a program whose areas are numbered from that one on.
pub(crate) fn layout_of(
    alloc: Global,
    program: &Program,
    first: AreaId,
) -> Result<Layout, ReadFault>
    ensures layout { IfOk result (spec.IsLaid first program.now) }
    ensures fault { IfErr result (spec.IsUnlaid program.now) }
{
    match lay_out(alloc, program, first) {
        Ok(layout) => Ok(layout),
        Err(fault) => Err(refusal_of_layout(fault)),
    }
}
