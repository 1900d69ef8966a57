ghost use Rattle.std.specs.Prelude.{◌≡◌, ◌+◌, [], OnOk, IfOk, IfErr};
ghost use Rattle.data_layout.specs.Index.{IsReady};
ghost use Rattle.data_layout.specs.Faults.{origin_at};
ghost use Rattle.program_uses.specs.Names.{known};
ghost use Rattle.program_uses.specs.Uses as spec;
ghost use Rattle.program_uses.specs.Uses.{IsFirstUse, use_faults};

use crate::data::{conds_fault, files_fault, selects_fault};
use crate::form::{Names, paragraphs_fault};
use crate::names::NameMap;
use cobol_syntax::Program;
use data_layout::Layout;
use operand_uses::{NameKind, Trouble, UseFault, sooner};
use program_reader::{ReadFault, Refused, RefusedKind};
use std::alloc::Global;
use y2k_base::{FileId, Memory, Origin, Word};

/// The place of the word at a position.
fn origin_of(words: &[Word], at: usize) -> Origin
    ensures { result ≡ origin_at words.now at }
{
    match words.get(at) {
        Some(word) => word.origin,
        None => Origin {
            file: FileId(0),
            line: 0,
            column: 0,
        },
    }
}

fn kind_of_name(kind: NameKind) -> RefusedKind
    ensures { result ≡ spec.name_kind kind }
{
    match kind {
        NameKind::Unknown => RefusedKind::NameUnknown,
        NameKind::Twice => RefusedKind::NameTwice,
    }
}

/// The fault with the place of its word.
fn refusal(words: &[Word], found: UseFault) -> Refused
    ensures { result ≡ spec.refusal words.now found.owner found.trouble }
{
    match found.trouble {
        Trouble::Place { at, kind } => Refused {
            kind: kind_of_name(kind),
            at: origin_of(words, at as usize),
        },
        Trouble::Name(kind) => Refused {
            kind: kind_of_name(kind),
            at: origin_of(words, found.owner as usize),
        },
        Trouble::Shape => Refused {
            kind: RefusedKind::UseShape,
            at: origin_of(words, found.owner as usize),
        },
        Trouble::File => Refused {
            kind: RefusedKind::NameUnknown,
            at: origin_of(words, found.owner as usize + 1),
        },
    }
}

/// The first fault of all, by the names of the program.
fn first_among(
    layout: &Layout,
    selects: &NameMap,
    names: &Names,
    program: &Program,
) -> Option<UseFault>
    requires { IsReady layout.now }
    ensures { result ≡ spec.first_among layout.now (known selects.now) (known names.now.files) (known names.now.paragraphs) program.now }
{
    let select = selects_fault(layout, &names.files, program.selects.items());
    let file = files_fault(layout, selects, program.files.items());
    let cond = conds_fault(layout, layout.conds.items());
    let statement = paragraphs_fault(layout, names, program.paragraphs.items());
    sooner(select, sooner(file, sooner(cond, statement)))
}

/// The first fault of all.
fn first_fault(
    alloc: Global,
    program: &Program,
    layout: &Layout,
) -> Result<Option<UseFault>, Memory>
    requires { IsReady layout.now }
    ensures { IfOk result (λ fault. fault ≡ spec.first_fault layout.now program.now) }
{
    let selects = NameMap::of_selects(alloc, program.selects.items())?;
    let files = NameMap::of_files(alloc, program.files.items())?;
    let paragraphs = NameMap::of_paragraphs(alloc, program.paragraphs.items())?;
    let names = Names { files, paragraphs };
    Ok(first_among(layout, &selects, &names, program))
}

/// Whether each name of a program means one thing of the kind that may stand there, and each use has a meaning; else
/// the fault that comes first. The layout is that of the program.
pub fn check_uses(alloc: Global, program: &Program, layout: &Layout) -> Result<(), ReadFault>
    requires { IsReady layout.now }
    ensures right { OnOk result (use_faults layout.now program.now ≡ []) }
    ensures fault { IfErr result (λ fault. IsFirstUse fault (use_faults layout.now program.now)) }
{
    match first_fault(alloc, program, layout) {
        Err(_) => Err(ReadFault::Memory),
        Ok(None) => Ok(()),
        Ok(Some(found)) => Err(ReadFault::Refused(refusal(program.words.items(), found))),
    }
}
