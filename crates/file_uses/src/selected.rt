ghost use Rattle.std.specs.Prelude.{◌≡◌, IfOk, OnOk, map, IfSome, IfNone, ◌∷◌, []};
ghost use Rattle.name_tables.specs.Names.{named, no_names};
ghost use Rattle.file_uses.specs.Names as spec;

use crate::known::KnownFiles;
use cobol_syntax::{Program, Select};
use name_tables::Names;
use portfolio::Named;
use std::alloc::Global;
use y2k_base::Memory;

/// Adds the external names of a program that aren't known, or that it has selected before.
fn add_unknown(
    alloc: Global,
    faults: &mut Names,
    known: &KnownFiles<'_>,
    selects: &[Select],
) -> Result<(), Memory>
    ensures { OnOk result (named faults.new ≡ spec.with_names (named faults.old) (spec.unknown_in (spec.known_by known.now) no_names selects.now)) }
{
    let mut own = Names::new(alloc);
    let mut rest = selects;
    while let [select, more @ ..] = rest {
        let external = select.external.items();
        if is_unknown(known, &own, external) {
            faults.add(alloc, external)?;
        }
        own.add(alloc, external)?;
        rest = more;
    }
    Ok(())
}

fn is_unknown(known: &KnownFiles<'_>, own: &Names, external: &[u8]) -> bool
    ensures { result ≡ spec.is_unknown (spec.known_by known.now) (named own.now) external.now }
{
    !known.has(external) || own.has(external)
}

/// Adds the external names that programs select and that aren't known, or that one of them selects twice.
fn add_all_unknown(
    alloc: Global,
    faults: &mut Names,
    known: &KnownFiles<'_>,
    programs: &[Program],
) -> Result<(), Memory>
    ensures { OnOk result (named faults.new ≡ spec.with_names (named faults.old) (spec.unknown_selected (spec.known_by known.now) programs.now)) }
{
    let mut rest = programs;
    while let Some((program, more)) = first_program(rest) {
        add_unknown(alloc, faults, known, program.selects.items())?;
        rest = more;
    }
    Ok(())
}

fn add_selected(alloc: Global, names: &mut Names, selects: &[Select]) -> Result<(), Memory>
    ensures { OnOk result (named names.new ≡ spec.with_names (named names.old) (map spec.external_of selects.now)) }
{
    let mut rest = selects;
    while let [select, more @ ..] = rest {
        names.add(alloc, select.external.items())?;
        rest = more;
    }
    Ok(())
}

/// The external names that programs select.
fn selected_by(alloc: Global, programs: &[Program]) -> Result<Names, Memory>
    ensures { IfOk result (λ names. named names ≡ spec.selected_by programs.now) }
{
    let mut names = Names::new(alloc);
    let mut rest = programs;
    while let Some((program, more)) = first_program(rest) {
        add_selected(alloc, &mut names, program.selects.items())?;
        rest = more;
    }
    Ok(names)
}

/// Adds the known external names that no program selects.
fn add_unselected(
    alloc: Global,
    faults: &mut Names,
    selected: &Names,
    files: &[Named],
) -> Result<(), Memory>
    ensures { OnOk result (named faults.new ≡ spec.with_names (named faults.old) (spec.unselected_in (named selected.now) files.now)) }
{
    let mut rest = files;
    while let [file, more @ ..] = rest {
        if !selected.has(file.key.items()) {
            faults.add(alloc, file.key.items())?;
        }
        rest = more;
    }
    Ok(())
}

fn add_any_unselected(
    alloc: Global,
    faults: &mut Names,
    selected: &Names,
    files: Option<&[Named]>,
) -> Result<(), Memory>
    ensures { OnOk result (named faults.new ≡ spec.with_names (named faults.old) (spec.unselected (spec.list_of files.entry) (named selected.now))) }
{
    match files {
        Some(files) => {
            add_unselected(alloc, faults, selected, files)?;
            Ok(())
        }
        None => Ok(()),
    }
}

/// The external names at fault: those that aren't known, that a program selects twice, and those that are known and
/// that no program selects.
#[tactic(auto, using(crate::proofs::Appended::with_names_append))]
pub(crate) fn unknown_files(
    alloc: Global,
    programs: &[Program],
    known: &KnownFiles<'_>,
    files: Option<&[Named]>,
) -> Result<Names, Memory>
    ensures { IfOk result (λ names. named names ≡ spec.unknown_by (spec.known_by known.now) (spec.list_of files.entry) programs.now) }
{
    let mut faults = Names::new(alloc);
    add_all_unknown(alloc, &mut faults, known, programs)?;
    let selected = selected_by(alloc, programs)?;
    add_any_unselected(alloc, &mut faults, &selected, files)?;
    Ok(faults)
}

fn first_program(programs: &[Program]) -> Option<(&Program, &[Program])>
    ensures some { IfSome result (λ first. programs.now ≡ first.0.now ∷ first.1.now) }
    ensures none { IfNone result (programs.now ≡ []) }
{
    match programs {
        [] => None,
        [program, more @ ..] => Some((program, more)),
    }
}
