ghost use Rattle.std.specs.Prelude.{◌≡◌, ◌++◌, IfOk, OnOk, codes, decimal, slice_get};
ghost use Rattle.std.specs.List.{concat};
ghost use Rattle.run_lines.specs.Lines as spec;
ghost use Rattle.statement_places.specs.Statements as statements;

use crate::ended::kind_word;
use cobol_syntax::Program;
use portfolio::Manifest;
use refusal_lines::text_name;
use statement_places::statement_origin;
use std::alloc::Global;
use trial_run::{End, FaultKind, Shown};
use y2k_base::{Bytes, List, Memory, Origin};

/// What a job prints. `numbers` are its programs by their numbers in the portfolio.
pub fn job_lines(
    alloc: Global,
    manifest: &Manifest,
    programs: &[Program],
    numbers: &[u32],
    shown: &[Shown],
    ends: &[End],
) -> Result<Bytes, Memory>
    ensures { IfOk result (λ lines. lines ≡ spec.job_lines manifest.now programs.now numbers.now shown.now ends.now) }
{
    let mut lines = List::new(alloc);
    add_shown(&mut lines, shown)?;
    add_ends(alloc, &mut lines, manifest, programs, numbers, ends)?;
    Ok(lines)
}

fn add_shown(lines: &mut Bytes, shown: &[Shown]) -> Result<(), Memory>
    ensures { OnOk result (lines.new ≡ lines.old ++ spec.shown_lines shown.now) }
{
    let mut rest = shown;
    while let [piece, more @ ..] = rest {
        add_parts(lines, piece.parts.items())?;
        lines.append(b"\n")?;
        rest = more;
    }
    Ok(())
}

fn add_parts(lines: &mut Bytes, parts: &[Bytes]) -> Result<(), Memory>
    ensures { OnOk result (lines.new ≡ lines.old ++ concat parts.now) }
{
    let mut rest = parts;
    while let [part, more @ ..] = rest {
        lines.append(part.items())?;
        rest = more;
    }
    Ok(())
}

fn add_ends(
    alloc: Global,
    lines: &mut Bytes,
    manifest: &Manifest,
    programs: &[Program],
    numbers: &[u32],
    ends: &[End],
) -> Result<(), Memory>
    ensures { OnOk result (lines.new ≡ lines.old ++ spec.end_lines manifest.now programs.now numbers.now ends.now) }
{
    let mut left = numbers;
    let mut rest = ends;
    while let [number, others @ ..] = left {
        match rest {
            [] => return Ok(()),
            [end, more @ ..] => {
                add_end_at(alloc, lines, manifest, programs, *number, *end)?;
                rest = more;
            }
        }
        left = others;
    }
    Ok(())
}

fn add_end_at(
    alloc: Global,
    lines: &mut Bytes,
    manifest: &Manifest,
    programs: &[Program],
    number: u32,
    end: End,
) -> Result<(), Memory>
    ensures { OnOk result (lines.new ≡ lines.old ++ spec.end_line_at manifest.now (slice_get programs.now number) end) }
{
    match programs.get(number as usize) {
        Some(program) => {
            add_end(alloc, lines, manifest, program, end)?;
            Ok(())
        }
        None => Ok(()),
    }
}

fn add_end(
    alloc: Global,
    lines: &mut Bytes,
    manifest: &Manifest,
    program: &Program,
    end: End,
) -> Result<(), Memory>
    ensures { OnOk result (lines.new ≡ lines.old ++ spec.end_line manifest.now program.now end) }
{
    lines.append(program.id.items())?;
    lines.append(b" ")?;
    add_end_text(alloc, lines, manifest, program, end)?;
    lines.append(b"\n")?;
    Ok(())
}

fn add_end_text(
    alloc: Global,
    lines: &mut Bytes,
    manifest: &Manifest,
    program: &Program,
    end: End,
) -> Result<(), Memory>
    ensures { OnOk result (lines.new ≡ lines.old ++ spec.end_text manifest.now program.now end) }
{
    match end {
        End::Stopped => {
            lines.append("stopped".as_bytes())?;
            Ok(())
        }
        End::Fault { kind, at } => {
            add_fault(alloc, lines, manifest, program, kind, at.number)?;
            Ok(())
        }
        End::Running => {
            lines.append("running".as_bytes())?;
            Ok(())
        }
    }
}

fn add_fault(
    alloc: Global,
    lines: &mut Bytes,
    manifest: &Manifest,
    program: &Program,
    kind: FaultKind,
    number: u32,
) -> Result<(), Memory>
    ensures { OnOk result (lines.new ≡ lines.old ++ (codes "fault " ++ (spec.kind_word kind ++ spec.place_text manifest.now (statements.statement_origin program.now number)))) }
{
    lines.append("fault ".as_bytes())?;
    lines.append(kind_word(kind).as_bytes())?;
    let at = statement_origin(alloc, program, number)?;
    add_place(alloc, lines, manifest, at)?;
    Ok(())
}

fn add_place(
    alloc: Global,
    lines: &mut Bytes,
    manifest: &Manifest,
    at: Option<Origin>,
) -> Result<(), Memory>
    ensures { OnOk result (lines.new ≡ lines.old ++ spec.place_text manifest.now at) }
{
    match at {
        None => Ok(()),
        Some(at) => {
            lines.append(b" ")?;
            lines.append(text_name(manifest, at.file.0))?;
            add_position(alloc, lines, at.line, at.column)?;
            Ok(())
        }
    }
}

fn add_position(alloc: Global, lines: &mut Bytes, line: u32, column: u32) -> Result<(), Memory>
    ensures { OnOk result (lines.new ≡ lines.old ++ (codes ":" ++ (decimal line ++ (codes ":" ++ decimal column)))) }
{
    let position = format!(in alloc; ":{line}:{column}")?;
    lines.append(position.as_bytes())
}
