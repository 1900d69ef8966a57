ghost use Rattle.std.specs.Prelude.{◌^◌, ◌<◌, ◌≤◌, unsigned_abs, IsTrue};
ghost use Rattle.std.specs.List.{AllByRecursion};
ghost use Rattle.storage_start.specs.Literals.{IsLiteral, IsLiteralIf, HasLiteral, HaveLiterals, AreLiterals};

use cobol_syntax::{Entry, FileEntry, Operand, Program};

/// Whether each VALUE of a program is a literal or a figure, and each number is written with at most 18 digits. It is so
/// in each program that is read from a text.
pub(crate) fn are_literals(program: &Program) -> bool
    ensures literals { IsTrue result → AreLiterals program.now }
    ensures all { AreLiterals program.now → IsTrue result }
{
    in_files(program.files.items()) && in_entries(program.storage.items())
}

fn in_files(files: &[FileEntry]) -> bool
    ensures literals { IsTrue result → AllByRecursion HaveLiterals files.now }
    ensures all { AllByRecursion HaveLiterals files.now → IsTrue result }
{
    let mut rest = files;
    while let [file, more @ ..] = rest {
        if !in_entries(file.entries.items()) {
            return false;
        }
        rest = more;
    }
    true
}

fn in_entries(entries: &[Entry]) -> bool
    ensures literals { IsTrue result → AllByRecursion HasLiteral entries.now }
    ensures all { AllByRecursion HasLiteral entries.now → IsTrue result }
{
    let mut rest = entries;
    while let [entry, more @ ..] = rest {
        if !is_literal_if(&entry.value) {
            return false;
        }
        rest = more;
    }
    true
}

fn is_literal_if(value: &Option<Operand>) -> bool
    ensures literal { IsTrue result → IsLiteralIf value.now }
    ensures all { IsLiteralIf value.now → IsTrue result }
{
    match value {
        Some(operand) => is_literal(operand),
        None => true,
    }
}

fn is_literal(operand: &Operand) -> bool
    ensures literal { IsTrue result → IsLiteral operand.now }
    ensures all { IsLiteral operand.now → IsTrue result }
{
    match operand {
        Operand::Place(_) => false,
        Operand::Number {
            value,
            digits,
            at: _,
        } => fits(value.number, *digits),
        Operand::Text { bytes: _, at: _ } => true,
        Operand::Figure { byte: _, at: _ } => true,
    }
}

fn fits(number: i128, digits: u8) -> bool
    ensures fits { IsTrue result → (digits ≤ 18) × (unsigned_abs number < 10 ^ digits) }
    ensures all { (digits ≤ 18) × (unsigned_abs number < 10 ^ digits) → IsTrue result }
{
    if digits > 18 {
        return false;
    }
    number.unsigned_abs() < 10u128.pow(u32::from(digits))
}
