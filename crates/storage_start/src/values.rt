ghost use Rattle.std.specs.Prelude.{◌≡◌, ◌++◌, map, slice_get, IfOk, OnOk};
ghost use Rattle.std.specs.List.{AllByRecursion};
ghost use Rattle.layout_reading.specs.Values as meant;
ghost use Rattle.layout_reading.specs.Values.{values_in, values_in_files};
ghost use Rattle.storage_start.specs.Literals.{HasLiteral, HaveLiterals, AreLiterals, IsLiteralIf, value_of, value_in, own_value, IsKept};
ghost use Rattle.tree_reading.specs.Reading.{operand_if};

use cobol_syntax::{Entry, FileEntry, Operand, Program};
use std::alloc::Global;
use y2k_base::Memory;

/// The VALUE of each item, in the order of the items.
pub(crate) fn values_of<'a>(
    alloc: Global,
    program: &'a Program,
) -> Result<Vec<Option<&'a Operand>>, Memory>
    requires { AreLiterals program.now }
    ensures values { IfOk result (λ values. map value_of values.items ≡ meant.values_of program.now) }
    ensures kept { IfOk result (λ values. AllByRecursion IsKept values.items) }
{
    let mut values = Vec::new(alloc);
    add_files(&mut values, program.files.items())?;
    add_entries(&mut values, program.storage.items())?;
    Ok(values)
}

fn add_files<'a>(
    values: &mut Vec<Option<&'a Operand>>,
    files: &'a [FileEntry],
) -> Result<(), Memory>
    requires literals { AllByRecursion HaveLiterals files.now }
    requires before { AllByRecursion IsKept values.old.items }
    ensures values { OnOk result (map value_of values.new.items ≡ map value_of values.old.items ++ values_in_files files.now) }
    ensures kept { OnOk result (AllByRecursion IsKept values.new.items) }
{
    let mut rest = files;
    while let [file, more @ ..] = rest {
        add_entries(values, file.entries.items())?;
        rest = more;
    }
    Ok(())
}

fn add_entries<'a>(
    values: &mut Vec<Option<&'a Operand>>,
    entries: &'a [Entry],
) -> Result<(), Memory>
    requires literals { AllByRecursion HasLiteral entries.now }
    requires before { AllByRecursion IsKept values.old.items }
    ensures values { OnOk result (map value_of values.new.items ≡ map value_of values.old.items ++ values_in entries.now) }
    ensures kept { OnOk result (AllByRecursion IsKept values.new.items) }
{
    let mut rest = entries;
    while let [entry, more @ ..] = rest {
        add_entry(values, entry)?;
        rest = more;
    }
    Ok(())
}

/// An entry that is no condition-name is an item.
fn add_entry<'a>(values: &mut Vec<Option<&'a Operand>>, entry: &'a Entry) -> Result<(), Memory>
    requires literal { HasLiteral entry.now }
    requires before { AllByRecursion IsKept values.old.items }
    ensures values { OnOk result (map value_of values.new.items ≡ map value_of values.old.items ++ own_value entry.now) }
    ensures kept { OnOk result (AllByRecursion IsKept values.new.items) }
{
    if entry.level == 88 {
        return Ok(());
    }
    values.push(lent(&entry.value))?;
    Ok(())
}

fn lent(value: &Option<Operand>) -> Option<&Operand>
    requires { IsLiteralIf value.now }
    ensures value { value_of result ≡ operand_if value.now }
    ensures kept { IsKept result }
{
    match value {
        Some(operand) => Some(operand),
        None => None,
    }
}

/// The VALUE of the item of this number.
pub(crate) fn value_at<'a>(values: &[Option<&'a Operand>], i: usize) -> Option<&'a Operand>
    requires { AllByRecursion IsKept values.now }
    ensures value { value_of result ≡ value_in (slice_get (map value_of values.now) i) }
    ensures kept { IsKept result }
{
    match values.get(i) {
        Some(value) => *value,
        None => None,
    }
}
