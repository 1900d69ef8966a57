ghost use Rattle.std.specs.Prelude.{◌≡◌, IfOk, OnOk, map, Option};
ghost use Rattle.std.specs.List.{AllByRecursion};
ghost use Rattle.data_layout.specs.declared.item.Layout.{Layout};
ghost use Rattle.layout_reading.specs.Kinds.{read_kind};
ghost use Rattle.layout_reading.specs.Reading.{first_area, read_layout, read_item, read_items, read_step};
ghost use Rattle.program_meaning.specs.Answer.{Gives};
ghost use Rattle.program_meaning.specs.Layout as meant;
ghost use Rattle.program_meaning.specs.Moves as moves;
ghost use Rattle.program_meaning.specs.Start as meant_start;
ghost use Rattle.program_meaning.specs.Start.{with_value, with_values, with_sent, occurrences};
ghost use Rattle.program_meaning.specs.Tree as tree;
ghost use Rattle.storage_places.specs.Fits.{ItemFits, LayoutFits, area_lengths};
ghost use Rattle.storage_places.specs.Held.{held, first, lengths};
ghost use Rattle.storage_start.specs.Literals.{AreLiterals, IsLiteral, IsKept, value_of};
ghost use Rattle.storage_start.specs.Receivable.{IsReceivable};
ghost use Rattle.tree_reading.specs.Reading.{read_operand};
ghost use Rattle.value_moves.specs.Given.{receiver_of, IsFor, IsSent};

use crate::literals::are_literals;
use crate::occurrences::set_each;
use crate::receiving::{are_receivable, received};
use crate::sending::{receiver, send};
use crate::values::{value_at, values_of};
use cobol_syntax::{Operand, Program};
use data_layout::{Item, Layout};
use std::alloc::Global;
use storage_places::Storage;
use value_moves::{MoveFault, Sent};
use y2k_base::Memory;

/// The storage with which a program starts. A VALUE or an item that no program without faults has is answered as want of
/// memory.
pub fn start(alloc: Global, program: &Program, layout: &Layout) -> Result<Storage, Memory>
    requires fits { LayoutFits layout.now }
    ensures held { IfOk result (λ storage. held storage ≡ meant_start.start (read_layout program.now layout.now)) }
    ensures first { IfOk result (λ storage. first storage ≡ first_area layout.now.areas) }
    ensures lengths { IfOk result (λ storage. lengths (held storage) ≡ area_lengths layout.now) }
{
    if are_receivable(layout) {
        receiving_start(alloc, program, layout)
    } else {
        Err(Memory)
    }
}

/// The same, where each item can receive a number.
fn receiving_start(alloc: Global, program: &Program, layout: &Layout) -> Result<Storage, Memory>
    requires fits { LayoutFits layout.now }
    requires receives { AllByRecursion IsReceivable layout.now.items }
    ensures held { IfOk result (λ storage. held storage ≡ meant_start.start (read_layout program.now layout.now)) }
    ensures first { IfOk result (λ storage. first storage ≡ first_area layout.now.areas) }
    ensures lengths { IfOk result (λ storage. lengths (held storage) ≡ area_lengths layout.now) }
{
    if are_literals(program) {
        filled(alloc, program, layout)
    } else {
        Err(Memory)
    }
}

/// Spaces, and then the VALUEs.
fn filled(alloc: Global, program: &Program, layout: &Layout) -> Result<Storage, Memory>
    requires fits { LayoutFits layout.now }
    requires receives { AllByRecursion IsReceivable layout.now.items }
    requires literals { AreLiterals program.now }
    ensures held { IfOk result (λ storage. held storage ≡ meant_start.start (read_layout program.now layout.now)) }
    ensures first { IfOk result (λ storage. first storage ≡ first_area layout.now.areas) }
    ensures lengths { IfOk result (λ storage. lengths (held storage) ≡ area_lengths layout.now) }
{
    let values = values_of(alloc, program)?;
    let mut storage = Storage::spaces(alloc, layout)?;
    put_values(alloc, layout.items.items(), &values, &mut storage)?;
    Ok(storage)
}

fn put_values(
    alloc: Global,
    items: &[Item],
    values: &[Option<&Operand>],
    storage: &mut Storage,
) -> Result<(), Memory>
    requires fit { AllByRecursion (ItemFits (first storage.old) (lengths (held storage.old))) items.now }
    requires receive { AllByRecursion IsReceivable items.now }
    requires kept { AllByRecursion IsKept values.now }
    ensures held { OnOk result ((l : Layout) (m : meant.Layout) → first_area l.areas ≡ first storage.old →
        held storage.new ≡ with_values m (read_items l items.now (map value_of values.now)) (held storage.old)) }
    ensures first { OnOk result (first storage.new ≡ first storage.old) }
    ensures lengths { OnOk result (lengths (held storage.new) ≡ lengths (held storage.old)) }
{
    for i in 0..items.len() {
        put_value(alloc, &items[i], value_at(values, i), storage)?;
    }
    Ok(())
}

fn put_value(
    alloc: Global,
    item: &Item,
    value: Option<&Operand>,
    storage: &mut Storage,
) -> Result<(), Memory>
    requires fits { ItemFits (first storage.old) (lengths (held storage.old)) item.now }
    requires receives { IsReceivable item.now }
    requires kept { IsKept value }
    ensures held { OnOk result ((l : Layout) (m : meant.Layout) → first_area l.areas ≡ first storage.old →
        held storage.new ≡ with_value m (read_item l item.now (value_of value.entry)) (value_of value.entry) (held storage.old)) }
    ensures first { OnOk result (first storage.new ≡ first storage.old) }
    ensures lengths { OnOk result (lengths (held storage.new) ≡ lengths (held storage.old)) }
{
    match value {
        Some(operand) => put_operand(alloc, item, operand, storage),
        None => Ok(()),
    }
}

fn put_operand(
    alloc: Global,
    item: &Item,
    operand: &Operand,
    storage: &mut Storage,
) -> Result<(), Memory>
    requires fits { ItemFits (first storage.old) (lengths (held storage.old)) item.now }
    requires receives { IsReceivable item.now }
    requires literal { IsLiteral operand.now }
    ensures held { OnOk result ((l : Layout) (m : meant.Layout) (v : Option tree.Operand) → first_area l.areas ≡ first storage.old →
        held storage.new ≡ with_value m (read_item l item.now v) (Some (read_operand operand.now)) (held storage.old)) }
    ensures first { OnOk result (first storage.new ≡ first storage.old) }
    ensures lengths { OnOk result (lengths (held storage.new) ≡ lengths (held storage.old)) }
{
    match send(alloc, operand, receiver(item)) {
        Ok(sent) => put_sent(alloc, item, &sent, storage),
        Err(MoveFault::Data) => Ok(()),
        Err(MoveFault::Memory) => Err(Memory),
    }
}

fn put_sent(alloc: Global, item: &Item, sent: &Sent, storage: &mut Storage) -> Result<(), Memory>
    requires fits { ItemFits (first storage.old) (lengths (held storage.old)) item.now }
    requires receives { IsReceivable item.now }
    requires suits { IsFor (receiver_of (read_kind item.now)) sent.now }
    ensures held { OnOk result ((l : Layout) (v : Option tree.Operand) (s : moves.Sent) → first_area l.areas ≡ first storage.old → IsSent sent.now s →
        held storage.new ≡ with_sent (read_item l item.now v) (held storage.old) (occurrences (map read_step item.now.steps) item.now.span.offset) (Gives s)) }
    ensures first { OnOk result (first storage.new ≡ first storage.old) }
    ensures lengths { OnOk result (lengths (held storage.new) ≡ lengths (held storage.old)) }
{
    let bytes = received(alloc, item, sent)?;
    set_each(storage, item.span, item.steps.items(), &bytes);
    Ok(())
}
