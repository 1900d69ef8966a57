ghost use Rattle.std.specs.Prelude.{◌≡◌, ◌/◌, ◌<◌, ◌-◌, ◌^◌, ℕ, IfOk, OnOk, All, Contains};
ghost use Rattle.year_labels.specs.Forms.{IsFit, IsFitView, IsPlaced};
ghost use Rattle.label_spread.specs.Steps.{IsInSpan, IsInView};
ghost use Rattle.label_spread.specs.Slots.{Indexes, IsIndexOf, LooksAt, slot_of, slots_of_block, byte_at as the_byte_at};
ghost use Rattle.label_spread.specs.declared.slots.Slot.{Slot as AnySlot};

use std::alloc::{AllocError, Global};
use std::collections::BTreeSet;
use y2k_base::{AreaId, BytePlace, Memory, Span};
use year_labels::{RuleForm, RuleInst, View};

/// That the rule of that index gives or looks at facts of a byte of that block of 64 bytes of the area.
#[derive(Clone, Copy, Debug, PartialEq, Eq, PartialOrd, Ord)]
pub struct Slot {
    pub area: AreaId,
    pub block: u32,
    pub rule: usize,
}

/// Which rules give or look at facts of the bytes of which blocks.
pub fn index_rules(alloc: Global, rules: &[RuleInst]) -> Result<BTreeSet<Slot>, Memory>
    requires { All (λ r. IsFit r.form) rules.now }
    ensures { IfOk result (λ slots. IsIndexOf rules.now slots.keys) }
{
    let mut slots = BTreeSet::new(alloc);
    for rule in 0..rules.len() {
        index_form(&rules[rule].form, rule, &mut slots)?;
    }
    Ok(slots)
}

fn index_form(form: &RuleForm, rule: usize, slots: &mut BTreeSet<Slot>) -> Result<(), Memory>
    requires { IsFit form.now }
    ensures { OnOk result (Indexes (LooksAt form.now) rule slots.old.keys slots.new.keys) }
{
    match form {
        RuleForm::Give { fact } => index_span(byte_at(fact.place), rule, slots),
        RuleForm::GiveDigit { view, .. } => index_view(view, rule, slots),
        RuleForm::Alike { a, b } => {
            index_span(*a, rule, slots)?;
            index_span(*b, rule, slots)?;
            Ok(())
        }
        RuleForm::Digits { a, b } => {
            index_view(a, rule, slots)?;
            index_view(b, rule, slots)?;
            Ok(())
        }
        RuleForm::Fill { view, .. } => index_view(view, rule, slots),
        RuleForm::Sum { a, b, c } => {
            index_view(a, rule, slots)?;
            index_view(b, rule, slots)?;
            index_view(c, rule, slots)?;
            Ok(())
        }
        RuleForm::Difference { a, b, c } => {
            index_view(a, rule, slots)?;
            index_view(b, rule, slots)?;
            index_view(c, rule, slots)?;
            Ok(())
        }
    }
}

/// The span of the one byte.
fn byte_at(place: BytePlace) -> Span
    ensures { result ≡ the_byte_at place }
{
    Span {
        area: place.area,
        offset: place.offset,
        length: 1,
    }
}

fn index_view(view: &View, rule: usize, slots: &mut BTreeSet<Slot>) -> Result<(), Memory>
    requires { IsFitView view.now }
    ensures { OnOk result (Indexes (IsInView view.now) rule slots.old.keys slots.new.keys) }
{
    match view {
        View::Bytes { span, .. } => index_span(*span, rule, slots),
        View::Packed { span, .. } => index_span(*span, rule, slots),
        View::Plain => Ok(()),
    }
}

fn index_span(span: Span, rule: usize, slots: &mut BTreeSet<Slot>) -> Result<(), Memory>
    requires { IsPlaced span }
    ensures { OnOk result (Indexes (IsInSpan span) rule slots.old.keys slots.new.keys) }
{
    if span.length == 0 {
        return Ok(());
    }
    let first = span.offset / 64;
    let last = (span.offset + (span.length - 1)) / 64;
    for block in first..last + 1 {
        let area = span.area;
        insert_slot(Slot { area, block, rule }, slots)?;
    }
    Ok(())
}

fn insert_slot(slot: Slot, slots: &mut BTreeSet<Slot>) -> Result<(), Memory>
    ensures there { OnOk result (Contains slots.new.keys slot) }
    ensures kept { OnOk result ((other : AnySlot) → Contains slots.old.keys other → Contains slots.new.keys other) }
{
    slots.insert(slot)?;
    Ok(())
}

/// The slots of the block of the byte, in order of rules.
pub fn slots_at(
    alloc: Global,
    slots: &BTreeSet<Slot>,
    place: BytePlace,
) -> Result<Vec<Slot>, Memory>
    ensures { IfOk result (λ found. (rule : ℕ) → Contains slots.now.keys (slot_of place rule) → Contains found.items (slot_of place rule)) }
{
    let found = block_slots(alloc, slots, place.area, place.offset / 64)?;
    Ok(found)
}

fn block_slots(
    alloc: Global,
    slots: &BTreeSet<Slot>,
    area: AreaId,
    block: u32,
) -> Result<Vec<Slot>, AllocError>
    requires { block < 2 ^ 32 - 1 }
    ensures { IfOk result (λ found. found.items ≡ slots_of_block area block slots.now.keys) }
{
    let low = Slot {
        area,
        block,
        rule: 0,
    };
    let high = Slot {
        area,
        block: block + 1,
        rule: 0,
    };
    slots.range(low..high).copied().collect(alloc)
}
