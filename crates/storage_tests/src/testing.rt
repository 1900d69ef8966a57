ghost use Rattle.std.specs.Prelude.{◌≡◌, IfOk, IfErr, Option, length};
ghost use Rattle.y2k_base.specs.declared.picture.Picture.{Picture};
ghost use Rattle.place_table.specs.Tables.{layout_of, IsStorageOf, Gave, Failed};
ghost use Rattle.place_table.specs.Views.{HasGrown};
ghost use Rattle.program_meaning.specs.Compare as meant;
ghost use Rattle.storage_places.specs.Held.{held};
ghost use Rattle.storage_places.specs.Reached.{kind_with};
ghost use Rattle.tree_reading.specs.Reading.{read_rel, read_sign, read_class, read_condition};
ghost use Rattle.storage_tests.specs.Joints.{read_asked};
ghost use Rattle.storage_tests.specs.Seen.{IsLong};

use crate::compared::place_bytes;
use crate::comparing::compare_items;
use crate::joint::descend;
use crate::named::name_holds;
use crate::seen::{bytes_of, see};
use cobol_syntax::{CondForm, Condition, Expr, Place, Rel};
use number_bytes::{is_alphabetic, is_digits, is_numeric};
use operand_kinds::Kind;
use place_table::Places;
use std::alloc::Global;
use std::cmp::Ordering;
use storage_places::{RunFault, Storage};
use storage_sums::value;

/// Whether a condition holds. The second side of AND and OR is read only where the first doesn't decide.
///
/// Goes down the first conditions by a loop, since a condition can have as many terms as a program has words.
#[cycle(test)]
pub fn test(
    alloc: Global,
    places: &mut Places<'_>,
    storage: &Storage,
    condition: &Condition,
) -> Result<bool, RunFault>
    requires storage { IsStorageOf (layout_of places.old) storage.now }
    ensures ok { IfOk result (Gave (layout_of places.old) (λ l. meant.test l (held storage.now) (read_condition condition.now))) }
    ensures err { IfErr result (Failed (layout_of places.old) (λ l. meant.test l (held storage.now) (read_condition condition.now))) }
    ensures grown { HasGrown places.old places.new }
{
    match descend(alloc, condition) {
        Err(_) => Err(RunFault::Memory),
        Ok((mut joints, first)) => {
            let mut holds = test_form(alloc, places, storage, &first.form)?;
            while let Some(joint) = joints.pop() {
                if !joint.operator.decides(holds) {
                    holds = test(alloc, places, storage, joint.right)?;
                }
            }
            Ok(holds)
        }
    }
}

/// Whether what a condition asks is so.
#[cycle(test)]
fn test_form(
    alloc: Global,
    places: &mut Places<'_>,
    storage: &Storage,
    form: &CondForm,
) -> Result<bool, RunFault>
    requires storage { IsStorageOf (layout_of places.old) storage.now }
    ensures ok { IfOk result (Gave (layout_of places.old) (λ l. meant.test l (held storage.now) (read_asked form.now))) }
    ensures err { IfErr result (Failed (layout_of places.old) (λ l. meant.test l (held storage.now) (read_asked form.now))) }
    ensures grown { HasGrown places.old places.new }
{
    match form {
        CondForm::Relation { left, rel, right } => {
            let order = compare_items(alloc, places, storage, left, right)?;
            Ok(is_rel(*rel, order))
        }
        CondForm::Class { of, numeric } => {
            let holds = has_class(places, storage, of, *numeric)?;
            Ok(holds)
        }
        CondForm::Sign { of, sign } => {
            let number = value(alloc, places, storage, of)?;
            Ok(is_rel(rel_of(*sign), number.number.cmp(&0)))
        }
        CondForm::Named(place) => {
            let holds = name_holds(places, storage, place)?;
            Ok(holds)
        }
        CondForm::Not(inner) => {
            let holds = test(alloc, places, storage, inner.get())?;
            Ok(!holds)
        }
        CondForm::And(left, right) => {
            if test(alloc, places, storage, left.get())? {
                let holds = test(alloc, places, storage, right.get())?;
                return Ok(holds);
            }
            Ok(false)
        }
        CondForm::Or(left, right) => {
            if test(alloc, places, storage, left.get())? {
                return Ok(true);
            }
            let holds = test(alloc, places, storage, right.get())?;
            Ok(holds)
        }
    }
}

/// Whether two sides that stand so to each other are in a relation.
fn is_rel(rel: Rel, order: Ordering) -> bool
    ensures { result ≡ meant.is_rel (read_rel rel) order }
{
    match rel {
        Rel::Equal => order.is_eq(),
        Rel::Less => order.is_lt(),
        Rel::Greater => order.is_gt(),
    }
}

/// How a number of a sign stands to 0.
fn rel_of(sign: i8) -> Rel
    ensures { read_rel result ≡ read_sign sign }
{
    if sign < 0 {
        return Rel::Less;
    }
    if sign > 0 {
        return Rel::Greater;
    }
    Rel::Equal
}

/// Whether a place is NUMERIC, or else ALPHABETIC.
fn has_class(
    places: &mut Places<'_>,
    storage: &Storage,
    place: &Place,
    numeric: bool,
) -> Result<bool, RunFault>
    requires storage { IsStorageOf (layout_of places.old) storage.now }
    ensures ok { IfOk result (Gave (layout_of places.old) (λ l. meant.test l (held storage.now) (read_class numeric place.now))) }
    ensures err { IfErr result (Failed (layout_of places.old) (λ l. meant.test l (held storage.now) (read_class numeric place.now))) }
    ensures grown { HasGrown places.old places.new }
{
    if numeric {
        let view = see(places, storage, place)?;
        return Ok(holds_digits(view.kind, bytes_of(storage, view.span)));
    }
    let bytes = place_bytes(places, storage, place)?;
    Ok(is_alphabetic(bytes))
}

/// Whether bytes of a kind are NUMERIC.
fn holds_digits(kind: Kind, bytes: &[u8]) -> bool
    requires long { IsLong kind (length bytes.now) }
    ensures { (picture : Option Picture) → result ≡ meant.is_numeric_text (kind_with kind picture) bytes.now }
{
    match kind {
        Kind::Group => is_digits(bytes),
        Kind::Text => is_digits(bytes),
        Kind::Edited { form: _ } => is_digits(bytes),
        Kind::Number { usage, form } => is_numeric(bytes, usage, form),
    }
}
