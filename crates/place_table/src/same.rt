ghost use Rattle.std.specs.Prelude.{◌≡◌, IsTrue, Some, map};
ghost use Rattle.tree_reading.specs.Reading.{read_place, read_sub, sub_if, part_if};

use cobol_syntax::{Part, Place, Sub};
use y2k_base::Bytes;

/// Whether two places have the same names, subscripts and reference, wherever they stand.
pub(crate) fn same_place(left: &Place, right: &Place) -> bool
    ensures same { IsTrue result → read_place left.now ≡ read_place right.now }
    ensures all { read_place left.now ≡ read_place right.now → IsTrue result }
{
    same_names(left.names.items(), right.names.items())
        && same_subs(left.subs.items(), right.subs.items())
        && same_cut(&left.cut, &right.cut)
}

fn same_names(left: &[Bytes], right: &[Bytes]) -> bool
    ensures same { IsTrue result → left.now ≡ right.now }
    ensures all { left.now ≡ right.now → IsTrue result }
{
    match left {
        [] => right.is_empty(),
        [name, names @ ..] => match right {
            [] => false,
            [other, others @ ..] => same_name(name, other) && same_names(names, others),
        },
    }
}

fn same_name(left: &Bytes, right: &Bytes) -> bool
    ensures same { IsTrue result → left.now ≡ right.now }
    ensures all { left.now ≡ right.now → IsTrue result }
{
    left.items() == right.items()
}

fn same_subs(left: &[Sub], right: &[Sub]) -> bool
    ensures same { IsTrue result → map read_sub left.now ≡ map read_sub right.now }
    ensures all { map read_sub left.now ≡ map read_sub right.now → IsTrue result }
{
    match left {
        [] => right.is_empty(),
        [sub, subs @ ..] => match right {
            [] => false,
            [other, others @ ..] => same_sub(sub, other) && same_subs(subs, others),
        },
    }
}

fn same_sub(left: &Sub, right: &Sub) -> bool
    ensures same { IsTrue result → read_sub left.now ≡ read_sub right.now }
    ensures all { read_sub left.now ≡ read_sub right.now → IsTrue result }
{
    match left {
        Sub::Number { value, at: _ } => match right {
            Sub::Number {
                value: other,
                at: _,
            } => value == other,
            Sub::Name(_) => false,
        },
        Sub::Name(names) => match right {
            Sub::Number { value: _, at: _ } => false,
            Sub::Name(others) => same_names(names.items(), others.items()),
        },
    }
}

fn same_cut(left: &Option<Part>, right: &Option<Part>) -> bool
    ensures same { IsTrue result → part_if left.now ≡ part_if right.now }
    ensures all { part_if left.now ≡ part_if right.now → IsTrue result }
{
    match left {
        None => right.is_none(),
        Some(part) => match right {
            None => false,
            Some(other) => same_part(part, other),
        },
    }
}

fn same_part(left: &Part, right: &Part) -> bool
    ensures same { IsTrue result → part_if (Some left.now) ≡ part_if (Some right.now) }
    ensures all { part_if (Some left.now) ≡ part_if (Some right.now) → IsTrue result }
{
    same_sub(&left.start, &right.start) && same_length(&left.length, &right.length)
}

fn same_length(left: &Option<Sub>, right: &Option<Sub>) -> bool
    ensures same { IsTrue result → sub_if left.now ≡ sub_if right.now }
    ensures all { sub_if left.now ≡ sub_if right.now → IsTrue result }
{
    match left {
        None => right.is_none(),
        Some(sub) => match right {
            None => false,
            Some(other) => same_sub(sub, other),
        },
    }
}
