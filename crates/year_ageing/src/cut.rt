ghost use Rattle.std.specs.Prelude.{◌≡◌, ◌≤◌, length, IfSome};
ghost use Rattle.year_image.specs.Piece.{width, grown_width};
ghost use Rattle.file_convert.specs.Cuts.{piece_of, IsFitting};
ghost use Rattle.year_ageing.specs.Years as spec;
ghost use Rattle.year_ageing.specs.declared.side.Side.TheVariants as sides;
ghost use Rattle.year_ageing.specs.declared.task.Task.TheVariants as tasks;

use crate::fault::AgeKind;
use crate::packed::{packed_is_image, packed_is_tame, packed_year, set_packed_year};
use crate::pair::{lowest, moved, pair_is_image, pair_is_tame, set_text_year, text_year};
use crate::side::{Side, extra};
use crate::task::Task;
use file_convert::{Cut, CutKind};

fn cut_is_tame(cut: &Cut, bytes: &[u8]) -> bool
    requires fits { IsFitting (piece_of cut.now) }
    requires long { length bytes.now ≡ width (piece_of cut.now) }
    ensures { result ≡ spec.is_formed sides.Old (piece_of cut.now) bytes.now }
{
    match cut.kind {
        CutKind::Pair => pair_is_tame(cut.pivot, bytes),
        CutKind::Packed { digits, unit } => packed_is_tame(digits, unit, cut.pivot, bytes),
    }
}

fn cut_is_image(cut: &Cut, bytes: &[u8]) -> bool
    requires fits { IsFitting (piece_of cut.now) }
    requires long { length bytes.now ≡ grown_width (piece_of cut.now) }
    ensures { result ≡ spec.is_image (piece_of cut.now) bytes.now }
{
    match cut.kind {
        CutKind::Pair => match cut.pivot {
            None => pair_is_image(bytes),
            Some(_) => pair_is_tame(cut.pivot, bytes),
        },
        CutKind::Packed { digits, unit } => match cut.pivot {
            None => packed_is_image(digits, unit, bytes),
            Some(_) => packed_is_tame(digits, unit, cut.pivot, bytes),
        },
    }
}

fn cut_is_formed(side: Side, cut: &Cut, bytes: &[u8]) -> bool
    requires fits { IsFitting (piece_of cut.now) }
    requires long { length bytes.now ≡ spec.side_width side (piece_of cut.now) }
    ensures { result ≡ spec.is_formed side (piece_of cut.now) bytes.now }
{
    match side {
        Side::Old => cut_is_tame(cut, bytes),
        Side::New => cut_is_image(cut, bytes),
    }
}

/// The last two digits of a year, where a cut holds digits.
fn year_of(side: Side, cut: &Cut, bytes: &[u8]) -> Option<u8>
    requires fits { IsFitting (piece_of cut.now) }
    requires long { length bytes.now ≡ spec.side_width side (piece_of cut.now) }
    ensures { result ≡ spec.year_of side (piece_of cut.now) bytes.now }
{
    let more = extra(side, cut.pivot);
    match cut.kind {
        CutKind::Pair => text_year(bytes, more as usize),
        CutKind::Packed { digits, unit } => packed_year(digits + more, unit, bytes),
    }
}

/// The year that a cut gets, where it holds one and it stays in its range.
fn new_year(side: Side, years: i8, cut: &Cut, bytes: &[u8]) -> Option<u8>
    requires fits { IsFitting (piece_of cut.now) }
    requires long { length bytes.now ≡ spec.side_width side (piece_of cut.now) }
    ensures year { result ≡ spec.new_year side years (piece_of cut.now) bytes.now }
    ensures small { IfSome result (λ year. year ≤ 99) }
{
    match year_of(side, cut, bytes) {
        None => None,
        Some(year) => moved(lowest(cut.pivot), years, year),
    }
}

fn set_year(side: Side, cut: &Cut, year: u8, bytes: &mut [u8])
    requires fits { IsFitting (piece_of cut.now) }
    requires small { year ≤ 99 }
    requires long { length bytes.old ≡ spec.side_width side (piece_of cut.now) }
    ensures { bytes.new ≡ spec.with_year side (piece_of cut.now) year bytes.old }
{
    let more = extra(side, cut.pivot);
    match cut.kind {
        CutKind::Pair => set_text_year(bytes, more as usize, year),
        CutKind::Packed { digits, unit } => set_packed_year(digits + more, unit, bytes, year),
    }
}

/// Moves the year of a cut.
pub(crate) fn age_cut(side: Side, years: i8, cut: &Cut, bytes: &mut [u8])
    requires fits { IsFitting (piece_of cut.now) }
    requires long { length bytes.old ≡ spec.side_width side (piece_of cut.now) }
    ensures { bytes.new ≡ spec.aged side years (piece_of cut.now) bytes.old }
{
    match new_year(side, years, cut, bytes) {
        None => {}
        Some(year) => set_year(side, cut, year, bytes),
    }
}

/// What is wrong with a cut whose year is moved.
fn age_fault(side: Side, years: i8, cut: &Cut, bytes: &[u8]) -> Option<AgeKind>
    requires fits { IsFitting (piece_of cut.now) }
    requires long { length bytes.now ≡ spec.side_width side (piece_of cut.now) }
    ensures { result ≡ spec.fault_of (tasks.Age side years) (piece_of cut.now) bytes.now }
{
    if cut_is_formed(side, cut, bytes) {
        moving_fault(lowest(cut.pivot), years, year_of(side, cut, bytes))
    } else {
        Some(misfit(side))
    }
}

fn moving_fault(low: u8, years: i8, year: Option<u8>) -> Option<AgeKind>
    ensures { result ≡ spec.moving_fault low years year }
{
    match year {
        None => None,
        Some(year) => match moved(low, years, year) {
            None => Some(AgeKind::YearRange),
            Some(_) => None,
        },
    }
}

fn misfit(side: Side) -> AgeKind
    ensures { result ≡ spec.misfit side }
{
    match side {
        Side::Old => AgeKind::Untame,
        Side::New => AgeKind::NotImage,
    }
}

/// What is wrong with a cut.
pub(crate) fn cut_fault(task: Task, cut: &Cut, bytes: &[u8]) -> Option<AgeKind>
    requires fits { IsFitting (piece_of cut.now) }
    requires long { length bytes.now ≡ spec.side_width (spec.task_side task) (piece_of cut.now) }
    ensures { result ≡ spec.fault_of task (piece_of cut.now) bytes.now }
{
    match task {
        Task::Age { side, years } => age_fault(side, years, cut, bytes),
        Task::Contract => contract_fault(cut, bytes),
    }
}

fn contract_fault(cut: &Cut, bytes: &[u8]) -> Option<AgeKind>
    requires fits { IsFitting (piece_of cut.now) }
    requires long { length bytes.now ≡ grown_width (piece_of cut.now) }
    ensures { result ≡ spec.fault_of tasks.Contract (piece_of cut.now) bytes.now }
{
    if cut_is_image(cut, bytes) {
        None
    } else {
        Some(AgeKind::NotImage)
    }
}
