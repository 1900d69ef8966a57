ghost use Rattle.std.specs.Prelude.{◌≡◌, ◌+◌, ◌≤◌, length, Some, None, MatchResult};
ghost use Rattle.std.specs.Option.{option_map};
ghost use Rattle.year_image.specs.Piece.{grown_size};
ghost use Rattle.byte_lists.specs.Part.{part, with_part};
ghost use Rattle.file_convert.specs.Cuts.{piece_of, pieces, IsFitting, IsInOrder};
ghost use Rattle.year_ageing.specs.Years as spec;
ghost use Rattle.year_ageing.specs.Records.{changed, first_fault, side_length, spot_fault};
ghost use Rattle.year_ageing.specs.declared.side.Side.TheVariants as sides;
ghost use Rattle.year_ageing.specs.declared.task.Task.TheVariants as tasks;

use crate::cut::{age_cut, cut_fault};
use crate::fault::{AgeFault, AgeKind};
use crate::side::{Side, side_width};
use crate::task::{Task, task_side};
use file_convert::{Cut, Cuts};

/// A cut at fault: where it begins, and how many bytes it has.
#[derive(Clone, Copy, PartialEq, Eq, Debug)]
pub struct Spot {
    pub kind: AgeKind,
    pub offset: u32,
    pub width: u32,
}

/// What is wrong with a cut that begins at that place and has that many bytes.
fn fault_in(task: Task, cut: &Cut, bytes: &[u8], start: u32, width: u32) -> Option<AgeKind>
    requires fits { IsFitting (piece_of cut.now) }
    requires size { width ≡ spec.side_width (spec.task_side task) (piece_of cut.now) }
    requires inside { start + width ≤ length bytes.now }
    ensures { result ≡ spec.fault_of task (piece_of cut.now) (part bytes.now start width) }
{
    let end = start as usize + width as usize;
    cut_fault(task, cut, &bytes[start as usize..end])
}

/// The first cut at fault.
pub(crate) fn find_fault(task: Task, cuts: &Cuts, bytes: &[u8]) -> Option<Spot>
    requires order { IsInOrder cuts.now }
    requires long { length bytes.now ≡ side_length (spec.task_side task) cuts.now }
    ensures { result ≡ first_fault task cuts.now bytes.now }
{
    let side = task_side(task);
    let mut from = 0u32;
    let mut to = 0u32;
    for cut in cuts.list.items() {
        let start = to + (cut.offset - from);
        let width = side_width(side, cut);
        match fault_in(task, cut, bytes, start, width) {
            Some(kind) => {
                return Some(Spot {
                    kind,
                    offset: start,
                    width,
                });
            }
            None => {}
        }
        to = start + width;
        from = cut.offset + side_width(Side::Old, cut);
    }
    None
}

/// Moves the year of a cut that begins at that place.
fn age_in(side: Side, years: i8, cut: &Cut, bytes: &mut [u8], start: u32)
    requires fits { IsFitting (piece_of cut.now) }
    requires inside { start + spec.side_width side (piece_of cut.now) ≤ length bytes.old }
    ensures { bytes.new ≡ with_part bytes.old start (spec.aged side years (piece_of cut.now) (part bytes.old start (spec.side_width side (piece_of cut.now)))) }
{
    let end = start as usize + side_width(side, cut) as usize;
    age_cut(side, years, cut, &mut bytes[start as usize..end]);
}

/// Moves the years of a record of one side.
pub(crate) fn age_cuts(side: Side, years: i8, cuts: &Cuts, bytes: &mut [u8])
    requires order { IsInOrder cuts.now }
    requires long { length bytes.old ≡ side_length side cuts.now }
    ensures { bytes.new ≡ changed (tasks.Age side years) cuts.now bytes.old }
{
    let mut from = 0u32;
    let mut to = 0u32;
    for cut in cuts.list.items() {
        let start = to + (cut.offset - from);
        age_in(side, years, cut, bytes, start);
        to = start + side_width(side, cut);
        from = cut.offset + side_width(Side::Old, cut);
    }
}

/// Moves the years of a record of one side, and else names the first cut at fault.
fn age_bytes(side: Side, years: i8, cuts: &Cuts, bytes: &mut [u8]) -> Result<(), AgeFault>
    requires order { IsInOrder cuts.now }
    requires long { length bytes.old ≡ side_length side cuts.now }
    ensures first { MatchResult result (λ _. first_fault (tasks.Age side years) cuts.now bytes.old ≡ None) (λ fault. option_map spot_fault (first_fault (tasks.Age side years) cuts.now bytes.old) ≡ Some fault) }
    ensures aged { MatchResult result (λ _. bytes.new ≡ changed (tasks.Age side years) cuts.now bytes.old) (λ _. bytes.new ≡ bytes.old) }
{
    match find_fault(Task::Age { side, years }, cuts, bytes) {
        Some(spot) => Err(AgeFault {
            kind: spot.kind,
            offset: spot.offset,
        }),
        None => {
            age_cuts(side, years, cuts, bytes);
            Ok(())
        }
    }
}

/// Moves the years of a record of two-digit years, and else names the first cut at fault. It takes no memory.
pub fn age_record(cuts: &Cuts, years: i8, bytes: &mut [u8]) -> Result<(), AgeFault>
    requires order { IsInOrder cuts.now }
    requires long { length bytes.old ≡ cuts.now.length }
    ensures first { MatchResult result (λ _. first_fault (tasks.Age sides.Old years) cuts.now bytes.old ≡ None) (λ fault. option_map spot_fault (first_fault (tasks.Age sides.Old years) cuts.now bytes.old) ≡ Some fault) }
    ensures aged { MatchResult result (λ _. bytes.new ≡ changed (tasks.Age sides.Old years) cuts.now bytes.old) (λ _. bytes.new ≡ bytes.old) }
{
    age_bytes(Side::Old, years, cuts, bytes)
}

/// Moves the years of the image of a record, and else names the first cut at fault. It takes no memory.
pub fn age_image_record(cuts: &Cuts, years: i8, bytes: &mut [u8]) -> Result<(), AgeFault>
    requires order { IsInOrder cuts.now }
    requires long { length bytes.old ≡ grown_size (pieces cuts.now) }
    ensures first { MatchResult result (λ _. first_fault (tasks.Age sides.New years) cuts.now bytes.old ≡ None) (λ fault. option_map spot_fault (first_fault (tasks.Age sides.New years) cuts.now bytes.old) ≡ Some fault) }
    ensures aged { MatchResult result (λ _. bytes.new ≡ changed (tasks.Age sides.New years) cuts.now bytes.old) (λ _. bytes.new ≡ bytes.old) }
{
    age_bytes(Side::New, years, cuts, bytes)
}
