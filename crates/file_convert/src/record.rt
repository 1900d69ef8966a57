ghost use Rattle.std.specs.Prelude.{◌≡◌, ◌↔◌, IsTrue, is_ok, ◌+◌, ◌-◌, ◌≤◌, ◌++◌, length, Some, None, IfSome, MatchResult};
ghost use Rattle.std.specs.Option.{option_map};
ghost use Rattle.year_image.specs.Piece.{width, grown_width, grown_size};
ghost use Rattle.year_image.specs.Image.{IsTame, grow, image, tame};
ghost use Rattle.byte_lists.specs.Part.{part, with_part};
ghost use Rattle.file_convert.specs.Cuts.{piece_of, pieces, covered, is_tame_at, first_untame, IsFitting, IsInOrder};

use crate::bytes::copy_at;
use crate::cut::{Cut, CutKind, Cuts};
use crate::packed::{packed_is_tame, write_packed};
use crate::pair::{pair_is_tame, write_pair};

/// A cut of a record is not tame, the one that begins at this offset.
#[derive(Clone, Copy, PartialEq, Eq, Debug)]
pub struct Untame {
    pub offset: u32,
}

fn cut_is_tame(cut: &Cut, bytes: &[u8]) -> bool
    requires fits { IsFitting (piece_of cut.now) }
    requires long { length bytes.now ≡ width (piece_of cut.now) }
    ensures { result ≡ tame 48 (piece_of cut.now) bytes.now }
{
    match cut.kind {
        CutKind::Pair => pair_is_tame(cut.pivot, bytes),
        CutKind::Packed { digits, unit } => packed_is_tame(digits, unit, cut.pivot, bytes),
    }
}

fn write_grown(cut: &Cut, bytes: &[u8], into: &mut [u8], at: usize)
    requires fits { IsFitting (piece_of cut.now) }
    requires long { length bytes.now ≡ width (piece_of cut.now) }
    requires room { at + grown_width (piece_of cut.now) ≤ length into.old }
    ensures { into.new ≡ with_part into.old at (grow 48 (piece_of cut.now) bytes.now) }
{
    match cut.pivot {
        Some(_) => copy_at(into, at, bytes),
        None => match cut.kind {
            CutKind::Pair => write_pair(bytes, into, at),
            CutKind::Packed { digits, unit } => write_packed(digits, unit, bytes, into, at),
        },
    }
}

/// The bytes of a record that the cut covers.
pub(crate) fn covered_by<'a>(cut: &Cut, source: &'a [u8]) -> &'a [u8]
    requires { cut.now.offset + width (piece_of cut.now) ≤ length source.now }
    ensures { result.now ≡ covered cut.now source.now }
{
    let start = cut.offset as usize;
    &source[start..start + cut.width()]
}

fn is_tame_in(cut: &Cut, source: &[u8]) -> bool
    requires fits { IsFitting (piece_of cut.now) }
    requires inside { cut.now.offset + width (piece_of cut.now) ≤ length source.now }
    ensures { result ≡ is_tame_at cut.now source.now }
{
    cut_is_tame(cut, covered_by(cut, source))
}

/// The first cut that is not tame.
pub(crate) fn find_untame(cuts: &Cuts, source: &[u8]) -> Option<Cut>
    requires order { IsInOrder cuts.now }
    requires long { length source.now ≡ cuts.now.length }
    ensures { result ≡ first_untame cuts.now.list source.now }
{
    for cut in cuts.list.items() {
        if !is_tame_in(cut, source) {
            return Some(*cut);
        }
    }
    None
}

/// Writes the bytes from `from` up to a cut, and the image of the cut.
fn write_next(cut: &Cut, source: &[u8], into: &mut [u8], from: usize, to: usize)
    requires fits { IsFitting (piece_of cut.now) }
    requires order { from ≤ cut.now.offset }
    requires inside { cut.now.offset + width (piece_of cut.now) ≤ length source.now }
    requires room { to + (cut.now.offset - from) + grown_width (piece_of cut.now) ≤ length into.old }
    ensures { into.new ≡ with_part into.old to (part source.now from (cut.now.offset - from) ++ grow 48 (piece_of cut.now) (covered cut.now source.now)) }
{
    let start = cut.offset as usize;
    copy_at(into, to, &source[from..start]);
    write_grown(cut, covered_by(cut, source), into, to + (start - from));
}

fn write_image(cuts: &Cuts, source: &[u8], into: &mut [u8])
    requires order { IsInOrder cuts.now }
    requires long { length source.now ≡ cuts.now.length }
    requires room { length into.old ≡ grown_size (pieces cuts.now) }
    ensures { into.new ≡ image 48 (pieces cuts.now) source.now }
{
    let mut from = 0;
    let mut to = 0;
    for cut in cuts.list.items() {
        write_next(cut, source, into, from, to);
        to += cut.offset as usize - from + cut.grown_width();
        from = cut.offset as usize + cut.width();
    }
    copy_at(into, to, &source[from..]);
}

/// Writes the image of a record that is tame, and else answers the first cut that is not.
pub(crate) fn write_tame(cuts: &Cuts, source: &[u8], into: &mut [u8]) -> Option<Cut>
    requires order { IsInOrder cuts.now }
    requires long { length source.now ≡ cuts.now.length }
    requires room { length into.old ≡ grown_size (pieces cuts.now) }
    ensures found { result ≡ first_untame cuts.now.list source.now }
    ensures tame { (result ≡ None) ↔ IsTame 48 (pieces cuts.now) source.now }
    ensures written { result ≡ None → into.new ≡ image 48 (pieces cuts.now) source.now }
    ensures unchanged { IfSome result (λ _. into.new ≡ into.old) }
{
    match find_untame(cuts, source) {
        Some(cut) => Some(cut),
        None => {
            write_image(cuts, source, into);
            None
        }
    }
}

/// Writes the image of a record that is tame, and else names the first cut that is not. It takes no memory.
pub fn image_record(cuts: &Cuts, source: &[u8], into: &mut [u8]) -> Result<(), Untame>
    requires order { IsInOrder cuts.now }
    requires long { length source.now ≡ cuts.now.length }
    requires room { length into.old ≡ grown_size (pieces cuts.now) }
    ensures first { MatchResult result (λ _. first_untame cuts.now.list source.now ≡ None) (λ untame. option_map (λ cut. cut.offset) (first_untame cuts.now.list source.now) ≡ Some untame.offset) }
    ensures tame { IsTrue (is_ok result) ↔ IsTame 48 (pieces cuts.now) source.now }
    ensures written { MatchResult result (λ _. into.new ≡ image 48 (pieces cuts.now) source.now) (λ _. into.new ≡ into.old) }
{
    match write_tame(cuts, source, into) {
        Some(cut) => Err(Untame { offset: cut.offset }),
        None => Ok(()),
    }
}
