ghost use Rattle.std.specs.Prelude.{◌≡◌, ◌++◌, IfOk, OnOk, codes, decimal, string_bytes};
ghost use Rattle.reports.specs.Limits as spec;

use crate::labels::decimal_text;
use crate::names::{AreaName, area_names, name_at};
use crate::places::push_place;
use data_layout::Portfolio;
use plan_limits::{Kept, Limit, LimitKind};
use std::alloc::{AllocError, Global};
use y2k_base::{BytePlace, Bytes, List, Memory, Texts};

/// The line of a limit: `limit KIND FILE:LINE:COLUMN KEPT`. A place is kept as its program, its area and its offset, a number
/// in decimal, and a word as it is. The form of the line is this project's choice.
pub fn limit_line(
    alloc: Global,
    texts: &Texts,
    portfolio: &Portfolio,
    limit: &Limit,
) -> Result<Bytes, Memory>
    ensures { IfOk result (λ line. line ≡ spec.limit_line texts.now portfolio.now limit.now) }
{
    let mut line = List::new(alloc);
    push_kind(&mut line, limit.kind)?;
    push_place(alloc, &mut line, texts.list.items(), limit.at)?;
    push_shown(alloc, &mut line, portfolio, &limit.kept)?;
    Ok(line)
}

fn push_kind(line: &mut Bytes, kind: LimitKind) -> Result<(), Memory>
    ensures { OnOk result (line.new ≡ line.old ++ spec.kind_part kind) }
{
    line.append("limit ".as_bytes())?;
    line.append(kind_text(kind).as_bytes())?;
    line.append(" ".as_bytes())
}

fn push_shown(
    alloc: Global,
    line: &mut Bytes,
    portfolio: &Portfolio,
    kept: &Kept,
) -> Result<(), Memory>
    ensures { OnOk result (line.new ≡ line.old ++ spec.shown portfolio.now kept.now) }
{
    let names = area_names(alloc, portfolio)?;
    line.append(" ".as_bytes())?;
    push_kept(alloc, line, names.items(), kept)?;
    line.append("\n".as_bytes())
}

fn push_kept(alloc: Global, line: &mut Bytes, names: &[AreaName], kept: &Kept) -> Result<(), Memory>
    ensures { OnOk result (line.new ≡ line.old ++ spec.kept_text names.now kept.now) }
{
    match kept {
        Kept::Place(place) => push_byte_place(alloc, line, names, *place),
        Kept::Number(number) => {
            let text = number_text(alloc, *number)?;
            line.append(text.as_bytes())
        }
        Kept::Word(word) => line.append(word.items()),
        Kept::Words(first, second) => {
            line.append(first.items())?;
            line.append(" ".as_bytes())?;
            line.append(second.items())
        }
    }
}

fn push_byte_place(
    alloc: Global,
    line: &mut Bytes,
    names: &[AreaName],
    place: BytePlace,
) -> Result<(), Memory>
    ensures { OnOk result (line.new ≡ line.old ++ spec.byte_place_text names.now place) }
{
    let (program, area) = name_at(names, place.area);
    let offset = decimal_text(alloc, place.offset as usize)?;
    line.append(program)?;
    line.append(" ".as_bytes())?;
    line.append(area)?;
    line.append(" ".as_bytes())?;
    line.append(offset.as_bytes())
}

fn number_text(alloc: Global, number: u64) -> Result<String, AllocError>
    ensures { IfOk result (λ text. string_bytes text ≡ decimal number) }
{
    format!(in alloc; "{number}")
}

fn kind_text(kind: LimitKind) -> &'static str
    ensures { result.now ≡ spec.kind_text kind }
{
    match kind {
        LimitKind::SplitYear => "SplitYear",
        LimitKind::ShapeMix => "ShapeMix",
        LimitKind::Undecided => "Undecided",
        LimitKind::TooManyDigits => "TooManyDigits",
        LimitKind::PictureFull => "PictureFull",
        LimitKind::BadYearLiteral => "BadYearLiteral",
        LimitKind::LiteralFull => "LiteralFull",
        LimitKind::PackedOrder => "PackedOrder",
        LimitKind::AreaFull => "AreaFull",
        LimitKind::NameTaken => "NameTaken",
        LimitKind::WindowShape => "WindowShape",
        LimitKind::LiteralOutsideWindow => "LiteralOutsideWindow",
        LimitKind::RangeAcrossPivot => "RangeAcrossPivot",
        LimitKind::SizeErrorInWindow => "SizeErrorInWindow",
        LimitKind::MixedCompare => "MixedCompare",
        LimitKind::PivotClash => "PivotClash",
        LimitKind::CopyClash => "CopyClash",
        LimitKind::LowLiteral => "LowLiteral",
    }
}
