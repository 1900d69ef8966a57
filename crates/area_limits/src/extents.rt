ghost use Rattle.std.specs.Prelude.{◌≡◌, IfOk};
ghost use Rattle.std.specs.List.{find};
ghost use Rattle.statement_rules.specs.Statements.{origin_of};
ghost use Rattle.area_limits.specs.Extents as spec;

use crate::grown::grown;
use data_layout::{Area, Item};
use statement_rules::origin_at;
use y2k_base::{AreaId, FileId, Memory, Origin, Span, Word, WordKind};
use year_index::YearIndex;

/// How many bytes an area has after the conversion.
pub(crate) fn area_length(index: &YearIndex, area: &Area) -> Result<u64, Memory>
    ensures { IfOk result (λ length. length ≡ spec.area_length index.now area.now) }
{
    let span = Span {
        area: area.id,
        offset: 0,
        length: area.length,
    };
    let length = grown(index, span)?;
    Ok(length)
}

/// Whether the item is an 01 or 77 entry of the area with so many bytes after the conversion.
fn is_record(index: &YearIndex, area: AreaId, length: u64, item: &Item) -> Result<bool, Memory>
    ensures { IfOk result (λ is. is ≡ spec.is_record index.now area length item.now) }
{
    if item.parent.is_none() && item.span.area.0 == area.0 {
        let long = grown(index, item.span)?;
        Ok(long == length)
    } else {
        Ok(false)
    }
}

fn nowhere() -> Origin
    ensures { result ≡ origin_of None }
{
    Origin {
        file: FileId(0),
        line: 0,
        column: 0,
    }
}

/// Where the first of the 01 or 77 entries of an area stands that have so many bytes after the conversion.
fn record_origin(
    index: &YearIndex,
    words: &[Word],
    items: &[Item],
    area: AreaId,
    length: u64,
) -> Result<Origin, Memory>
    ensures { IfOk result (λ at. at ≡ spec.item_origin words.now (find (spec.is_record index.now area length) items.now)) }
{
    let mut rest = items;
    while let [item, more @ ..] = rest {
        if is_record(index, area, length, item)? {
            return Ok(origin_at(words, item.entry_at));
        }
        rest = more;
    }
    Ok(nowhere())
}

/// Where an area is refused.
pub(crate) fn area_origin(
    index: &YearIndex,
    words: &[Word],
    items: &[Item],
    area: &Area,
) -> Result<Origin, Memory>
    ensures { IfOk result (λ at. at ≡ spec.area_origin index.now words.now items.now area.now) }
{
    let length = area_length(index, area)?;
    let at = record_origin(index, words, items, area.id, length)?;
    Ok(at)
}

pub(crate) fn is_name(kind: WordKind) -> bool
    ensures { result ≡ spec.is_name kind }
{
    match kind {
        WordKind::Name => true,
        WordKind::Number => false,
        WordKind::Literal => false,
        WordKind::Picture => false,
        WordKind::Mark => false,
    }
}

fn is_procedure(word: &Word) -> bool
    ensures { result ≡ spec.is_procedure word.now }
{
    is_name(word.kind) && word.text.items() == "PROCEDURE".as_bytes()
}

/// Where the header of the procedure division stands.
pub(crate) fn procedure_origin(words: &[Word]) -> Origin
    ensures { result ≡ spec.procedure_origin words.now }
{
    let mut rest = words;
    while let [word, more @ ..] = rest {
        if is_procedure(word) {
            return word.origin;
        }
        rest = more;
    }
    nowhere()
}
