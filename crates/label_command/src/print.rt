ghost use Rattle.std.specs.Prelude.{◌≡◌, ◌++◌, IfOk, OnOk, slice_get, string_bytes};
ghost use Rattle.label_command.specs.Lines.{area_text, label_text, line_of, line_rest, lines_of, name_text};

use data_layout::Area;
use std::alloc::{AllocError, Global};
use y2k_base::{Bytes, List, Memory};
use year_labels::{Fact, Label, Labelling};

/// A line for each fact, in order.
pub(crate) fn label_lines(
    alloc: Global,
    areas: &[Area],
    labelling: &Labelling,
) -> Result<Bytes, Memory>
    ensures { IfOk result (λ text. text ≡ lines_of areas.now labelling.now) }
{
    let mut text = List::new(alloc);
    for i in 0..labelling.count() {
        match labelling.at(i) {
            Some(fact) => push_line(alloc, &mut text, areas, fact)?,
            None => return Ok(text),
        }
    }
    Ok(text)
}

/// Adds the line of a fact.
fn push_line(alloc: Global, text: &mut Bytes, areas: &[Area], fact: Fact) -> Result<(), Memory>
    ensures { OnOk result (text.new ≡ text.old ++ line_of areas.now fact) }
{
    push_area(text, areas, fact.place.area.0)?;
    let rest = rest_of_line(alloc, fact.place.offset, fact.label)?;
    text.append(rest.as_bytes())
}

fn push_area(text: &mut Bytes, areas: &[Area], area: u32) -> Result<(), Memory>
    ensures { OnOk result (text.new ≡ text.old ++ area_text (slice_get areas.now area)) }
{
    match areas.get(area as usize) {
        Some(area) => push_name(text, &area.name),
        None => Ok(()),
    }
}

fn push_name(text: &mut Bytes, name: &Option<Bytes>) -> Result<(), Memory>
    ensures { OnOk result (text.new ≡ text.old ++ name_text name.now) }
{
    match name {
        Some(name) => text.append(name.items()),
        None => text.append("FILLER".as_bytes()),
    }
}

fn rest_of_line(alloc: Global, offset: u32, label: Label) -> Result<String, AllocError>
    ensures { IfOk result (λ s. string_bytes s ≡ line_rest offset label) }
{
    let code = label_code(alloc, label)?;
    let text = format!(in alloc; " {offset} {code}\n")?;
    Ok(text)
}

fn label_code(alloc: Global, label: Label) -> Result<String, AllocError>
    ensures { IfOk result (λ s. string_bytes s ≡ label_text label) }
{
    match label {
        Label::Tens => String::from_str(alloc, "T"),
        Label::Units => String::from_str(alloc, "U"),
        Label::Plain => String::from_str(alloc, "P"),
        Label::Packed { digits, unit, byte } => format!(in alloc; "K{digits}.{unit}.{byte}"),
    }
}
