ghost use Rattle.std.specs.Prelude.{◌≡◌, ◌++◌, IfOk, OnOk, codes, decimal};
ghost use Rattle.answers.specs.Lines.{refused_name_line, refused_place_line, shelf_fault_line};

use std::alloc::Global;
use y2k_base::{Bytes, List, Memory};

/// The line of a refusal that names a file, a key or an item.
pub fn refused_name(alloc: Global, kind: &str, name: &[u8]) -> Result<Bytes, Memory>
    ensures { IfOk result (λ line. line ≡ refused_name_line kind.now name.now) }
{
    let mut line = List::new(alloc);
    line.append("refused ".as_bytes())?;
    line.append(kind.as_bytes())?;
    line.append(" ".as_bytes())?;
    line.append(name)?;
    line.append("\n".as_bytes())?;
    Ok(line)
}

/// Adds a place in a text.
fn add_place(alloc: Global, text: &mut Bytes, line: u32, column: u32) -> Result<(), Memory>
    ensures { OnOk result (text.new ≡ text.old ++ (codes ":" ++ (decimal line ++ (codes ":" ++ (decimal column ++ codes "\n"))))) }
{
    let place = format!(in alloc; ":{line}:{column}\n")?;
    text.append(place.as_bytes())
}

/// The line of a refusal that names a place in a text.
pub fn refused_place(
    alloc: Global,
    kind: &str,
    name: &[u8],
    line: u32,
    column: u32,
) -> Result<Bytes, Memory>
    ensures { IfOk result (λ text. text ≡ refused_place_line kind.now name.now line column) }
{
    let mut text = List::new(alloc);
    text.append("refused ".as_bytes())?;
    text.append(kind.as_bytes())?;
    text.append(" ".as_bytes())?;
    text.append(name)?;
    add_place(alloc, &mut text, line, column)?;
    Ok(text)
}

/// The line of a call of the shelf that failed.
pub fn shelf_fault(alloc: Global, name: &[u8]) -> Result<Bytes, Memory>
    ensures { IfOk result (λ line. line ≡ shelf_fault_line name.now) }
{
    let mut line = List::new(alloc);
    line.append("shelf fault ".as_bytes())?;
    line.append(name)?;
    line.append("\n".as_bytes())?;
    Ok(line)
}
