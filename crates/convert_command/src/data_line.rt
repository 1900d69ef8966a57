ghost use Rattle.std.specs.Prelude.{◌≡◌, ◌≢◌};
ghost use Rattle.convert_command.specs.Status as spec;

use answers::{NO_MEMORY, REFUSED, SHELF_FAULT, refused_name, shelf_fault};
use data_conversion::DataFault;
use std::alloc::Global;
use y2k_base::{Bytes, List, Memory};

/// A data file has no image.
const DATA_FAULT: u8 = 5;

pub(crate) fn data_status(fault: &DataFault) -> u8
    ensures status { result ≡ spec.status_of fault.now }
    ensures form { result ≢ 2 }
    ensures printed { result ≢ 7 }
{
    match fault {
        DataFault::TooLarge(_) => REFUSED,
        DataFault::Untame {
            external: _,
            row: _,
            offset: _,
            bytes: _,
        } => DATA_FAULT,
        DataFault::PartialRecord {
            external: _,
            left: _,
        } => DATA_FAULT,
        DataFault::Shelf(_) => SHELF_FAULT,
        DataFault::Memory => NO_MEMORY,
    }
}

/// The line of a data file's fault.
pub(crate) fn data_line(alloc: Global, fault: &DataFault) -> Result<Bytes, Memory> {
    match fault {
        DataFault::TooLarge(name) => refused_name(alloc, "TooLarge", name.items()),
        DataFault::Untame {
            external,
            row,
            offset,
            bytes,
        } => untame_line(alloc, external.items(), *row, *offset, bytes.items()),
        DataFault::PartialRecord { external, left } => {
            partial_line(alloc, external.items(), *left)
        }
        DataFault::Shelf(name) => shelf_fault(alloc, name.items()),
        DataFault::Memory => Ok(List::new(alloc)),
    }
}

fn untame_line(
    alloc: Global,
    external: &[u8],
    row: u64,
    offset: u32,
    bytes: &[u8],
) -> Result<Bytes, Memory> {
    let mut line = List::new(alloc);
    line.append("data Untame ".as_bytes())?;
    line.append(external)?;
    add_record(alloc, &mut line, row, offset)?;
    add_digits(&mut line, bytes)?;
    line.append("\n".as_bytes())?;
    Ok(line)
}

fn add_record(alloc: Global, line: &mut Bytes, row: u64, offset: u32) -> Result<(), Memory> {
    let text = format!(in alloc; " record {row} offset {offset} bytes ")?;
    line.append(text.as_bytes())
}

/// Adds two hexadecimal digits for each byte.
fn add_digits(line: &mut Bytes, bytes: &[u8]) -> Result<(), Memory> {
    let mut rest = bytes;
    while let [byte, more @ ..] = rest {
        line.push(digit(*byte / 16))?;
        line.push(digit(*byte % 16))?;
        rest = more;
    }
    Ok(())
}

/// The hexadecimal digit of a number below 16, a letter in capitals.
fn digit(number: u8) -> u8 {
    if number < 10 {
        b'0'.saturating_add(number)
    } else {
        b'A'.saturating_add(number - 10)
    }
}

fn partial_line(alloc: Global, external: &[u8], left: u32) -> Result<Bytes, Memory> {
    let mut line = List::new(alloc);
    line.append("data PartialRecord ".as_bytes())?;
    line.append(external)?;
    add_left(alloc, &mut line, left)?;
    Ok(line)
}

fn add_left(alloc: Global, line: &mut Bytes, left: u32) -> Result<(), Memory> {
    let text = format!(in alloc; " left {left}\n")?;
    line.append(text.as_bytes())
}
