ghost use Rattle.std.specs.Prelude.{◌≡◌, ◌≢◌, ◌<◌, ◌≤◌, IfOk, IfErr, IfSome, OnOk};
ghost use Rattle.std.specs.Option.{option_map};
ghost use Rattle.shelf.specs.Contents.{bytes_of};
ghost use Rattle.file_convert.specs.Buffers.{HasRoom};
ghost use Rattle.file_convert.specs.Cuts.{IsInOrder};
ghost use Rattle.file_convert.specs.Faults.{HasConvertFault, HasLeft, IsOfReading, RoseWith};
ghost use Rattle.file_convert.specs.Files.{HasSize, IsTameFile, converted, with_image};

use crate::buffers::Buffers;
use crate::cut::Cuts;
use crate::fault::{ConvertFault, shelf_fault};
use shelf::Shelf;
use std::alloc::Global;

/// How many records a file has, where each of them is tame. A file that is not there has none. One record and
/// its image are held, and the file is read no further than its size was at the start.
pub fn check_file<S: Shelf>(
    alloc: Global,
    shelf: &mut S,
    name: &str,
    cuts: &Cuts,
) -> Result<u64, ConvertFault>
    requires { IsInOrder cuts.now }
    ensures ok { IfOk result (λ count. IfSome (S.told shelf.old) (λ files. IsTameFile cuts.now (bytes_of files name.now) count)) }
    ensures cause { IfErr result (λ fault. IfSome (S.told shelf.old) (λ files. HasConvertFault cuts.now (bytes_of files name.now) fault)) }
    ensures reading { IfErr result IsOfReading }
    ensures rose { IfErr result (λ fault. RoseWith fault (S.faults shelf.old) (S.faults shelf.new)) }
    ensures later { S.faults shelf.old ≤ S.faults shelf.new }
    ensures same { S.told shelf.new ≡ S.told shelf.old }
{
    let size = match shelf.size(name) {
        Ok(Some(size)) => size,
        Ok(None) => return Ok(0),
        Err(error) => return Err(shelf_fault(error, false)),
    };
    let mut buffers = Buffers::new(alloc, cuts)?;
    let count = check_records(alloc, shelf, name, size, cuts, &mut buffers)?;
    Ok(count)
}

/// Writes the image of a file under another name, record by record, and answers how many records it has. A
/// file that is not there has none, and then nothing is written. After a fault the other name holds the images
/// of the records before it, or is as before where it was not yet made.
pub fn convert_file<S: Shelf>(
    alloc: Global,
    shelf: &mut S,
    name: &str,
    to: &str,
    cuts: &Cuts,
) -> Result<u64, ConvertFault>
    requires order { IsInOrder cuts.now }
    requires apart { name.now ≢ to.now }
    ensures ok { IfOk result (λ count. IfSome (S.told shelf.old) (λ files. IsTameFile cuts.now (bytes_of files name.now) count)) }
    ensures written { OnOk result (S.told shelf.new ≡ option_map (converted cuts.now name.now to.now) (S.told shelf.old)) }
    ensures cause { IfErr result (λ fault. IfSome (S.told shelf.old) (λ files. HasConvertFault cuts.now (bytes_of files name.now) fault)) }
    ensures left { IfErr result (HasLeft cuts.now name.now to.now (S.told shelf.old) (S.told shelf.new)) }
    ensures rose { IfErr result (λ fault. RoseWith fault (S.faults shelf.old) (S.faults shelf.new)) }
    ensures later { S.faults shelf.old ≤ S.faults shelf.new }
{
    let size = match shelf.size(name) {
        Ok(Some(size)) => size,
        Ok(None) => return Ok(0),
        Err(error) => return Err(shelf_fault(error, false)),
    };
    let mut buffers = Buffers::new(alloc, cuts)?;
    let count = convert_records(alloc, shelf, name, to, size, cuts, &mut buffers)?;
    Ok(count)
}

/// Reads each record of a file of that size.
fn check_records<S: Shelf>(
    alloc: Global,
    shelf: &mut S,
    name: &str,
    size: u64,
    cuts: &Cuts,
    buffers: &mut Buffers,
) -> Result<u64, ConvertFault>
    requires order { IsInOrder cuts.now }
    requires room { HasRoom cuts.now buffers.old }
    requires size { HasSize size name.now (S.told shelf.old) }
    ensures ok { IfOk result (λ count. IfSome (S.told shelf.old) (λ files. IsTameFile cuts.now (bytes_of files name.now) count)) }
    ensures cause { IfErr result (λ fault. IfSome (S.told shelf.old) (λ files. HasConvertFault cuts.now (bytes_of files name.now) fault)) }
    ensures reading { IfErr result IsOfReading }
    ensures rose { IfErr result (λ fault. RoseWith fault (S.faults shelf.old) (S.faults shelf.new)) }
    ensures later { S.faults shelf.old ≤ S.faults shelf.new }
    ensures same { S.told shelf.new ≡ S.told shelf.old }
{
    let rows = size.div_ceil(cuts.length as u64);
    for index in 0..rows {
        let whole = buffers.read_next(alloc, shelf, name, index, size, cuts)?;
        if !whole {
            return Ok(index);
        }
    }
    Ok(rows)
}

/// Makes the other file, and adds the image of each record of a file of that size.
fn convert_records<S: Shelf>(
    alloc: Global,
    shelf: &mut S,
    name: &str,
    to: &str,
    size: u64,
    cuts: &Cuts,
    buffers: &mut Buffers,
) -> Result<u64, ConvertFault>
    requires order { IsInOrder cuts.now }
    requires apart { name.now ≢ to.now }
    requires room { HasRoom cuts.now buffers.old }
    requires size { HasSize size name.now (S.told shelf.old) }
    ensures ok { IfOk result (λ count. IfSome (S.told shelf.old) (λ files. IsTameFile cuts.now (bytes_of files name.now) count)) }
    ensures written { OnOk result (S.told shelf.new ≡ option_map (with_image cuts.now name.now to.now) (S.told shelf.old)) }
    ensures cause { IfErr result (λ fault. IfSome (S.told shelf.old) (λ files. HasConvertFault cuts.now (bytes_of files name.now) fault)) }
    ensures left { IfErr result (HasLeft cuts.now name.now to.now (S.told shelf.old) (S.told shelf.new)) }
    ensures rose { IfErr result (λ fault. RoseWith fault (S.faults shelf.old) (S.faults shelf.new)) }
    ensures later { S.faults shelf.old ≤ S.faults shelf.new }
{
    match shelf.create(to) {
        Ok(()) => {}
        Err(error) => return Err(shelf_fault(error, true)),
    }
    let rows = size.div_ceil(cuts.length as u64);
    for index in 0..rows {
        let whole = buffers.read_next(alloc, shelf, name, index, size, cuts)?;
        if !whole {
            return Ok(index);
        }
        match shelf.append(to, buffers.image()) {
            Ok(()) => {}
            Err(error) => return Err(shelf_fault(error, true)),
        }
    }
    Ok(rows)
}
