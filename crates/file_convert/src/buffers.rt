ghost use Rattle.std.specs.Prelude.{◌≡◌, ◌+◌, ◌*◌, ◌^◌, ◌<◌, ◌≤◌, IfOk, IfErr, IfSome, length};
ghost use Rattle.year_image.specs.Piece.{width};
ghost use Rattle.shelf.specs.Causes.{HasCause};
ghost use Rattle.shelf.specs.Contents.{bytes_of};
ghost use Rattle.file_convert.specs.Buffers.{HasRoom};
ghost use Rattle.file_convert.specs.Cuts.{piece_of, IsInOrder};
ghost use Rattle.file_convert.specs.Faults.{HasFaultAfter, IsOfReading, IsUntameFault, RoseWith};
ghost use Rattle.file_convert.specs.Files.{HasSize, IsNext, IsReadUpTo};

use crate::cut::{Cut, Cuts};
use crate::fault::{ConvertFault, shelf_fault};
use crate::record::{covered_by, write_tame};
use shelf::{Shelf, ShelfErr};
use std::alloc::Global;
use y2k_base::{List, Memory};

/// Room for one record and for its image.
pub(crate) struct Buffers {
    record: Vec<u8>,
    image: Vec<u8>,
}

impl Drop for Buffers {
    fn drop(self) {
        let Buffers {
            record: _record,
            image: _image,
        } = self;
    }
}

impl Buffers {
    pub(crate) fn new(alloc: Global, cuts: &Cuts) -> Result<Buffers, Memory>
        requires { IsInOrder cuts.now }
        ensures { IfOk result (HasRoom cuts.now) }
    {
        let record = vec![in alloc; 0u8; cuts.length as usize]?;
        let image = vec![in alloc; 0u8; cuts.image_length() as usize]?;
        Ok(Buffers { record, image })
    }

    /// The image of the record that was read last.
    pub(crate) fn image(&self) -> &[u8]
        ensures { result.now ≡ self.now.image.items }
    {
        self.image.as_slice()
    }

    /// Reads the record of that index, from 0 on, of a file of that size, and writes its image. It answers
    /// whether there was a record: a file that has become shorter may have ended.
    pub(crate) fn read_next<S: Shelf>(
        &mut self,
        alloc: Global,
        shelf: &mut S,
        name: &str,
        index: u64,
        size: u64,
        cuts: &Cuts,
    ) -> Result<bool, ConvertFault>
        requires order { IsInOrder cuts.now }
        requires room { HasRoom cuts.now self.old }
        requires within { index * cuts.now.length < size }
        requires size { HasSize size name.now (S.told shelf.old) }
        ensures ok { IfOk result (λ whole. IfSome (S.told shelf.old) (λ files. IsNext cuts.now index (bytes_of files name.now) self.new.image.items whole)) }
        ensures cause { IfErr result (λ fault. IfSome (S.told shelf.old) (λ files. HasFaultAfter cuts.now index (bytes_of files name.now) fault)) }
        ensures reading { IfErr result IsOfReading }
        ensures rose { IfErr result (λ fault. RoseWith fault (S.faults shelf.old) (S.faults shelf.new)) }
        ensures later { S.faults shelf.old ≤ S.faults shelf.new }
        ensures same { S.told shelf.new ≡ S.told shelf.old }
        ensures kept { HasRoom cuts.now self.new }
    {
        let count = match read_up_to(
            shelf,
            name,
            index * cuts.length as u64,
            size,
            &mut self.record,
        ) {
            Ok(count) => count,
            Err(error) => return Err(shelf_fault(error, false)),
        };
        if count == 0 {
            return Ok(false);
        }
        if count < self.record.len() {
            return Err(ConvertFault::PartialRecord { left: count as u32 });
        }
        match write_tame(cuts, &self.record, &mut self.image) {
            None => Ok(true),
            Some(cut) => Err(self.untame(alloc, index, &cut)),
        }
    }

    /// The fault of a cut that is not tame in the record of that index.
    fn untame(&self, alloc: Global, index: u64, cut: &Cut) -> ConvertFault
        requires inside { cut.now.offset + width (piece_of cut.now) ≤ length self.now.record.items }
        requires small { index + 1 < 2 ^ 64 }
        ensures { IsUntameFault index cut.now self.now.record.items result }
    {
        let mut bytes = List::new(alloc);
        match bytes.append(covered_by(cut, &self.record)) {
            Ok(()) => ConvertFault::Untame {
                row: index + 1,
                offset: cut.offset,
                bytes,
            },
            Err(_) => ConvertFault::Memory,
        }
    }
}

/// Reads from that place on as much as there is room for, up to that end.
fn read_up_to<S: Shelf>(
    shelf: &mut S,
    name: &str,
    at: u64,
    end: u64,
    into: &mut [u8],
) -> Result<usize, ShelfErr>
    requires { at < end }
    ensures bytes { IfOk result (λ count. IfSome (S.told shelf.old) (λ files. IsReadUpTo end (bytes_of files name.now) at into.old into.new count)) }
    ensures at_most { IfOk result (λ count. count ≤ length into.new) }
    ensures cause { HasCause (S.faults shelf.old) (S.faults shelf.new) result }
    ensures same { S.told shelf.new ≡ S.told shelf.old }
{
    let room = (end - at).min(into.len() as u64) as usize;
    let count = shelf.read(name, at, &mut into[..room])?;
    Ok(count)
}
