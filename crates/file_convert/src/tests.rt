ghost use Rattle.std.specs.Prelude.{◌≡◌, ◌≤◌, ◌∷◌, [], IfOk};
ghost use Rattle.file_convert.specs.declared.cut.CutKind.TheVariants as kinds;
ghost use Rattle.file_convert.specs.Cuts.{IsInOrder, IsInOrderFrom};

use super::*;
use shelf::{MemoryShelf, Shelf};
use std::alloc::Global;
use std::test::Fail;
use y2k_base::{List, Twin};

/// A pair at that offset.
fn pair(offset: u32, pivot: Option<u8>) -> Cut
    ensures { result ≡ record { offset = offset; kind = kinds.Pair; pivot = pivot } }
{
    Cut {
        offset,
        kind: CutKind::Pair,
        pivot,
    }
}

/// A packed number at that offset.
fn packed(offset: u32, digits: u8, unit: u8, pivot: Option<u8>) -> Cut
    ensures { result ≡ record { offset = offset; kind = kinds.Packed digits unit; pivot = pivot } }
{
    Cut {
        offset,
        kind: CutKind::Packed { digits, unit },
        pivot,
    }
}

/// The cuts of a record with one year.
fn one(alloc: Global, length: u32, first: Cut) -> Result<Cuts, Fail>
    requires { (1 ≤ length) × (length ≤ 65535) × IsInOrderFrom 0 length (first ∷ []) }
    ensures { IfOk result IsInOrder }
{
    let mut list = List::new(alloc);
    list.push(first)?;
    Ok(Cuts { length, list })
}

/// The cuts of a record with two years.
fn two(alloc: Global, length: u32, first: Cut, second: Cut) -> Result<Cuts, Fail>
    requires { (1 ≤ length) × (length ≤ 65535) × IsInOrderFrom 0 length (first ∷ second ∷ []) }
    ensures { IfOk result IsInOrder }
{
    let mut list = List::new(alloc);
    list.push(first)?;
    list.push(second)?;
    Ok(Cuts { length, list })
}

/// Whether the record has that image.
fn gives(alloc: Global, cuts: &Cuts, source: &[u8], want: &[u8]) -> Result<bool, Fail>
    requires { IsInOrder cuts.now }
{
    if source.len() != cuts.length as usize {
        return Ok(false);
    }
    let mut into = vec![in alloc; 0u8; cuts.image_length() as usize]?;
    Ok(image_record(cuts, source, &mut into).is_ok() && into.as_slice() == want)
}

/// The offset of the first cut that is not tame.
fn untame(alloc: Global, cuts: &Cuts, source: &[u8]) -> Result<Option<u32>, Fail>
    requires { IsInOrder cuts.now }
{
    if source.len() != cuts.length as usize {
        return Ok(None);
    }
    let mut into = vec![in alloc; 0u8; cuts.image_length() as usize]?;
    match image_record(cuts, source, &mut into) {
        Ok(()) => Ok(None),
        Err(untame) => Ok(Some(untame.offset)),
    }
}

#[test]
fn a_packed_number_gets_19_above_its_year(rt: HostRuntime) -> Result<(), Fail> {
    let six = one(rt.alloc(), 4, packed(0, 6, 4, None))?;
    assert!(rt;
        gives(
            rt.alloc(),
            &six,
            &[0x09, 0x91, 0x23, 0x1f],
            &[0x01, 0x99, 0x91, 0x23, 0x1f]
        )?
    );
    let five = one(rt.alloc(), 3, packed(0, 5, 3, None))?;
    assert!(rt;
        gives(
            rt.alloc(),
            &five,
            &[0x99, 0x36, 0x5c],
            &[0x19, 0x99, 0x36, 0x5c]
        )?
    );
    assert_eq!(rt; untame(rt.alloc(), &five, &[0x99, 0x36, 0x5d])?, Some(0));
    assert_eq!(rt;
        untame(rt.alloc(), &six, &[0x19, 0x91, 0x23, 0x1f])?,
        Some(0)
    );
    Ok(())
}

#[test]
fn a_pair_gets_19_in_front_and_fills_grow(rt: HostRuntime) -> Result<(), Fail> {
    let year = one(rt.alloc(), 6, pair(2, None))?;
    assert!(rt; gives(rt.alloc(), &year, b"ab00cd", b"ab1900cd")?);
    assert!(rt; gives(rt.alloc(), &year, b"ab??cd", b"ab????cd")?);
    assert_eq!(rt; untame(rt.alloc(), &year, b"ab 1cd")?, Some(2));
    let fill = two(rt.alloc(), 10, pair(0, None), packed(6, 6, 4, None))?;
    assert!(rt; gives(rt.alloc(), &fill, b"          ", b"             ")?);
    assert_eq!(rt; untame(rt.alloc(), &fill, b"9     1   ")?, Some(0));
    assert_eq!(rt; untame(rt.alloc(), &fill, b"99    1   ")?, Some(6));
    Ok(())
}

#[test]
fn a_windowed_year_is_checked_and_kept(rt: HostRuntime) -> Result<(), Fail> {
    let both = two(rt.alloc(), 6, pair(0, Some(50)), packed(3, 5, 3, Some(50)))?;
    assert!(rt; gives(rt.alloc(), &both, b"50x\x50\x12\x3c", b"50x\x50\x12\x3c")?);
    assert!(rt; gives(rt.alloc(), &both, b"  x   ", b"  x   ")?);
    assert_eq!(rt; untame(rt.alloc(), &both, b"49x\x50\x12\x3c")?, Some(0));
    assert_eq!(rt; untame(rt.alloc(), &both, b"50x\x49\x12\x3c")?, Some(3));
    Ok(())
}

#[test]
fn cuts_at_their_limits_convert(rt: HostRuntime) -> Result<(), Fail> {
    let alloc = rt.alloc();
    let byte = Cuts {
        length: 1,
        list: List::new(alloc),
    };
    assert!(rt; gives(alloc, &byte, b"7", b"7")?);
    let longest = two(alloc, 65_535, pair(0, Some(1)), pair(65_533, Some(99)))?;
    let fill = vec![in alloc; 0x40u8; 65_535]?;
    assert!(rt; gives(alloc, &longest, &fill, &fill)?);
    let top = two(alloc, 11, packed(0, 16, 14, None), pair(9, None))?;
    let bytes = b"\x09\x91\x23\x45\x67\x89\x01\x23\x4f99";
    let image = b"\x01\x99\x91\x23\x45\x67\x89\x01\x23\x4f1999";
    assert!(rt; gives(alloc, &top, bytes, image)?);
    let low = two(
        alloc,
        12,
        packed(0, 2, 0, None),
        packed(2, 18, 16, Some(99)),
    )?;
    let bytes = b"\x09\x9f\x09\x91\x23\x45\x67\x89\x01\x23\x45\x6c";
    let image = b"\x01\x99\x9f\x09\x91\x23\x45\x67\x89\x01\x23\x45\x6c";
    let twin = low.twin(alloc)?;
    assert!(rt; gives(alloc, &twin, bytes, image)?);
    Ok(())
}

/// The cuts of records of twelve bytes with a pair at offset 6.
fn employees(alloc: Global) -> Result<Cuts, Fail>
    ensures { IfOk result IsInOrder }
{
    one(alloc, 12, pair(6, None))
}

/// Whether the file is there and has just these bytes.
fn holds(alloc: Global, shelf: &mut MemoryShelf, name: &str, want: &[u8]) -> Result<bool, Fail> {
    let size = match shelf.size(name) {
        Ok(Some(size)) => size,
        Ok(None) => return Ok(false),
        Err(_) => return Ok(false),
    };
    let mut bytes = vec![in alloc; 0u8; size as usize]?;
    match shelf.read(name, 0, &mut bytes) {
        Ok(_) => Ok(bytes.as_slice() == want),
        Err(_) => Ok(false),
    }
}

/// The number of records, or none where the answer is a fault.
fn records(answer: &Result<u64, ConvertFault>) -> Option<u64> {
    match answer {
        Ok(count) => Some(*count),
        Err(_) => None,
    }
}

/// How many bytes are left over, or none where the answer is another.
fn left_over(answer: &Result<u64, ConvertFault>) -> Option<u32> {
    match answer {
        Err(ConvertFault::PartialRecord { left }) => Some(*left),
        _ => None,
    }
}

/// Whether the call that failed is one that writes, or none where the answer is another.
fn failed_writing(answer: &Result<u64, ConvertFault>) -> Option<bool> {
    match answer {
        Err(ConvertFault::Shelf { written }) => Some(*written),
        _ => None,
    }
}

/// Whether the answer is that this cut is the first that is not tame.
fn is_untame(answer: &Result<u64, ConvertFault>, row: u64, offset: u32, bytes: &[u8]) -> bool {
    match answer {
        Err(
            ConvertFault::Untame {
                row: r,
                offset: o,
                bytes: b,
            },
        ) => *r == row && *o == offset && b.items() == bytes,
        _ => false,
    }
}

#[test]
fn a_file_is_converted_up_to_its_first_untame_record(rt: HostRuntime) -> Result<(), Fail> {
    let alloc = rt.alloc();
    let cuts = employees(alloc)?;
    let mut shelf = MemoryShelf::new(alloc)?;
    shelf.put("EMPIN", b"0000019901010000020001010000039 0101000004??????")?;
    let checked = check_file(alloc, &mut shelf, "EMPIN", &cuts);
    assert!(rt; is_untame(&checked, 3, 6, b"9 "));
    let converted = convert_file(alloc, &mut shelf, "EMPIN", "OUT", &cuts);
    assert!(rt; is_untame(&converted, 3, 6, b"9 "));
    let front = b"0000011999010100000219000101";
    assert!(rt; holds(alloc, &mut shelf, "OUT", front)?);
    Ok(())
}

#[test]
fn a_file_is_converted_where_it_is_whole_records(rt: HostRuntime) -> Result<(), Fail> {
    let alloc = rt.alloc();
    let cuts = employees(alloc)?;
    let bytes = b"000001990101000002??????";
    let image = b"00000119990101000002????????";
    let mut shelf = MemoryShelf::new(alloc)?;
    for length in 0..25 {
        shelf.put("EMPIN", &bytes[..length])?;
        shelf.put("OUT", b"old")?;
        let checked = check_file(alloc, &mut shelf, "EMPIN", &cuts);
        let converted = convert_file(alloc, &mut shelf, "EMPIN", "OUT", &cuts);
        let whole = length / 12;
        if length % 12 == 0 {
            assert_eq!(rt; records(&checked), Some(whole as u64));
            assert_eq!(rt; records(&converted), Some(whole as u64));
        } else {
            assert_eq!(rt; left_over(&checked), Some(length as u32 % 12));
            assert_eq!(rt; left_over(&converted), Some(length as u32 % 12));
        }
        assert!(rt; holds(alloc, &mut shelf, "OUT", &image[..14 * whole])?);
    }
    let long = one(alloc, 80, pair(10, None))?;
    shelf.put("EMPIN", &[0x20; 81])?;
    assert_eq!(rt;
        left_over(&check_file(alloc, &mut shelf, "EMPIN", &long)),
        Some(1)
    );
    Ok(())
}

#[test]
fn a_file_that_is_not_there_has_no_record(rt: HostRuntime) -> Result<(), Fail> {
    let alloc = rt.alloc();
    let cuts = employees(alloc)?;
    let mut shelf = MemoryShelf::new(alloc)?;
    shelf.put("OUT", b"old")?;
    let checked = check_file(alloc, &mut shelf, "EMPIN", &cuts);
    let converted = convert_file(alloc, &mut shelf, "EMPIN", "OUT", &cuts);
    assert_eq!(rt; records(&checked), Some(0));
    assert_eq!(rt; records(&converted), Some(0));
    assert!(rt; holds(alloc, &mut shelf, "OUT", b"old")?);
    Ok(())
}

#[test]
fn a_fault_of_the_shelf_says_whether_the_call_wrote(rt: HostRuntime) -> Result<(), Fail> {
    let alloc = rt.alloc();
    let cuts = employees(alloc)?;
    let front = b"0000011999010100000219000101";
    for (call, written, length) in [
        (1, false, None),
        (2, true, None),
        (3, false, Some(0)),
        (4, true, Some(0)),
        (5, false, Some(14)),
        (6, true, Some(14)),
    ] {
        let mut shelf = MemoryShelf::new(alloc)?;
        shelf.put("EMPIN", b"000001990101000002000101")?;
        shelf.fail_on(call)?;
        let converted = convert_file(alloc, &mut shelf, "EMPIN", "OUT", &cuts);
        assert_eq!(rt; failed_writing(&converted), Some(written));
        match length {
            None => assert_eq!(rt; shelf.size("OUT"), Ok(None)),
            Some(count) => assert!(rt; holds(alloc, &mut shelf, "OUT", &front[..count])?),
        }
    }
    Ok(())
}

#[test]
fn a_hundred_thousand_records_are_converted(rt: HostRuntime) -> Result<(), Fail> {
    let alloc = rt.alloc();
    let cuts = employees(alloc)?;
    let mut bytes = Vec::new(alloc);
    let mut image = Vec::new(alloc);
    for _ in 0..50_000 {
        bytes.extend_from_slice(b"000001990101000002??????")?;
        image.extend_from_slice(b"00000119990101000002????????")?;
    }
    let mut shelf = MemoryShelf::new(alloc)?;
    shelf.put("EMPIN", &bytes)?;
    let converted = convert_file(alloc, &mut shelf, "EMPIN", "OUT", &cuts);
    assert_eq!(rt; records(&converted), Some(100_000));
    assert!(rt; holds(alloc, &mut shelf, "OUT", &image)?);
    Ok(())
}
