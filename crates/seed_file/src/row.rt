ghost use Rattle.std.specs.Prelude.{◌≡◌, [], ◌∷◌, IfOk, IfSome, IfNone, bytes_eq, decimal, codes, map, string_bytes};
ghost use Rattle.std.specs.Char.{to_ascii_uppercase};
ghost use Rattle.csv.specs.Records.{fields_of};
ghost use Rattle.seed_file.specs.Rows as spec;

use csv::ByteRecord;
use std::alloc::Global;
use std::str;
use y2k_base::{Bytes, List, Memory};

/// What a row says of an item: that a year's tens digit is the one of that number, counted from 1 from the left, or that
/// no year stands in it.
#[derive(Clone, Copy, Debug, PartialEq, Eq)]
pub(crate) enum Saying {
    Year(u32),
    Plain,
}

/// A row of a seed file, with the name of its program in capitals.
pub(crate) struct SeedRow {
    pub(crate) program: Bytes,
    pub(crate) item: Bytes,
    pub(crate) saying: Saying,
}

impl Drop for SeedRow {
    fn drop(self) {
        let SeedRow {
            program: _program,
            item: _item,
            saying: _,
        } = self;
    }
}

/// The row that a record is, if it has the shape of one.
pub(crate) fn row_of(alloc: Global, fields: &ByteRecord) -> Result<Option<SeedRow>, Memory>
    ensures { IfOk result (spec.IsReading (fields_of fields.now)) }
{
    match four_fields(fields) {
        Some(four) => row_of_fields(alloc, four.0, four.1, four.2, four.3),
        None => Ok(None),
    }
}

/// The fields of a record that has four.
pub(crate) fn four_fields(fields: &ByteRecord) -> Option<(&[u8], &[u8], &[u8], &[u8])>
    ensures some { IfSome result (λ four. fields_of fields.now ≡ four.0.now ∷ four.1.now ∷ four.2.now ∷ four.3.now ∷ []) }
    ensures none { IfNone result (spec.IsNotFour (fields_of fields.now)) }
{
    if fields.len() == 4 {
        Some((
            field(fields, 0),
            field(fields, 1),
            field(fields, 2),
            field(fields, 3),
        ))
    } else {
        None
    }
}

/// The field at that place, or nothing where there is none.
fn field(fields: &ByteRecord, place: usize) -> &[u8]
    ensures { result.now ≡ spec.field (fields_of fields.now) place }
{
    match fields.get(place) {
        Some(bytes) => bytes,
        None => &[],
    }
}

fn row_of_fields(
    alloc: Global,
    program: &[u8],
    item: &[u8],
    kind: &[u8],
    digit: &[u8],
) -> Result<Option<SeedRow>, Memory>
    ensures { IfOk result (spec.IsReading (program.now ∷ item.now ∷ kind.now ∷ digit.now ∷ [])) }
{
    match saying_of(alloc, kind, digit) {
        Ok(Some(saying)) => Ok(Some(SeedRow {
            program: capitals(alloc, program)?,
            item: copied(alloc, item)?,
            saying,
        })),
        Ok(None) => Ok(None),
        Err(_) => Err(Memory),
    }
}

/// What a kind and a digit say, if they say anything.
fn saying_of(alloc: Global, kind: &[u8], digit: &[u8]) -> Result<Option<Saying>, Memory>
    ensures { IfOk result (spec.IsSayingRead kind.now digit.now) }
{
    if kind == b"year".as_slice() {
        match digit_of(alloc, digit) {
            Ok(Some(number)) => Ok(Some(Saying::Year(number))),
            Ok(None) => Ok(None),
            Err(_) => Err(Memory),
        }
    } else if kind == b"plain".as_slice() {
        Ok(plain_of(digit))
    } else {
        Ok(None)
    }
}

fn plain_of(digit: &[u8]) -> Option<Saying>
    ensures { spec.IsSayingRead (codes "plain") digit.now result }
{
    match digit {
        [] => Some(Saying::Plain),
        _ => None,
    }
}

/// The number from 1 to 65535 that is written so in decimal, without leading zeros or a sign.
fn digit_of(alloc: Global, text: &[u8]) -> Result<Option<u32>, Memory>
    ensures { IfOk result (spec.IsDigitRead text.now) }
{
    match str::from_utf8(text) {
        Ok(text) => digit_of_text(alloc, text),
        Err(_) => Ok(None),
    }
}

fn digit_of_text(alloc: Global, text: &str) -> Result<Option<u32>, Memory>
    ensures { IfOk result (spec.IsDigitRead text.now) }
{
    match text.parse::<u16>() {
        Ok(number) => match is_written(alloc, number, text) {
            Ok(is_written) => Ok(digit_if(number, is_written)),
            Err(_) => Err(Memory),
        },
        Err(_) => Ok(None),
    }
}

/// A number from 1 on, where the test holds.
fn digit_if(number: u16, is_digit: bool) -> Option<u32>
    ensures { result ≡ spec.digit_if number is_digit }
{
    if is_digit {
        if number >= 1 {
            return Some(u32::from(number));
        }
    }
    None
}

fn is_written(alloc: Global, number: u16, text: &str) -> Result<bool, Memory>
    ensures { IfOk result (λ is_written. is_written ≡ bytes_eq (decimal number) text.now) }
{
    let written = written(alloc, number)?;
    Ok(written.as_str() == text)
}

fn written(alloc: Global, number: u16) -> Result<String, Memory>
    ensures { IfOk result (λ text. string_bytes text ≡ decimal number) }
{
    let text = format!(in alloc; "{number}")?;
    Ok(text)
}

fn capitals(alloc: Global, text: &[u8]) -> Result<Bytes, Memory>
    ensures { IfOk result (λ capitals. capitals ≡ map to_ascii_uppercase text.now) }
{
    let mut capitals = List::new(alloc);
    let mut rest = text;
    while let [byte, more @ ..] = rest {
        capitals.push(byte.to_ascii_uppercase())?;
        rest = more;
    }
    Ok(capitals)
}

fn copied(alloc: Global, bytes: &[u8]) -> Result<Bytes, Memory>
    ensures { IfOk result (λ copy. copy ≡ bytes.now) }
{
    let mut copy = List::new(alloc);
    copy.append(bytes)?;
    Ok(copy)
}
