ghost use Rattle.std.specs.Prelude.{◌≡◌, ◌+◌, ◌^◌, ◌<◌, ◌≤◌, IfOk, IfErr, Some, true};
ghost use Rattle.picture.specs.Places.{places};
ghost use Rattle.picture.specs.Inserting.{takes_byte, size_of, grown, left_after, insert_runs, symbol_at, inserted, with_z, IsInsertion, HasInsertFault};

use super::PicFault;
use super::printing::print_picture;
use std::alloc::Global;
use y2k_base::{List, Memory, Picture, Run};

/// The picture with two places more, of the kind of the byte `at` and right before it. Bytes count from 0, and
/// `S` and `V` take none.
pub fn insert_digits(alloc: Global, picture: &Picture, at: u32) -> Result<Picture, PicFault>
    requires within { at < size_of (places picture.now.runs) }
    requires small { size_of (places picture.now.runs) ≤ 65535 }
    ensures picture { IfOk result (IsInsertion picture.now at) }
    ensures fault { IfErr result (HasInsertFault picture.now at) }
{
    let longer = insert(alloc, picture, at)?;
    let at_z = symbol(picture.runs.items(), at) == b'Z';
    match print_picture(alloc, &longer) {
        Err(fault) => Err(fault_at(at_z, fault)),
        Ok(_) => {
            if at_z {
                return Err(PicFault::PictureShape);
            }
            Ok(longer)
        }
    }
}

/// The fault of an insertion: a Z counts before too many digits.
fn fault_at(at_z: bool, fault: PicFault) -> PicFault
    ensures { result ≡ with_z at_z fault }
{
    match fault {
        PicFault::TooManyDigits if at_z => PicFault::PictureShape,
        _ => fault,
    }
}

/// The picture with two places more, whether it reads or not.
fn insert(alloc: Global, picture: &Picture, at: u32) -> Result<Picture, Memory>
    requires small { size_of (places picture.now.runs) ≤ 65535 }
    ensures { IfOk result (λ longer. longer ≡ inserted picture.now at) }
{
    let mut longer = List::new(alloc);
    let mut left = Some(at);
    for run in picture.runs.items() {
        longer.push(grow(*run, left))?;
        left = after(*run, left);
    }
    Ok(Picture {
        class: picture.class,
        runs: longer,
    })
}

/// A run with two places more, if the byte that so many bytes stand before is in it.
fn grow(run: Run, left: Option<u32>) -> Run
    requires { takes_byte run.symbol ≡ true → run.count ≤ 65535 }
    ensures { result ≡ grown left run }
{
    match left {
        Some(left) if takes_byte(run.symbol) && left < run.count => Run {
            symbol: run.symbol,
            count: run.count + 2,
        },
        _ => run,
    }
}

/// How many bytes are left before the byte after a run, if it is still to come.
fn after(run: Run, left: Option<u32>) -> Option<u32>
    ensures { result ≡ left_after left run }
{
    let left = left?;
    if !takes_byte(run.symbol) {
        Some(left)
    } else if left < run.count {
        None
    } else {
        Some(left - run.count)
    }
}

/// The symbol of a byte.
fn symbol(runs: &[Run], at: u32) -> u8
    ensures { result ≡ symbol_at at runs.now }
{
    let mut left = at;
    for run in runs {
        if takes_byte(run.symbol) {
            if left < run.count {
                return run.symbol;
            }
            left -= run.count;
        }
    }
    0
}

/// Whether a symbol takes a byte.
fn takes_byte(symbol: u8) -> bool
    ensures { result ≡ takes_byte symbol }
{
    !matches!(symbol, b'S' | b'V')
}
