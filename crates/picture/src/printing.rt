ghost use Rattle.std.specs.Prelude.{◌≡◌, ◌++◌, ◌↔◌, IsTrue, IfOk, IfErr, OnOk};
ghost use Rattle.picture.specs.Spelling.{Reads};
ghost use Rattle.picture.specs.Printing.{run_text, printed, IsPrinted, HasPrintFault};

use super::PicFault;
use super::reading::{MAX_DIGITS, MAX_LENGTH, digits, reading};
use std::alloc::Global;
use y2k_base::{Bytes, List, Memory, PicClass, Picture, Run};

/// The text of a picture, which reads as it: up to three equal symbols are written out, more have a count.
pub fn print_picture(alloc: Global, picture: &Picture) -> Result<Bytes, PicFault>
    ensures text { IfOk result (IsPrinted picture.now) }
    ensures fault { IfErr result (HasPrintFault picture.now) }
{
    let text = print_runs(alloc, picture.runs.items())?;
    if text.len() > MAX_LENGTH {
        return Err(PicFault::PictureFull);
    }
    if !reads_as(alloc, text.items(), picture)? {
        return Err(PicFault::PictureShape);
    }
    if digits(picture.runs.items()) > MAX_DIGITS {
        return Err(PicFault::TooManyDigits);
    }
    Ok(text)
}

/// Whether a text reads as the picture.
fn reads_as(alloc: Global, text: &[u8], picture: &Picture) -> Result<bool, Memory>
    ensures { IfOk result (λ answer. IsTrue answer ↔ Reads text.now picture.now) }
{
    match reading(alloc, text) {
        Ok(read) => Ok(is_same(&read, picture)),
        Err(PicFault::Memory) => Err(Memory),
        Err(_) => Ok(false),
    }
}

fn is_same(picture: &Picture, other: &Picture) -> bool
    ensures { IsTrue result ↔ (picture.now ≡ other.now) }
{
    is_same_class(picture.class, other.class) && picture.runs.items() == other.runs.items()
}

fn is_same_class(class: PicClass, other: PicClass) -> bool
    ensures { IsTrue result ↔ (class ≡ other) }
{
    class == other
}

fn print_runs(alloc: Global, runs: &[Run]) -> Result<Bytes, Memory>
    ensures { IfOk result (λ text. text ≡ printed runs.now) }
{
    let mut text = List::new(alloc);
    for run in runs {
        print_run(alloc, *run, &mut text)?;
    }
    Ok(text)
}

fn print_run(alloc: Global, run: Run, text: &mut Bytes) -> Result<(), Memory>
    ensures { OnOk result (text.new ≡ text.old ++ run_text run) }
{
    if run.count > 3 {
        text.append(&[run.symbol, b'('])?;
        text.append(run.count.to_string(alloc)?.as_bytes())?;
        return text.push(b')');
    }
    for _ in 0..run.count {
        text.push(run.symbol)?;
    }
    Ok(())
}
