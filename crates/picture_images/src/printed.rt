ghost use Rattle.std.specs.Prelude.{◌≡◌, ◌+◌, ◌++◌, IfOk, OnOk};
ghost use Rattle.picture.specs.Places.{places, run_places, digit_count};
ghost use Rattle.picture.specs.Printing.{run_text, printed};

use std::alloc::Global;
use y2k_base::{Bytes, List, Memory, Run};

/// How many digits a picture with these runs has, each `Z` one. There may be more than a picture string can say.
pub fn count_digits(runs: &[Run]) -> Result<u64, Memory>
    ensures { IfOk result (λ digits. digits ≡ digit_count (places runs.now)) }
{
    let mut digits = 0u64;
    for run in runs {
        digits = with_run(digits, *run)?;
    }
    Ok(digits)
}

fn with_run(digits: u64, run: Run) -> Result<u64, Memory>
    ensures { IfOk result (λ more. more ≡ digits + digit_count (run_places run)) }
{
    if run.symbol == b'9' || run.symbol == b'Z' {
        digits.checked_add(u64::from(run.count)).ok_or(Memory)
    } else {
        Ok(digits)
    }
}

/// The text of these runs: up to three equal symbols are written out, more have a count. It may be longer than a picture
/// string can be.
pub fn print_runs(alloc: Global, runs: &[Run]) -> Result<Bytes, Memory>
    ensures { IfOk result (λ text. text ≡ printed runs.now) }
{
    let mut text = List::new(alloc);
    for run in runs {
        print_run(alloc, *run, &mut text)?;
    }
    Ok(text)
}

fn print_run(alloc: Global, run: Run, text: &mut Bytes) -> Result<(), Memory>
    ensures { OnOk result (text.new ≡ text.old ++ run_text run) }
{
    if run.count > 3 {
        text.append(&[run.symbol, b'('])?;
        text.append(run.count.to_string(alloc)?.as_bytes())?;
        return text.push(b')');
    }
    for _ in 0..run.count {
        text.push(run.symbol)?;
    }
    Ok(())
}
