ghost use Rattle.std.specs.Prelude.{◌≡◌, ◌<◌, ◌≤◌, cond, IfSome, IfNone};
ghost use Rattle.number_bytes.specs.Editing.{shows_digit};
ghost use Rattle.number_bytes.specs.Stored.{symbols};
ghost use Rattle.program_meaning.specs.Kind.{symbol_of, digits_shown, digits_after};
ghost use Rattle.storage_start.specs.Points.{begins_fraction};

use y2k_base::Run;

/// How many digits a picture shows after its point, if there are at most 18.
pub(crate) fn scale_of(picture: &[Run]) -> Option<u8>
    ensures some { IfSome result (λ scale. scale ≡ digits_after (symbols picture.now)) }
    ensures at_most_18 { IfSome result (λ scale. scale ≤ 18) }
    ensures none { IfNone result (18 < digits_after (symbols picture.now)) }
{
    for i in 0..picture.len() {
        if is_point(picture[i]) {
            return shown_digits(&picture[i + 1..]);
        }
    }
    Some(0)
}

/// How many digits a picture shows, if there are at most 18.
fn shown_digits(picture: &[Run]) -> Option<u8>
    ensures some { IfSome result (λ digits. digits ≡ digits_shown (symbols picture.now)) }
    ensures at_most_18 { IfSome result (λ digits. digits ≤ 18) }
    ensures none { IfNone result (18 < digits_shown (symbols picture.now)) }
{
    let mut digits = 0u32;
    for i in 0..picture.len() {
        let more = run_digits(picture[i]);
        if more > 18 - digits {
            return None;
        }
        digits += more;
    }
    Some(digits as u8)
}

/// How many digits a run shows.
fn run_digits(run: Run) -> u32
    ensures { result ≡ cond (shows_digit (symbol_of run.symbol)) run.count 0 }
{
    match run.symbol {
        b'9' | b'Z' => run.count,
        _ => 0,
    }
}

fn is_point(run: Run) -> bool
    ensures { result ≡ begins_fraction run }
{
    run.symbol == b'.' && run.count > 0
}
