ghost use Rattle.std.specs.Prelude.{◌≡◌, ◌^◌, ◌≤◌, IsTrue, IfSome, IfNone, cond, length, replicate};
ghost use Rattle.layout_reading.specs.Kinds.{read_form};
ghost use Rattle.number_bytes.specs.Editing.{shows_digit};
ghost use Rattle.number_bytes.specs.Stored.{symbols};
ghost use Rattle.program_meaning.specs.Kind as meant;
ghost use Rattle.program_meaning.specs.Kind.{symbol_of, edited_form};
ghost use Rattle.tree_reading.specs.Reading.{written_out};

use decimal_bytes::{NumForm, SignPlace};
use y2k_base::Run;

/// Whether a form has the digits, the point and the sign of an edited picture.
pub(crate) fn is_form_of(form: NumForm, picture: &[Run]) -> bool
    ensures same { IsTrue result → read_form form ≡ edited_form (symbols picture.now) }
    ensures all { read_form form ≡ edited_form (symbols picture.now) → IsTrue result }
{
    digits_shown(picture) == Some(u32::from(form.digits))
        && digits_after(picture) == Some(u32::from(form.scale))
        && form.signed == has_dash(picture)
        && form.sign == SignPlace::Trailing
}

/// How many places a picture has, if the number is within 32 bits.
pub(crate) fn places(picture: &[Run]) -> Option<u32>
    ensures some { IfSome result (λ places. places ≡ length (symbols picture.now)) }
    ensures none { IfNone result (2 ^ 32 ≤ length (symbols picture.now)) }
{
    let mut places = 0u32;
    let mut rest = picture;
    while let [run, more @ ..] = rest {
        if run.count > u32::MAX - places {
            return None;
        }
        places += run.count;
        rest = more;
    }
    Some(places)
}

/// How many digits a picture shows, if the number is within 32 bits.
#[tactic(auto, using(crate::proofs::PictureLaws::shown_from))]
fn digits_shown(picture: &[Run]) -> Option<u32>
    ensures some { IfSome result (λ digits. digits ≡ meant.digits_shown (symbols picture.now)) }
    ensures none { IfNone result (2 ^ 32 ≤ meant.digits_shown (symbols picture.now)) }
{
    let mut digits = 0u32;
    let mut rest = picture;
    while let [run, more @ ..] = rest {
        let shown = run_digits(*run);
        if shown > u32::MAX - digits {
            return None;
        }
        digits += shown;
        rest = more;
    }
    Some(digits)
}

/// How many digits a run shows.
fn run_digits(run: Run) -> u32
    ensures { result ≡ cond (shows_digit (symbol_of run.symbol)) run.count 0 }
{
    match run.symbol {
        b'9' | b'Z' => run.count,
        _ => 0,
    }
}

/// How many digits a picture shows after its point, if the number is within 32 bits.
#[tactic(auto, using(crate::proofs::PictureLaws::after_point_from, crate::proofs::PictureLaws::after_other_from, crate::proofs::PictureLaws::after_none_from))]
fn digits_after(picture: &[Run]) -> Option<u32>
    ensures some { IfSome result (λ digits. digits ≡ meant.digits_after (symbols picture.now)) }
    ensures none { IfNone result (2 ^ 32 ≤ meant.digits_after (symbols picture.now)) }
{
    let mut rest = picture;
    while let [run, more @ ..] = rest {
        if run.symbol == b'.' && run.count > 0 {
            return digits_shown(more);
        }
        rest = more;
    }
    Some(0)
}

/// Whether a picture has a `-`.
fn has_dash(picture: &[Run]) -> bool
    ensures { result ≡ meant.has_dash (symbols picture.now) }
{
    let mut rest = picture;
    while let [run, more @ ..] = rest {
        if is_dash(*run) {
            return true;
        }
        rest = more;
    }
    false
}

#[tactic(auto, using(crate::proofs::PictureLaws::dash_other))]
fn is_dash(run: Run) -> bool
    ensures { result ≡ meant.has_dash (replicate run.count (symbol_of run.symbol)) }
{
    run.symbol == b'-' && run.count > 0
}
