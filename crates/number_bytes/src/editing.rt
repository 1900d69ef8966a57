ghost use Rattle.std.specs.Prelude.{◌≡◌, ◌&&◌, not, ◌==◌, ℕ, ◌+◌, ◌-◌, ◌/◌, ◌%◌, ◌^◌, ◌≤◌, ◌<◌, List, ◌∷◌, ◌++◌, cond, length, take, replicate, unsigned_abs};
ghost use Rattle.program_meaning.specs.Number.{is_minus};
ghost use Rattle.program_meaning.specs.Kind as kind;
ghost use Rattle.program_meaning.specs.Kind.{Symbol, symbol_of, digits_shown, has_dash};
ghost use Rattle.program_meaning.specs.Arithmetic as exact;
ghost use Rattle.number_bytes.specs.Stored.{symbols};
ghost use Rattle.number_bytes.specs.Editing.{shows_digit, still_shown};

use crate::storing::{ends_in_zeros, quotient};
use y2k_base::Run;

/// Where the editing of a number stands: its minus, whether a digit was shown, how many digits are left, and the
/// magnitude whose last digits these are.
#[derive(Clone, Copy)]
struct Editing {
    minus: bool,
    shown: bool,
    left: usize,
    magnitude: u128,
}

impl Editing {
    /// The first digit that is left.
    fn digit(self) -> u8
        requires { 1 ≤ self.left }
        ensures value { result ≡ self.magnitude / 10 ^ (self.left - 1) % 10 }
        ensures small { result < 10 }
    {
        (quotient(self.magnitude, self.left - 1) % 10) as u8
    }

    /// One digit on.
    fn after(self, shown: bool) -> Editing
        requires { 1 ≤ self.left }
        ensures { result ≡ record self { shown = shown; left = self.left - 1 } }
    {
        Editing {
            shown,
            left: self.left - 1,
            ..self
        }
    }
}

/// Stores a number, which is at the scale of the picture, as the picture shows it. High digits are cut; a `-` shows
/// the sign of what is left.
pub fn store_edited(number: i128, picture: &[Run], into: &mut [u8])
    requires { length into.old ≡ length (symbols picture.now) }
    ensures { into.new ≡ exact.result_bytes (kind.Edited (symbols picture.now)) number }
{
    let mut editing = started(number, picture, into.len());
    let mut at = 0usize;
    for i in 0..picture.len() {
        let run = picture[i];
        editing = edit_run(editing, run, at, into);
        at += run.count as usize;
    }
}

/// The editing of a number before its first place.
fn started(number: i128, picture: &[Run], places: usize) -> Editing
    requires { places ≡ length (symbols picture.now) }
    ensures shown { exact.result_bytes (kind.Edited (symbols picture.now)) number ≡ still_shown result (symbols picture.now) }
    ensures left { result.left ≡ digits_shown (symbols picture.now) }
{
    let left = shown_digits(picture, places);
    Editing {
        minus: kept_minus(number, picture, left),
        shown: false,
        left,
        magnitude: number.unsigned_abs(),
    }
}

/// Whether a picture shows a `-` of a number's last digits.
fn kept_minus(number: i128, picture: &[Run], digits: usize) -> bool
    ensures { result ≡ (has_dash (symbols picture.now) && (is_minus number && not (unsigned_abs number % 10 ^ digits == 0))) }
{
    has_minus(picture) && number < 0 && !ends_in_zeros(number.unsigned_abs(), digits)
}

/// Edits the places of a run, from an offset on.
fn edit_run(editing: Editing, run: Run, at: usize, into: &mut [u8]) -> Editing
    requires room { at + run.count ≤ length into.old }
    requires digits { cond (shows_digit (symbol_of run.symbol)) run.count 0 ≤ editing.left }
    ensures shown { (ss : List Symbol) → take (at + run.count) into.new ++ still_shown result ss
        ≡ take at into.old ++ still_shown editing (replicate run.count (symbol_of run.symbol) ++ ss) }
    ensures left { result.left + cond (shows_digit (symbol_of run.symbol)) run.count 0 ≡ editing.left }
    ensures length { length into.new ≡ length into.old }
{
    let mut now = editing;
    for place in 0..run.count as usize {
        let (byte, next) = show(now, run.symbol);
        into[at + place] = byte;
        now = next;
    }
    now
}

/// The byte of a place, and the editing after it.
fn show(editing: Editing, symbol: u8) -> (u8, Editing)
    requires { cond (shows_digit (symbol_of symbol)) 1 0 ≤ editing.left }
    ensures shown { (ss : List Symbol) → still_shown editing (symbol_of symbol ∷ ss) ≡ result.0 ∷ still_shown result.1 ss }
    ensures left { result.1.left + cond (shows_digit (symbol_of symbol)) 1 0 ≡ editing.left }
{
    match symbol {
        b'9' => (b'0' + editing.digit(), editing.after(true)),
        b'Z' => show_floating(editing),
        b',' => (if editing.shown { b',' } else { b' ' }, editing),
        b'-' => (if editing.minus { b'-' } else { b' ' }, editing),
        b'B' => (b' ', editing),
        _ => (symbol, editing),
    }
}

/// A digit, or a space where it and all digits before it are 0.
fn show_floating(editing: Editing) -> (u8, Editing)
    requires { 1 ≤ editing.left }
    ensures shown { (ss : List Symbol) → still_shown editing (kind.Zee ∷ ss) ≡ result.0 ∷ still_shown result.1 ss }
    ensures left { result.1.left + 1 ≡ editing.left }
{
    let digit = editing.digit();
    if editing.shown || digit != 0 {
        (b'0' + digit, editing.after(true))
    } else {
        (b' ', editing.after(false))
    }
}

/// How many digits a picture of so many places shows.
fn shown_digits(picture: &[Run], places: usize) -> usize
    requires { places ≡ length (symbols picture.now) }
    ensures { result ≡ digits_shown (symbols picture.now) }
{
    let mut digits = 0usize;
    for i in 0..picture.len() {
        let run = picture[i];
        digits += run_digits(run);
    }
    digits
}

/// How many digits a run shows.
fn run_digits(run: Run) -> usize
    ensures { result ≡ cond (shows_digit (symbol_of run.symbol)) run.count 0 }
{
    match run.symbol {
        b'9' | b'Z' => run.count as usize,
        _ => 0,
    }
}

/// Whether a picture has a `-`.
fn has_minus(picture: &[Run]) -> bool
    ensures { result ≡ has_dash (symbols picture.now) }
{
    for i in 0..picture.len() {
        let run = picture[i];
        if is_minus_run(run) {
            return true;
        }
    }
    false
}

fn is_minus_run(run: Run) -> bool
    ensures { result ≡ has_dash (replicate run.count (symbol_of run.symbol)) }
{
    run.symbol == b'-' && run.count > 0
}
