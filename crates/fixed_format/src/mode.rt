//! Whether a literal is open at the end of a text that goes on, found character by character.

ghost use Rattle.std.specs.Prelude.{◌≡◌};
ghost use Rattle.fixed_format.specs.Modes as spec;

use crate::columns::{is_digit, is_letter, is_name_byte};
use crate::piece::{Expected, is_quote, is_sign};
use crate::runs::{Placed, is_gap};

/// How far the letters of a name so far spell PIC or PICTURE.
#[derive(Clone, Copy)]
pub enum Spelling {
    P,
    Pi,
    Pic,
    Pict,
    Pictu,
    Pictur,
    Picture,
    Other,
}

/// Where a text ends in its last piece, as far as it decides how the text goes on.
#[derive(Clone, Copy)]
pub enum Mode {
    /// Between pieces.
    Front {
        expected: Expected,
        behind_gap: bool,
    },
    /// Behind a sign that may belong to a number.
    Sign,
    /// Behind a point that may belong to a number, or in the digits behind it.
    Fraction,
    /// Behind a digit of a run without a letter.
    Digits,
    /// Behind a hyphen of a run without a letter that began with a digit.
    Hyphen,
    /// In a name.
    Name {
        so_far: Spelling,
    },
    /// Behind the I of what may be IS, where IS is expected.
    IsI,
    /// Behind the S of what may be IS.
    IsIs,
    /// In a PICTURE word.
    Picture {
        behind_gap: bool,
    },
    /// Behind an equals sign that is one of two, or belongs to a PICTURE word.
    PictureEqual,
    /// Behind the first of the marks that an equals sign may follow.
    Comparison,
    /// In a literal.
    Literal {
        mark: u8,
    },
    /// Behind a mark that closes a literal unless another one follows.
    Closed {
        mark: u8,
    },
}

fn next_if(byte: u8, letter: u8, next: Spelling) -> Spelling
    ensures { result ≡ spec.next_if byte letter next }
{
    if byte.to_ascii_uppercase() == letter {
        next
    } else {
        Spelling::Other
    }
}

fn spelled(so_far: Spelling, byte: u8) -> Spelling
    ensures { result ≡ spec.spelled so_far byte }
{
    match so_far {
        Spelling::P => next_if(byte, b'I', Spelling::Pi),
        Spelling::Pi => next_if(byte, b'C', Spelling::Pic),
        Spelling::Pic => next_if(byte, b'T', Spelling::Pict),
        Spelling::Pict => next_if(byte, b'U', Spelling::Pictu),
        Spelling::Pictu => next_if(byte, b'R', Spelling::Pictur),
        Spelling::Pictur => next_if(byte, b'E', Spelling::Picture),
        Spelling::Picture => Spelling::Other,
        Spelling::Other => Spelling::Other,
    }
}

fn expected_behind_name(so_far: Spelling) -> Expected
    ensures { result ≡ spec.expected_behind_name so_far }
{
    match so_far {
        Spelling::P => Expected::Any,
        Spelling::Pi => Expected::Any,
        Spelling::Pic => Expected::IsOrPicture,
        Spelling::Pict => Expected::Any,
        Spelling::Pictu => Expected::Any,
        Spelling::Pictur => Expected::Any,
        Spelling::Picture => Expected::IsOrPicture,
        Spelling::Other => Expected::Any,
    }
}

/// Between pieces, behind no blank and no opening parenthesis, where nothing special is expected.
fn behind_piece() -> Mode
    ensures { result ≡ spec.behind_piece }
{
    Mode::Front {
        expected: Expected::Any,
        behind_gap: false,
    }
}

fn mark_step(behind_gap: bool, byte: u8) -> Mode
    ensures { result ≡ spec.mark_step behind_gap byte }
{
    if is_sign(byte) {
        if behind_gap {
            Mode::Sign
        } else {
            behind_piece()
        }
    } else if byte == b'.' {
        if behind_gap {
            Mode::Fraction
        } else {
            behind_piece()
        }
    } else if byte == b'=' || byte == b'<' || byte == b'>' {
        Mode::Comparison
    } else {
        Mode::Front {
            expected: Expected::Any,
            behind_gap: is_gap(byte),
        }
    }
}

/// Behind a character that stands first in a piece, where nothing special is expected.
fn any_step(behind_gap: bool, byte: u8) -> Mode
    ensures { result ≡ spec.any_step behind_gap byte }
{
    if byte == b' ' {
        Mode::Front {
            expected: Expected::Any,
            behind_gap: true,
        }
    } else if is_quote(byte) {
        Mode::Literal { mark: byte }
    } else if is_letter(byte) {
        Mode::Name {
            so_far: next_if(byte, b'P', Spelling::P),
        }
    } else if is_digit(byte) {
        Mode::Digits
    } else {
        mark_step(behind_gap, byte)
    }
}

fn picture_step(byte: u8) -> Mode
    ensures { result ≡ spec.picture_step byte }
{
    if byte == b' ' {
        Mode::Front {
            expected: Expected::Any,
            behind_gap: true,
        }
    } else if byte == b'=' {
        Mode::PictureEqual
    } else {
        Mode::Picture {
            behind_gap: is_gap(byte),
        }
    }
}

fn is_step(byte: u8) -> Mode
    ensures { result ≡ spec.is_step byte }
{
    if byte.to_ascii_uppercase() == b'I' {
        Mode::IsI
    } else {
        picture_step(byte)
    }
}

/// Behind a blank, where the same is still expected.
fn behind_blank(expected: Expected) -> Mode
    ensures { result ≡ spec.behind_blank expected }
{
    Mode::Front {
        expected,
        behind_gap: true,
    }
}

/// Behind a character that stands first in a piece.
fn front_step(expected: Expected, behind_gap: bool, byte: u8) -> Mode
    ensures { result ≡ spec.front_step expected behind_gap byte }
{
    match expected {
        Expected::Any => any_step(behind_gap, byte),
        Expected::IsOrPicture => if byte == b' ' {
            behind_blank(Expected::IsOrPicture)
        } else {
            is_step(byte)
        },
        Expected::Picture => if byte == b' ' {
            behind_blank(Expected::Picture)
        } else {
            picture_step(byte)
        },
    }
}

fn name_step(so_far: Spelling, byte: u8) -> Mode
    ensures { result ≡ spec.name_step so_far byte }
{
    if is_name_byte(byte) {
        Mode::Name {
            so_far: spelled(so_far, byte),
        }
    } else {
        front_step(expected_behind_name(so_far), false, byte)
    }
}

fn digits_step(byte: u8) -> Mode
    ensures { result ≡ spec.digits_step byte }
{
    if is_letter(byte) {
        Mode::Name {
            so_far: Spelling::Other,
        }
    } else if is_digit(byte) {
        Mode::Digits
    } else if byte == b'-' {
        Mode::Hyphen
    } else if byte == b'.' {
        Mode::Fraction
    } else {
        any_step(false, byte)
    }
}

fn hyphen_step(byte: u8) -> Mode
    ensures { result ≡ spec.hyphen_step byte }
{
    if is_letter(byte) {
        Mode::Name {
            so_far: Spelling::Other,
        }
    } else if is_digit(byte) {
        Mode::Digits
    } else if byte == b'-' {
        Mode::Hyphen
    } else {
        any_step(false, byte)
    }
}

fn sign_step(byte: u8) -> Mode
    ensures { result ≡ spec.sign_step byte }
{
    if is_digit(byte) {
        Mode::Digits
    } else if byte == b'.' {
        Mode::Fraction
    } else {
        any_step(false, byte)
    }
}

/// Behind one more character.
fn step(mode: Mode, byte: u8) -> Mode
    ensures { result ≡ spec.step mode byte }
{
    match mode {
        Mode::Front {
            expected,
            behind_gap,
        } => front_step(expected, behind_gap, byte),
        Mode::Sign => sign_step(byte),
        Mode::Fraction => if is_digit(byte) {
            Mode::Fraction
        } else {
            any_step(false, byte)
        },
        Mode::Digits => digits_step(byte),
        Mode::Hyphen => hyphen_step(byte),
        Mode::Name { so_far } => name_step(so_far, byte),
        Mode::IsI => if byte.to_ascii_uppercase() == b'S' {
            Mode::IsIs
        } else {
            picture_step(byte)
        },
        Mode::IsIs => if is_name_byte(byte) {
            picture_step(byte)
        } else {
            front_step(Expected::Picture, false, byte)
        },
        Mode::Picture { behind_gap: _ } => picture_step(byte),
        Mode::PictureEqual => if byte == b'=' {
            behind_piece()
        } else {
            picture_step(byte)
        },
        Mode::Comparison => if byte == b'=' {
            behind_piece()
        } else {
            any_step(false, byte)
        },
        Mode::Literal { mark } => if byte == mark {
            Mode::Closed { mark }
        } else {
            Mode::Literal { mark }
        },
        Mode::Closed { mark } => if byte == mark {
            Mode::Literal { mark }
        } else {
            any_step(is_gap(mark), byte)
        },
    }
}

/// Behind more characters.
pub fn steps(mode: Mode, chars: &[Placed]) -> Mode
    ensures { result ≡ spec.steps mode chars.now }
{
    let mut rest = chars;
    let mut mode = mode;
    while let [first, after @ ..] = rest {
        mode = step(mode, first.byte);
        rest = after;
    }
    mode
}

/// The mark of the literal that is open.
pub fn open_mark(mode: Mode) -> Option<u8>
    ensures { result ≡ spec.open_mark mode }
{
    match mode {
        Mode::Literal { mark } => Some(mark),
        _ => None,
    }
}

/// At the front of a text.
pub fn front_mode(expected: Expected) -> Mode
    ensures { result ≡ spec.front_mode expected }
{
    Mode::Front {
        expected,
        behind_gap: true,
    }
}
