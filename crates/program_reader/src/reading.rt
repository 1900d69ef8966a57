ghost use Rattle.std.specs.Prelude.{◌≡◌, length, IfOk};
ghost use Rattle.program_reader.specs.Readings as spec;

use crate::fault::{Refused, RefusedKind};
use picture::{PicFault, read_picture};
use std::alloc::Global;
use y2k_base::{List, Memory, Picture, Word, WordKind};

/// What the character-string of a PICTURE clause reads as.
pub enum Reading {
    /// The word is none.
    Plain,
    Picture(Picture),
    /// It has no reading.
    Refused(Refused),
}

impl Drop for Reading {
    fn drop(self) {
        match self {
            Reading::Plain => {}
            Reading::Picture(_picture) => {}
            Reading::Refused(_) => {}
        }
    }
}

/// What each of the words reads as.
pub fn readings_of(alloc: Global, mut words: &[Word]) -> Result<List<Reading>, Memory>
    ensures read { IfOk result (spec.AreReadings words.entry.now) }
    ensures paired { IfOk result (λ readings. length readings ≡ length words.entry.now) }
{
    let mut readings = List::new(alloc);
    while let [word, rest @ ..] = words {
        let reading = reading_of(alloc, word)?;
        readings.push(reading)?;
        words = rest;
    }
    Ok(readings)
}

fn reading_of(alloc: Global, word: &Word) -> Result<Reading, Memory>
    ensures { IfOk result (spec.IsReadingOf word.now) }
{
    match word.kind {
        WordKind::Picture => picture_of(alloc, word),
        WordKind::Name => Ok(Reading::Plain),
        WordKind::Number => Ok(Reading::Plain),
        WordKind::Literal => Ok(Reading::Plain),
        WordKind::Mark => Ok(Reading::Plain),
    }
}

/// What a character-string reads as.
fn picture_of(alloc: Global, word: &Word) -> Result<Reading, Memory>
    ensures { IfOk result (spec.IsPictureOf word.now) }
{
    match read_picture(alloc, word.text.items()) {
        Ok(picture) => Ok(Reading::Picture(picture)),
        Err(PicFault::PictureFull) => Ok(Reading::Refused(Refused {
            kind: RefusedKind::PictureFull,
            at: word.origin,
        })),
        Err(PicFault::PictureShape) => Ok(Reading::Refused(Refused {
            kind: RefusedKind::PictureShape,
            at: word.origin,
        })),
        Err(PicFault::TooManyDigits) => Ok(Reading::Refused(Refused {
            kind: RefusedKind::TooManyDigits,
            at: word.origin,
        })),
        Err(PicFault::Memory) => Err(Memory),
    }
}
