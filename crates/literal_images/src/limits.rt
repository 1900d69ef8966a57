ghost use Rattle.std.specs.Prelude.{◌≡◌, ◌≤◌, ◌++◌, Some, OnOk};
ghost use Rattle.literal_images.specs.Limits as spec;
ghost use Rattle.literal_images.specs.declared.image.NewWord.TheVariants as words;

use crate::image::{NewWord, image_at, is_bad};
use crate::meeting::{Meeting, expanded_in, meeting_of};
use cobol_syntax::Program;
use date_uses::{DateUse, UseForm, Used};
use date_views::{Field, Side};
use plan_limits::{Limit, LimitKind, add_number_limit, add_word_limit};
use std::alloc::Global;
use y2k_base::{Bytes, List, Memory, Origin, Word};
use year_index::YearIndex;

/// A point is no digit.
fn digit_count(byte: u8) -> usize
    ensures count { result ≡ spec.digit_count byte }
    ensures small { result ≤ 1 }
{
    if byte == b'.' { 0 } else { 1 }
}

/// How many digits the text of a number has.
fn digits_in(text: &[u8]) -> usize
    ensures { result ≡ spec.digits_in text.now }
{
    let mut count = 0;
    let mut rest = text;
    while let [byte, more @ ..] = rest {
        count += digit_count(*byte);
        rest = more;
    }
    count
}

fn add_number_size(limits: &mut List<Limit>, at: Origin, text: &Bytes) -> Result<(), Memory>
    ensures { OnOk result (limits.new ≡ limits.old ++ spec.size_limits at (words.Number text.now)) }
{
    let digits = digits_in(text.items()) as u64;
    if digits > 18 {
        add_number_limit(limits, LimitKind::TooManyDigits, at, digits)?;
    }
    Ok(())
}

fn add_text_size(limits: &mut List<Limit>, at: Origin, text: &Bytes) -> Result<(), Memory>
    ensures { OnOk result (limits.new ≡ limits.old ++ spec.size_limits at (words.Literal text.now)) }
{
    let length = text.len() as u64;
    if length > 160 {
        add_number_limit(limits, LimitKind::LiteralFull, at, length)?;
    }
    Ok(())
}

/// Adds that a number has more than 18 digits, or a text more than 160 characters.
fn add_size(limits: &mut List<Limit>, at: Origin, new: &NewWord) -> Result<(), Memory>
    ensures { OnOk result (limits.new ≡ limits.old ++ spec.size_limits at new.now) }
{
    match new {
        NewWord::Number(text) => {
            add_number_size(limits, at, text)?;
            Ok(())
        }
        NewWord::Literal(text) => {
            add_text_size(limits, at, text)?;
            Ok(())
        }
    }
}

fn add_bad(alloc: Global, limits: &mut List<Limit>, word: &Word, bad: bool) -> Result<(), Memory>
    ensures { OnOk result (limits.new ≡ limits.old ++ spec.bad_limits word.now bad) }
{
    if bad {
        let text = word.text.items();
        add_word_limit(alloc, limits, LimitKind::BadYearLiteral, word.origin, text)?;
    }
    Ok(())
}

fn add_word(
    alloc: Global,
    limits: &mut List<Limit>,
    word: &Word,
    bad: bool,
    new: &Option<NewWord>,
) -> Result<(), Memory>
    ensures { OnOk result (limits.new ≡ limits.old ++ spec.word_limits word.now bad new.now) }
{
    match new {
        None => Ok(()),
        Some(new) => {
            add_bad(alloc, limits, word, bad)?;
            add_size(limits, word.origin, new)?;
            Ok(())
        }
    }
}

/// Adds the limits of a literal with its word, where it meets a field.
fn add_at(
    alloc: Global,
    limits: &mut List<Limit>,
    index: &YearIndex,
    word: &Word,
    meeting: Meeting,
    literal: &Used,
    field: &Field,
) -> Result<(), Memory>
    ensures { OnOk result (limits.new ≡ limits.old ++ spec.limits_at index.now word.now meeting literal.now field.now) }
{
    let modes = expanded_in(alloc, index, field.span)?;
    let bad = is_bad(alloc, meeting, literal, field, modes.items())?;
    let new = image_at(alloc, index, meeting, literal, field)?;
    add_word(alloc, limits, word, bad, &new)?;
    Ok(())
}

fn add_beside(
    alloc: Global,
    limits: &mut List<Limit>,
    index: &YearIndex,
    word: &Word,
    meeting: Meeting,
    literal: &Used,
    side: &Option<Side>,
) -> Result<(), Memory>
    ensures { OnOk result (limits.new ≡ limits.old ++ spec.limits_beside index.now word.now meeting literal.now side.now) }
{
    match side {
        None => Ok(()),
        Some(Side::Known(field)) => {
            add_at(alloc, limits, index, word, meeting, literal, field)?;
            Ok(())
        }
        Some(Side::Moving { most: _ }) => Ok(()),
    }
}

fn add_with(
    alloc: Global,
    limits: &mut List<Limit>,
    index: &YearIndex,
    word: &Word,
    meeting: Meeting,
    literal: &Used,
    operand: &Used,
) -> Result<(), Memory>
    ensures { OnOk result (limits.new ≡ limits.old
        ++ spec.limits_with index.now (Some word.now) meeting literal.now operand.now) }
{
    match operand {
        Used::Place(place) => {
            add_beside(alloc, limits, index, word, meeting, literal, &place.side)?;
            Ok(())
        }
        Used::Number {
            value: _,
            digits: _,
            at: _,
        } => Ok(()),
        Used::Text { bytes: _, at: _ } => Ok(()),
        Used::Figure { byte: _, at: _ } => Ok(()),
    }
}

/// The position of the first word of an operand.
fn position(literal: &Used) -> u32
    ensures { result ≡ spec.position literal.now }
{
    match literal {
        Used::Place(place) => place.at,
        Used::Number {
            value: _,
            digits: _,
            at,
        } => *at,
        Used::Text { bytes: _, at } => *at,
        Used::Figure { byte: _, at } => *at,
    }
}

/// Adds the limits of a literal that meets an operand.
fn add_of(
    alloc: Global,
    limits: &mut List<Limit>,
    index: &YearIndex,
    program: &Program,
    meeting: Meeting,
    literal: &Used,
    operand: &Used,
) -> Result<(), Memory>
    ensures { OnOk result (limits.new ≡ limits.old
        ++ spec.limits_of index.now program.now meeting literal.now operand.now) }
{
    match program.words.items().get(position(literal) as usize) {
        None => Ok(()),
        Some(word) => {
            add_with(alloc, limits, index, word, meeting, literal, operand)?;
            Ok(())
        }
    }
}

fn add_high(
    alloc: Global,
    limits: &mut List<Limit>,
    index: &YearIndex,
    program: &Program,
    high: &Option<Used>,
    item: &Used,
) -> Result<(), Memory>
    ensures { OnOk result (limits.new ≡ limits.old ++ spec.high_limits index.now program.now high.now item.now) }
{
    match high {
        None => Ok(()),
        Some(high) => {
            add_of(alloc, limits, index, program, Meeting::Compared, high, item)?;
            Ok(())
        }
    }
}

fn add_form(
    alloc: Global,
    limits: &mut List<Limit>,
    index: &YearIndex,
    program: &Program,
    form: &UseForm,
) -> Result<(), Memory>
    ensures { OnOk result (limits.new ≡ limits.old ++ spec.form_limits index.now program.now form.now) }
{
    match form {
        UseForm::Move {
            kind,
            from,
            to,
            bridge: _,
        } => {
            let meeting = meeting_of(*kind);
            add_of(alloc, limits, index, program, meeting, from, to)?;
            Ok(())
        }
        UseForm::Compare {
            left,
            rel: _,
            right,
        } => {
            add_of(
                alloc,
                limits,
                index,
                program,
                Meeting::Compared,
                left,
                right,
            )?;
            add_of(
                alloc,
                limits,
                index,
                program,
                Meeting::Compared,
                right,
                left,
            )?;
            Ok(())
        }
        UseForm::Value { item, of } => {
            add_of(alloc, limits, index, program, Meeting::Moved, of, item)?;
            Ok(())
        }
        UseForm::Range { item, low, high } => {
            add_of(alloc, limits, index, program, Meeting::Compared, low, item)?;
            add_high(alloc, limits, index, program, high, item)?;
            Ok(())
        }
        UseForm::Accept { to: _, from: _ } => Ok(()),
        UseForm::Class { of: _, numeric: _ } => Ok(()),
        UseForm::Sum {
            to: _,
            left: _,
            right: _,
            size: _,
        } => Ok(()),
        UseForm::Difference {
            to: _,
            left: _,
            right: _,
            size: _,
        } => Ok(()),
        UseForm::Mention { of: _ } => Ok(()),
    }
}

fn add_use(
    alloc: Global,
    limits: &mut List<Limit>,
    programs: &[Program],
    index: &YearIndex,
    date_use: &DateUse,
) -> Result<(), Memory>
    ensures { OnOk result (limits.new ≡ limits.old ++ spec.use_limits programs.now index.now date_use.now) }
{
    match programs.get(date_use.program as usize) {
        None => Ok(()),
        Some(program) => {
            add_form(alloc, limits, index, program, &date_use.form)?;
            Ok(())
        }
    }
}

/// Adds the limits of literals: those that meet a year that gets its century and can't stand for what they mean there, and
/// those of which the new word is too long.
pub fn add_literal_limits(
    alloc: Global,
    limits: &mut List<Limit>,
    programs: &[Program],
    index: &YearIndex,
    uses: &[DateUse],
) -> Result<(), Memory>
    ensures { OnOk result (limits.new ≡ limits.old ++ spec.literal_limits programs.now index.now uses.now) }
{
    let mut rest = uses;
    while let [date_use, more @ ..] = rest {
        add_use(alloc, limits, programs, index, date_use)?;
        rest = more;
    }
    Ok(())
}
