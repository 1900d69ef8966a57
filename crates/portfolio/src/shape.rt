ghost use Rattle.std.specs.Prelude.{◌≡◌, length};
ghost use Rattle.toml.specs.View.{view, table_view, items_view};
ghost use Rattle.portfolio.specs.Values as spec;

use crate::name::is_small_letter;
use toml::{Table, Value};

/// What a table's keys and values are to fit into.
#[derive(Clone, Copy)]
pub enum Entry {
    /// A table of names.
    Name,
    /// A table of copybooks.
    Book,
    /// A table of jobs.
    Job,
    /// A window's group.
    Part,
}

/// The most programs of a portfolio. This project's choice.
const MOST_PROGRAMS: usize = 200;

fn small_number(number: i64) -> u8
    ensures { result ≡ spec.small_number number }
{
    if number < 0 || number > 255 {
        0
    } else {
        number as u8
    }
}

/// The number that an integer is; 0 where there is none from 0 to 255.
pub fn number(value: &Value) -> u8
    ensures { result ≡ spec.number (view value.now) }
{
    match value.as_integer() {
        Some(number) => small_number(number),
        None => 0,
    }
}

pub fn is_number_to(value: &Value, most: u8) -> bool
    ensures { result ≡ spec.is_number_to most (view value.now) }
{
    let number = number(value);
    1 <= number && number <= most
}

pub fn is_text(value: &Value) -> bool
    ensures { result ≡ spec.is_text (view value.now) }
{
    value.is_str()
}

fn are_texts(items: &[Value]) -> bool
    ensures { result ≡ spec.all_items spec.is_text (items_view items.now) }
{
    let mut rest = items;
    while let [value, more @ ..] = rest {
        if !is_text(value) {
            return false;
        }
        rest = more;
    }
    true
}

pub fn is_text_list(value: &Value) -> bool
    ensures { result ≡ spec.is_text_list (view value.now) }
{
    match value.as_array() {
        Some(items) => are_texts(items.as_slice()),
        None => false,
    }
}

fn item_count(value: &Value) -> usize
    ensures { result ≡ length (spec.text_list (view value.now)) }
{
    match value.as_array() {
        Some(items) => items.len(),
        None => 0,
    }
}

pub fn is_program_list(value: &Value) -> bool
    ensures { result ≡ spec.is_program_list (view value.now) }
{
    let count = item_count(value);
    is_text_list(value) && 1 <= count && count <= MOST_PROGRAMS
}

fn has_small_letter(key: &str) -> bool
    ensures { result ≡ spec.has_small_letter key.now }
{
    let mut rest = key.as_bytes();
    while let [byte, more @ ..] = rest {
        if is_small_letter(*byte) {
            return true;
        }
        rest = more;
    }
    false
}

fn fits_group(key: &str, value: &Value) -> bool
    ensures { result ≡ spec.fits Entry.Part key.now (view value.now) }
{
    if key == "pivot" {
        is_number_to(value, 99)
    } else {
        key == "items" && is_text_list(value)
    }
}

fn fits(entry: Entry, key: &str, value: &Value) -> bool
    ensures { result ≡ spec.fits entry key.now (view value.now) }
{
    match entry {
        Entry::Name => is_text(value),
        Entry::Book => is_text(value) && !has_small_letter(key),
        Entry::Job => is_text_list(value),
        Entry::Part => fits_group(key, value),
    }
}

fn are_entries(entry: Entry, table: &Table) -> bool
    ensures { result ≡ spec.all_members (spec.fits entry) (table_view table.now) }
{
    for (key, value) in table.iter() {
        if !fits(entry, key.as_str(), value) {
            return false;
        }
    }
    true
}

pub fn is_table_of(entry: Entry, value: &Value) -> bool
    ensures { result ≡ spec.is_table_of entry (view value.now) }
{
    match value.as_table() {
        Some(table) => are_entries(entry, table),
        None => false,
    }
}

/// Whether a value is a table with exactly the keys `pivot` and `items`.
fn is_group(value: &Value) -> bool
    ensures { result ≡ spec.is_group (view value.now) }
{
    is_table_of(Entry::Part, value) && value.get("pivot").is_some() && value.get("items").is_some()
}

fn are_groups(items: &[Value]) -> bool
    ensures { result ≡ spec.all_items spec.is_group (items_view items.now) }
{
    let mut rest = items;
    while let [value, more @ ..] = rest {
        if !is_group(value) {
            return false;
        }
        rest = more;
    }
    true
}

pub fn is_group_list(value: &Value) -> bool
    ensures { result ≡ spec.is_group_list (view value.now) }
{
    match value.as_array() {
        Some(items) => are_groups(items.as_slice()),
        None => false,
    }
}
