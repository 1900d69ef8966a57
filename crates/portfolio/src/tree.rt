//! The manifest that a tree means.

ghost use Rattle.std.specs.Prelude.{◌≡◌, [], ◌∷◌, option_map, IfOk};
ghost use Rattle.std.specs.Option.{option_map_or};
ghost use Rattle.toml.specs.View.{view, table_view};
ghost use Rattle.portfolio.specs.Values.{text_list, name_table, job_table, text};
ghost use Rattle.portfolio.specs.Meaning as spec;

use crate::collect;
use crate::key::Key;
use crate::manifest::{Manifest, Named, NamedJob, WindowGroup};
use crate::shape::number;
use std::alloc::Global;
use toml::{Table, Value};
use y2k_base::{Bytes, List, Memory};

/// The value at a key.
pub fn value_at(key: Key, table: &Table) -> Option<&Value>
    ensures { option_map (λ v. view v.now) result ≡ spec.value_at key (table_view table.now) }
{
    table.get(key.word())
}

fn number_at(key: Key, table: &Table) -> u8
    ensures { result ≡ spec.number_at key (table_view table.now) }
{
    match value_at(key, table) {
        Some(value) => number(value),
        None => 0,
    }
}

pub fn is_first_version(table: &Table) -> bool
    ensures { result ≡ spec.is_first_version (table_view table.now) }
{
    number_at(Key::Version, table) == 1
}

fn texts_at(alloc: Global, key: Key, table: &Table) -> Result<List<Bytes>, Memory>
    ensures { IfOk result (λ list. list ≡ option_map_or text_list (spec.value_at key (table_view table.now)) []) }
{
    match value_at(key, table) {
        Some(value) => collect::text_list(alloc, value),
        None => Ok(List::new(alloc)),
    }
}

fn names_at(alloc: Global, key: Key, table: &Table) -> Result<List<Named>, Memory>
    ensures { IfOk result (λ list. list ≡ option_map_or name_table (spec.value_at key (table_view table.now)) []) }
{
    match value_at(key, table) {
        Some(value) => collect::name_table(alloc, value),
        None => Ok(List::new(alloc)),
    }
}

fn jobs_at(alloc: Global, key: Key, table: &Table) -> Result<List<NamedJob>, Memory>
    ensures { IfOk result (λ list. list ≡ option_map_or job_table (spec.value_at key (table_view table.now)) []) }
{
    match value_at(key, table) {
        Some(value) => collect::job_table(alloc, value),
        None => Ok(List::new(alloc)),
    }
}

fn text_at(alloc: Global, key: Key, table: &Table) -> Result<Option<Bytes>, Memory>
    ensures { IfOk result (λ found. found ≡ option_map text (spec.value_at key (table_view table.now))) }
{
    match value_at(key, table) {
        Some(value) => Ok(Some(collect::text(alloc, value)?)),
        None => Ok(None),
    }
}

/// The one group of a window that is a list of items.
fn one_group(alloc: Global, pivot: u8, value: &Value) -> Result<List<WindowGroup>, Memory>
    ensures { IfOk result (λ list. list ≡ record { pivot = pivot; items = text_list (view value.now) } ∷ []) }
{
    let mut list = List::new(alloc);
    let items = collect::text_list(alloc, value)?;
    list.push(WindowGroup { pivot, items })?;
    Ok(list)
}

fn windows(
    alloc: Global,
    is_first: bool,
    pivot: u8,
    value: &Value,
) -> Result<List<WindowGroup>, Memory>
    ensures { IfOk result (λ list. list ≡ spec.windows is_first pivot (view value.now)) }
{
    if is_first {
        one_group(alloc, pivot, value)
    } else {
        collect::group_list(alloc, value)
    }
}

fn windows_at(
    alloc: Global,
    key: Key,
    is_first: bool,
    pivot: u8,
    table: &Table,
) -> Result<List<WindowGroup>, Memory>
    ensures { IfOk result (λ list. list ≡ option_map_or (spec.windows is_first pivot) (spec.value_at key (table_view table.now)) []) }
{
    match value_at(key, table) {
        Some(value) => windows(alloc, is_first, pivot, value),
        None => Ok(List::new(alloc)),
    }
}

/// The manifest that a table means, where it has no fault.
pub fn manifest_of(alloc: Global, table: &Table) -> Result<Manifest, Memory>
    ensures { IfOk result (λ manifest. manifest ≡ spec.manifest_of (table_view table.now)) }
{
    let pivot = number_at(Key::Pivot, table);
    Ok(Manifest {
        version: number_at(Key::Version, table),
        pivot,
        programs: texts_at(alloc, Key::Programs, table)?,
        copybooks: names_at(alloc, Key::Copybooks, table)?,
        seeds: text_at(alloc, Key::Seeds, table)?,
        window: windows_at(alloc, Key::Window, is_first_version(table), pivot, table)?,
        files: names_at(alloc, Key::Files, table)?,
        jobs: jobs_at(alloc, Key::Jobs, table)?,
    })
}
