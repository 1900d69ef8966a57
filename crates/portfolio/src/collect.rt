//! What the values of a manifest mean. Where a value has another form than the one asked for, it counts as
//! an empty one: a manifest is read only where none has.

ghost use Rattle.std.specs.Prelude.{◌≡◌, ◌++◌, IfOk};
ghost use Rattle.toml.specs.View.{view, table_view, items_view};
ghost use Rattle.portfolio.specs.Values as spec;

use crate::manifest::{Named, NamedJob, WindowGroup};
use crate::shape::number;
use std::alloc::Global;
use toml::{Table, Value};
use y2k_base::{Bytes, List, Memory};

/// A copy of bytes.
pub fn copied(alloc: Global, bytes: &[u8]) -> Result<Bytes, Memory>
    ensures { IfOk result (λ copy. copy ≡ bytes.now) }
{
    let mut copy = List::new(alloc);
    copy.append(bytes)?;
    Ok(copy)
}

pub fn text(alloc: Global, value: &Value) -> Result<Bytes, Memory>
    ensures { IfOk result (λ bytes. bytes ≡ spec.text (view value.now)) }
{
    match value.as_str() {
        Some(text) => copied(alloc, text.as_bytes()),
        None => Ok(List::new(alloc)),
    }
}

fn texts(alloc: Global, items: &[Value]) -> Result<List<Bytes>, Memory>
    ensures { IfOk result (λ list. list ≡ spec.texts (items_view items.now)) }
{
    let mut list = List::new(alloc);
    let mut rest = items;
    while let [value, more @ ..] = rest {
        list.push(text(alloc, value)?)?;
        rest = more;
    }
    Ok(list)
}

pub fn text_list(alloc: Global, value: &Value) -> Result<List<Bytes>, Memory>
    ensures { IfOk result (λ list. list ≡ spec.text_list (view value.now)) }
{
    match value.as_array() {
        Some(items) => texts(alloc, items.as_slice()),
        None => Ok(List::new(alloc)),
    }
}

fn named(alloc: Global, key: &str, value: &Value) -> Result<Named, Memory>
    ensures { IfOk result (λ named. named ≡ record { key = key.now; name = spec.text (view value.now) }) }
{
    Ok(Named {
        key: copied(alloc, key.as_bytes())?,
        name: text(alloc, value)?,
    })
}

fn names(alloc: Global, table: &Table) -> Result<List<Named>, Memory>
    ensures { IfOk result (λ list. list ≡ spec.names (table_view table.now)) }
{
    let mut list = List::new(alloc);
    for (key, value) in table.iter() {
        list.push(named(alloc, key.as_str(), value)?)?;
    }
    Ok(list)
}

pub fn name_table(alloc: Global, value: &Value) -> Result<List<Named>, Memory>
    ensures { IfOk result (λ list. list ≡ spec.name_table (view value.now)) }
{
    match value.as_table() {
        Some(table) => names(alloc, table),
        None => Ok(List::new(alloc)),
    }
}

fn named_job(alloc: Global, key: &str, value: &Value) -> Result<NamedJob, Memory>
    ensures { IfOk result (λ job. job ≡ record { key = key.now; programs = spec.text_list (view value.now) }) }
{
    Ok(NamedJob {
        key: copied(alloc, key.as_bytes())?,
        programs: text_list(alloc, value)?,
    })
}

fn jobs(alloc: Global, table: &Table) -> Result<List<NamedJob>, Memory>
    ensures { IfOk result (λ list. list ≡ spec.jobs (table_view table.now)) }
{
    let mut list = List::new(alloc);
    for (key, value) in table.iter() {
        list.push(named_job(alloc, key.as_str(), value)?)?;
    }
    Ok(list)
}

pub fn job_table(alloc: Global, value: &Value) -> Result<List<NamedJob>, Memory>
    ensures { IfOk result (λ list. list ≡ spec.job_table (view value.now)) }
{
    match value.as_table() {
        Some(table) => jobs(alloc, table),
        None => Ok(List::new(alloc)),
    }
}

fn group_pivot(value: &Value) -> u8
    ensures { result ≡ (spec.group (view value.now)).pivot }
{
    match value.get("pivot") {
        Some(pivot) => number(pivot),
        None => 0,
    }
}

fn group_items(alloc: Global, value: &Value) -> Result<List<Bytes>, Memory>
    ensures { IfOk result (λ items. items ≡ (spec.group (view value.now)).items) }
{
    match value.get("items") {
        Some(items) => text_list(alloc, items),
        None => Ok(List::new(alloc)),
    }
}

fn group(alloc: Global, value: &Value) -> Result<WindowGroup, Memory>
    ensures { IfOk result (λ group. group ≡ spec.group (view value.now)) }
{
    Ok(WindowGroup {
        pivot: group_pivot(value),
        items: group_items(alloc, value)?,
    })
}

fn groups(alloc: Global, items: &[Value]) -> Result<List<WindowGroup>, Memory>
    ensures { IfOk result (λ list. list ≡ spec.groups (items_view items.now)) }
{
    let mut list = List::new(alloc);
    let mut rest = items;
    while let [value, more @ ..] = rest {
        list.push(group(alloc, value)?)?;
        rest = more;
    }
    Ok(list)
}

pub fn group_list(alloc: Global, value: &Value) -> Result<List<WindowGroup>, Memory>
    ensures { IfOk result (λ list. list ≡ spec.group_list (view value.now)) }
{
    match value.as_array() {
        Some(items) => groups(alloc, items.as_slice()),
        None => Ok(List::new(alloc)),
    }
}
