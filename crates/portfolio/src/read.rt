ghost use Rattle.std.specs.Prelude.{◌≡◌, None, map, IfOk, IfErr, OnOk, MatchOption};
ghost use Rattle.std.specs.List.{find, list_any};
ghost use Rattle.std.specs.Option.{option_to_list};
ghost use Rattle.toml.specs.View.{view, table_view};
ghost use Rattle.portfolio.specs.Keys.{all_keys, needed_keys};
ghost use Rattle.portfolio.specs.Meaning.{manifest_of};
ghost use Rattle.portfolio.specs.Faults as spec;

use crate::fault::{ManifestFault, ManifestKind, refusal};
use crate::key::{ALL_KEYS, Key, NEEDED_KEYS, is_word_of};
use crate::manifest::{Manifest, Named};
use crate::name::is_file_name;
use crate::repeat::repeated_file;
use crate::shape::{
    Entry, is_group_list, is_number_to, is_program_list, is_table_of, is_text, is_text_list,
};
use crate::tree;
use crate::tree::{is_first_version, value_at};
use std::alloc::Global;
use toml::{Table, Value};
use y2k_base::Bytes;

/// The manifest that a table stands for, as `toml` reads it, or its first fault.
///
/// Faults go by their kinds, and those of one kind by the order version, pivot, programs, copybooks, seeds,
/// window, files, jobs; of unknown keys, and of names that stand twice, the least in byte order is named. A
/// window of the first version is one group with the manifest's pivot.
pub fn read_manifest(alloc: Global, table: &Table) -> Result<Manifest, ManifestFault>
    ensures ok { IfOk result (λ manifest. manifest ≡ manifest_of (table_view table.now)) }
    ensures free { OnOk result (spec.HasNoFault (table_view table.now)) }
    ensures err { IfErr result (spec.HasFault (table_view table.now)) }
    ensures only { IfErr result (spec.IsOnlyFault (table_view table.now)) }
{
    check_keys(alloc, table)?;
    check_values(alloc, table)?;
    let manifest = tree::manifest_of(alloc, table)?;
    check_names(alloc, &manifest)?;
    check_unknown(alloc, table)?;
    check_repeated(alloc, &manifest)?;
    Ok(manifest)
}

fn check_keys(alloc: Global, table: &Table) -> Result<(), ManifestFault>
    ensures ok { OnOk result (find (spec.is_missing (table_view table.now)) needed_keys ≡ None) }
    ensures err { IfErr result (spec.IsOfKind ManifestKind.MissingKey (spec.IsFirst (spec.is_missing (table_view table.now)) needed_keys)) }
{
    match first_missing(&NEEDED_KEYS, table) {
        Some(key) => Err(refusal(alloc, ManifestKind::MissingKey, key.word().as_bytes())),
        None => Ok(()),
    }
}

fn check_values(alloc: Global, table: &Table) -> Result<(), ManifestFault>
    ensures ok { OnOk result (find (spec.has_bad_value (table_view table.now)) all_keys ≡ None) }
    ensures err { IfErr result (spec.IsOfKind ManifestKind.BadValue (spec.IsFirst (spec.has_bad_value (table_view table.now)) all_keys)) }
{
    match first_bad_value(&ALL_KEYS, table) {
        Some(key) => Err(refusal(alloc, ManifestKind::BadValue, key.word().as_bytes())),
        None => Ok(()),
    }
}

fn check_names(alloc: Global, manifest: &Manifest) -> Result<(), ManifestFault>
    ensures ok { OnOk result (find (spec.has_bad_name manifest.now) all_keys ≡ None) }
    ensures err { IfErr result (spec.IsOfKind ManifestKind.BadName (spec.IsFirst (spec.has_bad_name manifest.now) all_keys)) }
{
    match first_bad_name(&ALL_KEYS, manifest) {
        Some(key) => Err(refusal(alloc, ManifestKind::BadName, key.word().as_bytes())),
        None => Ok(()),
    }
}

fn check_unknown(alloc: Global, table: &Table) -> Result<(), ManifestFault>
    ensures ok { OnOk result (spec.NonePasses (spec.is_unknown (table_view table.now))) }
    ensures err { IfErr result (spec.IsOfKind ManifestKind.UnknownKey (spec.IsLeast (spec.is_unknown (table_view table.now)))) }
{
    match least_unknown(table) {
        Some(key) => Err(refusal(alloc, ManifestKind::UnknownKey, key.as_bytes())),
        None => Ok(()),
    }
}

fn check_repeated(alloc: Global, manifest: &Manifest) -> Result<(), ManifestFault>
    ensures ok { OnOk result (spec.NonePasses (spec.is_twice_in (spec.all_files manifest.now))) }
    ensures err { IfErr result (spec.IsOfKind ManifestKind.NameTwice (spec.IsLeast (spec.is_twice_in (spec.all_files manifest.now)))) }
{
    match repeated_file(alloc, manifest) {
        Ok(None) => Ok(()),
        Ok(Some(key)) => Err(ManifestFault::At {
            kind: ManifestKind::NameTwice,
            key,
        }),
        Err(_) => Err(ManifestFault::Memory),
    }
}

fn is_missing(key: Key, table: &Table) -> bool
    ensures { result ≡ spec.is_missing (table_view table.now) key }
{
    value_at(key, table).is_none()
}

fn first_missing(keys: &[Key], table: &Table) -> Option<Key>
    ensures { result ≡ find (spec.is_missing (table_view table.now)) keys.now }
{
    let mut rest = keys;
    while let [key, more @ ..] = rest {
        if is_missing(*key, table) {
            return Some(*key);
        }
        rest = more;
    }
    None
}

/// Whether a value has its key's type and range.
fn is_right(is_first: bool, key: Key, value: &Value) -> bool
    ensures { result ≡ spec.is_right is_first key (view value.now) }
{
    match key {
        Key::Version => is_number_to(value, 2),
        Key::Pivot => is_number_to(value, 99),
        Key::Programs => is_program_list(value),
        Key::Copybooks => is_table_of(Entry::Book, value),
        Key::Seeds => is_text(value),
        Key::Window => is_window(is_first, value),
        Key::Files => is_table_of(Entry::Name, value),
        Key::Jobs => is_table_of(Entry::Job, value),
    }
}

fn is_window(is_first: bool, value: &Value) -> bool
    ensures { result ≡ spec.is_right is_first Key.Window (view value.now) }
{
    if is_first {
        is_text_list(value)
    } else {
        is_group_list(value)
    }
}

fn has_bad_value(key: Key, table: &Table) -> bool
    ensures { result ≡ spec.has_bad_value (table_view table.now) key }
{
    match value_at(key, table) {
        Some(value) => !is_right(is_first_version(table), key, value),
        None => false,
    }
}

fn first_bad_value(keys: &[Key], table: &Table) -> Option<Key>
    ensures { result ≡ find (spec.has_bad_value (table_view table.now)) keys.now }
{
    let mut rest = keys;
    while let [key, more @ ..] = rest {
        if has_bad_value(*key, table) {
            return Some(*key);
        }
        rest = more;
    }
    None
}

fn has_bad_text(names: &[Bytes]) -> bool
    ensures { result ≡ list_any spec.is_bad_name names.now }
{
    let mut rest = names;
    while let [name, more @ ..] = rest {
        if !is_file_name(name.items()) {
            return true;
        }
        rest = more;
    }
    false
}

fn has_bad_file(files: &[Named]) -> bool
    ensures { result ≡ list_any spec.is_bad_name (map spec.file_of files.now) }
{
    let mut rest = files;
    while let [file, more @ ..] = rest {
        if !is_file_name(file.name.items()) {
            return true;
        }
        rest = more;
    }
    false
}

fn has_bad_name(key: Key, manifest: &Manifest) -> bool
    ensures { result ≡ spec.has_bad_name manifest.now key }
{
    match key {
        Key::Programs => has_bad_text(manifest.programs.items()),
        Key::Copybooks => has_bad_file(manifest.copybooks.items()),
        Key::Seeds => has_bad_seeds(&manifest.seeds),
        Key::Files => has_bad_file(manifest.files.items()),
        _ => false,
    }
}

fn has_bad_seeds(seeds: &Option<Bytes>) -> bool
    ensures { result ≡ list_any spec.is_bad_name (option_to_list seeds.now) }
{
    match seeds {
        Some(name) => !is_file_name(name.items()),
        None => false,
    }
}

fn first_bad_name(keys: &[Key], manifest: &Manifest) -> Option<Key>
    ensures { result ≡ find (spec.has_bad_name manifest.now) keys.now }
{
    let mut rest = keys;
    while let [key, more @ ..] = rest {
        if has_bad_name(*key, manifest) {
            return Some(*key);
        }
        rest = more;
    }
    None
}

/// The least key that is none of a manifest's.
fn least_unknown(table: &Table) -> Option<&str>
    ensures { MatchOption result (spec.NonePasses (spec.is_unknown (table_view table.now))) (λ key. spec.IsLeast (spec.is_unknown (table_view table.now)) key.now) }
{
    for (key, _) in table.iter() {
        if !is_word_of(&ALL_KEYS, key.as_str()) {
            return Some(key.as_str());
        }
    }
    None
}
