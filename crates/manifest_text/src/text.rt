ghost use Rattle.std.specs.Prelude.{◌≡◌, ◌≤◌, Some, IfOk, OnOk, codes, pos};
ghost use Rattle.toml.specs.Data.{integer, members_depth};
ghost use Rattle.toml.specs.Parse.{parse_document};
ghost use Rattle.toml.specs.View.{table_view};
ghost use Rattle.manifest_text.specs.Converted as spec;

use std::alloc::Global;
use std::str;
use toml::{Table, Value, table_from_str, table_to_string};
use y2k_base::{Bytes, List, Memory};

/// The version of manifests whose windows are groups with pivots of their own.
const VERSION: i64 = 2;

/// The manifest of the converted portfolio, as a TOML document: the tree of the original with `version` 2 and without `seeds`
/// and `window`. Bytes that are no document are answered as want of memory.
pub fn converted_manifest(alloc: Global, text: &[u8]) -> Result<Bytes, Memory>
    ensures { IfOk result (spec.IsConverted text.now) }
{
    let mut tree = tree_of(alloc, text)?;
    convert_tree(alloc, &mut tree)?;
    let bytes = document_of(alloc, &tree)?;
    Ok(bytes)
}

/// The tree of a document.
fn tree_of(alloc: Global, text: &[u8]) -> Result<Table, Memory>
    ensures { IfOk result (λ tree. parse_document text.now ≡ Some (table_view tree)) }
{
    match str::from_utf8(text) {
        Ok(text) => match table_from_str(alloc, text) {
            Ok(tree) => Ok(tree),
            Err(_) => Err(Memory),
        },
        Err(_) => Err(Memory),
    }
}

/// Leaves the tree without seeds and windows, in the second version.
fn convert_tree(alloc: Global, tree: &mut Table) -> Result<(), Memory>
    ensures { OnOk result (table_view tree.new ≡ spec.converted_tree (table_view tree.old)) }
{
    leave_out(tree, "seeds");
    leave_out(tree, "window");
    set_version(alloc, tree)?;
    Ok(())
}

fn leave_out(tree: &mut Table, key: &str)
    ensures { table_view tree.new ≡ spec.without key.now (table_view tree.old) }
{
    tree.remove(key);
}

fn set_version(alloc: Global, tree: &mut Table) -> Result<(), Memory>
    ensures { OnOk result (table_view tree.new ≡ spec.with_member (codes "version") (integer (pos 2)) (table_view tree.old)) }
{
    let key = String::from_str(alloc, "version")?;
    tree.insert(key, Value::Integer(VERSION))?;
    Ok(())
}

/// A document of the tree.
fn document_of(alloc: Global, tree: &Table) -> Result<Bytes, Memory>
    ensures { IfOk result (λ bytes. members_depth (table_view tree.now) ≤ 80 → parse_document bytes ≡ Some (table_view tree.now)) }
{
    match table_to_string(alloc, tree) {
        Ok(text) => {
            let mut bytes = List::new(alloc);
            bytes.append(text.as_bytes())?;
            Ok(bytes)
        }
        Err(_) => Err(Memory),
    }
}
