ghost use Rattle.std.specs.Prelude.{◌≡◌, ◌≤◌, IfOk, IfErr, IsErrOf, length, string_bytes};
ghost use Rattle.shelf.specs.Causes.{Rose};
ghost use Rattle.toml.specs.View.{table_view};
ghost use Rattle.manifest_load.specs.Documents as spec;
ghost use Rattle.manifest_load.specs.Folder as folder;

use crate::folder::folder_of;
use crate::refusal::{ManifestRefusal, refused, unloaded};
use portfolio::{Manifest, read_manifest};
use shelf::Shelf;
use std::alloc::Global;
use std::str;
use text_load::load;
use toml::{Table, table_from_str};
use y2k_base::{Bytes, Memory};

/// A manifest with its file's folder, which is empty or ends in `/`, its length, and its bytes.
pub struct Opened {
    pub manifest: Manifest,
    pub folder: String,
    pub length: u64,
    pub text: Bytes,
}

impl Drop for Opened {
    fn drop(self) {
        let Opened {
            manifest: _manifest,
            folder: _folder,
            length: _,
            text: _text,
        } = self;
    }
}

/// The manifest that the shelf holds under a name, or the first reason why it holds none: whether the file is there, its
/// size, whether it is a TOML document, and then the order of `read_manifest`.
pub fn open_manifest<S: Shelf>(
    alloc: Global,
    name: &str,
    shelf: &mut S,
) -> Result<Opened, ManifestRefusal>
    ensures opened { IfOk result (spec.IsOpened name.now (S.told shelf.old)) }
    ensures refusal { IfErr result (spec.HasManifestRefusal name.now (S.told shelf.old)) }
    ensures failed { IsErrOf result ManifestRefusal.Shelf → Rose (S.faults shelf.old) (S.faults shelf.new) }
    ensures later { S.faults shelf.old ≤ S.faults shelf.new }
    ensures same { S.told shelf.new ≡ S.told shelf.old }
{
    match load(alloc, name, 0, shelf) {
        Ok(bytes) => match manifest_in(alloc, bytes.items()) {
            Ok(manifest) => opened_of(alloc, name, bytes, manifest),
            Err(refusal) => Err(refusal),
        },
        Err(fault) => Err(unloaded(fault)),
    }
}

fn opened_of(
    alloc: Global,
    name: &str,
    text: Bytes,
    manifest: Manifest,
) -> Result<Opened, ManifestRefusal>
    ensures manifest { IfOk result (λ opened. opened.manifest ≡ manifest) }
    ensures folder { IfOk result (λ opened. string_bytes opened.folder ≡ folder.folder_of name.now) }
    ensures length { IfOk result (λ opened. opened.length ≡ length text) }
    ensures text { IfOk result (λ opened. opened.text ≡ text) }
    ensures refusal { IfErr result (λ refusal. refusal ≡ ManifestRefusal.Memory) }
{
    match text_of(alloc, folder_of(name.as_bytes())) {
        Ok(folder) => Ok(Opened {
            manifest,
            folder,
            length: text.len() as u64,
            text,
        }),
        Err(_) => Err(ManifestRefusal::Memory),
    }
}

/// The bytes as text. Those of a folder are text, as the name that they begin.
fn text_of(alloc: Global, bytes: &[u8]) -> Result<String, Memory>
    ensures { IfOk result (λ text. string_bytes text ≡ bytes.now) }
{
    match str::from_utf8(bytes) {
        Ok(text) => {
            let text = String::from_str(alloc, text)?;
            Ok(text)
        }
        Err(_) => Err(Memory),
    }
}

/// What the bytes of a manifest say.
fn manifest_in(alloc: Global, bytes: &[u8]) -> Result<Manifest, ManifestRefusal>
    ensures manifest { IfOk result (spec.IsSaying bytes.now) }
    ensures refusal { IfErr result (spec.IsRefusedText bytes.now) }
{
    match str::from_utf8(bytes) {
        Ok(text) => match table_from_str(alloc, text) {
            Ok(table) => manifest_of(alloc, &table),
            Err(error) => {
                if error.is_memory() {
                    Err(ManifestRefusal::Memory)
                } else {
                    Err(ManifestRefusal::NotToml)
                }
            }
        },
        Err(_) => Err(ManifestRefusal::NotToml),
    }
}

/// What the tree of a manifest says.
fn manifest_of(alloc: Global, table: &Table) -> Result<Manifest, ManifestRefusal>
    ensures manifest { IfOk result (spec.IsMeant (table_view table.now)) }
    ensures refusal { IfErr result (spec.IsRefusedTree (table_view table.now)) }
{
    match read_manifest(alloc, table) {
        Ok(manifest) => Ok(manifest),
        Err(fault) => Err(refused(alloc, &fault)),
    }
}
