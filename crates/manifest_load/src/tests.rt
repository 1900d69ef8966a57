use super::*;
use portfolio::ManifestKind;
use shelf::MemoryShelf;
use std::alloc::Global;
use std::test::Fail;

const MANIFEST: &str = "version = 1\npivot = 50\nprograms = [\"A.cbl\"]\n";

/// What the shelf holds under that name where its only file is this one, and its call of that number fails.
fn open(
    alloc: Global,
    file: &str,
    bytes: &[u8],
    name: &str,
    fault: u64,
) -> Result<Result<Opened, ManifestRefusal>, Fail> {
    let mut shelf = MemoryShelf::new(alloc)?;
    shelf.put(file, bytes)?;
    shelf.fail_on(fault)?;
    Ok(open_manifest(alloc, name, &mut shelf))
}

#[test]
fn a_manifest_has_its_folder_and_length(rt: HostRuntime) -> Result<(), Fail> {
    let alloc = rt.alloc();
    for (name, folder) in [("m.toml", ""), ("a/m.toml", "a/"), ("a.b/c/m", "a.b/c/")] {
        match open(alloc, name, MANIFEST.as_bytes(), name, 0)? {
            Ok(opened) => {
                assert_eq!(rt; opened.manifest.pivot, 50);
                assert_eq!(rt; opened.folder.as_str(), folder);
                assert_eq!(rt; opened.length, 44);
            }
            Err(_) => assert!(rt; false),
        }
    }
    Ok(())
}

/// Whether the file of these bytes is refused so.
fn is_refused(alloc: Global, bytes: &[u8], kind: ManifestKind, key: &str) -> Result<bool, Fail> {
    match &open(alloc, "m.toml", bytes, "m.toml", 0)? {
        Err(
            ManifestRefusal::At {
                kind: found,
                key: named,
            },
        ) => Ok(*found == kind && named.items() == key.as_bytes()),
        _ => Ok(false),
    }
}

fn is_no_document(alloc: Global, bytes: &[u8]) -> Result<bool, Fail> {
    match &open(alloc, "m.toml", bytes, "m.toml", 0)? {
        Err(ManifestRefusal::NotToml) => Ok(true),
        _ => Ok(false),
    }
}

#[test]
fn faults_of_a_manifest_are_named(rt: HostRuntime) -> Result<(), Fail> {
    let alloc = rt.alloc();
    assert!(rt; is_no_document(alloc, b"version = ")?);
    assert!(rt; is_no_document(alloc, b"version = 1 # \xff\n")?);
    assert!(rt;
        is_refused(
            alloc,
            b"version = 1\nprograms = [\"A.cbl\"]\nmore = 1\n",
            ManifestKind::MissingKey,
            "pivot"
        )?
    );
    assert!(rt;
        is_refused(
            alloc,
            b"version = 1\npivot = 100\nprograms = [\"A.cbl\", \"A.cbl\"]\n",
            ManifestKind::BadValue,
            "pivot"
        )?
    );
    assert!(rt;
        is_refused(
            alloc,
            b"version = 2\npivot = 50\nprograms = [\"A.cbl\"]\nwindow = [\"A.YY\"]\n",
            ManifestKind::BadValue,
            "window"
        )?
    );
    assert!(rt;
        is_refused(
            alloc,
            b"version = 1\npivot = 50\nprograms = [\"A.cbl\", \"A.cbl\"]\n",
            ManifestKind::NameTwice,
            "A.cbl"
        )?
    );
    Ok(())
}

/// The manifest, and a comment that makes it so long.
fn padded(alloc: Global, length: usize) -> Result<Vec<u8>, Fail> {
    let mut bytes = Vec::new(alloc);
    bytes.extend_from_slice(MANIFEST.as_bytes())?;
    bytes.push(b'#')?;
    for _ in bytes.len()..length {
        bytes.push(b'x')?;
    }
    Ok(bytes)
}

#[test]
fn a_manifest_has_at_most_four_million_bytes(rt: HostRuntime) -> Result<(), Fail> {
    let alloc = rt.alloc();
    let most = padded(alloc, 4_000_000)?;
    assert!(rt; open(alloc, "m.toml", most.as_slice(), "m.toml", 0)?.is_ok());
    let more = padded(alloc, 4_000_001)?;
    match &open(alloc, "m.toml", more.as_slice(), "m.toml", 0)? {
        Err(ManifestRefusal::TooLarge) => {}
        _ => assert!(rt; false),
    }
    Ok(())
}

#[test]
fn a_missing_manifest_and_a_failing_shelf_are_told_apart(rt: HostRuntime) -> Result<(), Fail> {
    let alloc = rt.alloc();
    match &open(alloc, "m.toml", MANIFEST.as_bytes(), "n.toml", 0)? {
        Err(ManifestRefusal::Missing) => {}
        _ => assert!(rt; false),
    }
    for call in [1, 2] {
        match &open(alloc, "m.toml", MANIFEST.as_bytes(), "m.toml", call)? {
            Err(ManifestRefusal::Shelf) => {}
            _ => assert!(rt; false),
        }
    }
    assert!(rt; open(alloc, "m.toml", MANIFEST.as_bytes(), "m.toml", 3)?.is_ok());
    Ok(())
}
