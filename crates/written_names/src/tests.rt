use super::*;
use manifest_load::Opened;
use portfolio::{Manifest, Named};
use shelf::{MemoryShelf, ShelfErr};
use std::alloc::Global;
use std::test::Fail;
use y2k_base::{Bytes, List};

fn bytes(alloc: Global, text: &str) -> Result<Bytes, Fail> {
    let mut bytes = List::new(alloc);
    bytes.append(text.as_bytes())?;
    Ok(bytes)
}

fn named(alloc: Global, key: &str, name: &str) -> Result<List<Named>, Fail> {
    let mut list = List::new(alloc);
    list.push(Named {
        key: bytes(alloc, key)?,
        name: bytes(alloc, name)?,
    })?;
    Ok(list)
}

/// A manifest in the folder `in/` of one program, one copybook, seeds and one data file.
fn opened(alloc: Global) -> Result<Opened, Fail> {
    let mut programs = List::new(alloc);
    programs.push(bytes(alloc, "A.cbl")?)?;
    Ok(Opened {
        manifest: Manifest {
            version: 1,
            pivot: 50,
            programs,
            copybooks: named(alloc, "C", "C.cpy")?,
            seeds: Some(bytes(alloc, "seeds.csv")?),
            window: List::new(alloc),
            files: named(alloc, "E", "data/E.dat")?,
            jobs: List::new(alloc),
        },
        folder: String::from_str(alloc, "in/")?,
        length: 0,
        text: List::new(alloc),
    })
}

/// Whether this is the clash of these names; a point is none.
fn is_clash(alloc: Global, written: &[&str], want: &str) -> Result<bool, Fail> {
    let mut names = List::new(alloc);
    for name in written {
        names.push(bytes(alloc, name)?)?;
    }
    match out_clash(alloc, "in/m.toml", &opened(alloc)?, names.items())? {
        Some(name) => Ok(name.items() == want.as_bytes()),
        None => Ok(want == "."),
    }
}

#[test]
fn the_least_name_that_is_read_or_stands_twice_is_a_clash(rt: HostRuntime) -> Result<(), Fail> {
    let alloc = rt.alloc();
    assert!(rt; is_clash(alloc, &["x/done", "x/E"], ".")?);
    assert!(rt; is_clash(alloc, &["m.toml", "A.cbl"], ".")?);
    assert!(rt; is_clash(alloc, &["x", "in/m.toml"], "in/m.toml")?);
    assert!(rt; is_clash(alloc, &["x", "in/A.cbl"], "in/A.cbl")?);
    assert!(rt; is_clash(alloc, &["in/seeds.csv", "in/C.cpy"], "in/C.cpy")?);
    assert!(rt; is_clash(alloc, &["x", "in/seeds.csv"], "in/seeds.csv")?);
    assert!(rt; is_clash(alloc, &["in/data/E.dat", "z", "z"], "in/data/E.dat")?);
    assert!(rt; is_clash(alloc, &["in/data/E.dat", "a", "a"], "a")?);
    assert!(rt; is_clash(alloc, &["x/done", "x/a", "x/done"], "x/done")?);
    Ok(())
}

#[test]
fn a_run_writes_its_data_files_and_done(rt: HostRuntime) -> Result<(), Fail> {
    let alloc = rt.alloc();
    let opened = opened(alloc)?;
    let names = names_of_run(alloc, "o/p", opened.manifest.files.items())?;
    assert_eq!(rt; names.len(), 2);
    for (i, name) in [(0, "o/p/data/E.dat"), (1, "o/p/done")] {
        match names.items().get(i) {
            Some(found) => assert_eq!(rt; found.items(), name.as_bytes()),
            None => assert!(rt; false),
        }
    }
    Ok(())
}

#[test]
fn a_folder_is_taken_where_done_has_five_bytes(rt: HostRuntime) -> Result<(), Fail> {
    let alloc = rt.alloc();
    for (done, taken) in [
        ("done\n", true),
        ("done", false),
        ("longer", true),
        ("", false),
    ] {
        let mut shelf = MemoryShelf::new(alloc)?;
        assert_eq!(rt; out_taken(alloc, "o", &mut shelf), Ok(false));
        shelf.put("o/done", done.as_bytes())?;
        assert_eq!(rt; out_taken(alloc, "o", &mut shelf), Ok(taken));
        shelf.fail_on(3)?;
        assert_eq!(rt; out_taken(alloc, "o", &mut shelf), Err(ShelfErr::Failed));
    }
    Ok(())
}
