use super::*;
use std::alloc::Global;
use std::test::Fail;
use y2k_base::{Bytes, List, Memory};

/// Whether the text of a manifest is refused so.
fn is_refused(alloc: Global, text: &str, kind: ManifestKind, key: &[u8]) -> Result<bool, Fail> {
    let table = toml::table_from_str(alloc, text)?;
    match &read_manifest(alloc, &table) {
        Err(
            ManifestFault::At {
                kind: found,
                key: named,
            },
        ) => Ok(*found == kind && named.items() == key),
        _ => Ok(false),
    }
}

fn is_read(alloc: Global, text: &str) -> Result<bool, Fail> {
    let table = toml::table_from_str(alloc, text)?;
    Ok(read_manifest(alloc, &table).is_ok())
}

/// A manifest of the second version with one program and these lines.
fn with(alloc: Global, lines: &str) -> Result<String, Fail> {
    let text = format!(in alloc; "version = 2\npivot = 50\nprograms = [\"A.cbl\"]\n{lines}\n")?;
    Ok(text)
}

fn reads(alloc: Global, lines: &str) -> Result<bool, Fail> {
    is_read(alloc, with(alloc, lines)?.as_str())
}

fn has_bad_value(alloc: Global, lines: &str, key: &[u8]) -> Result<bool, Fail> {
    is_refused(
        alloc,
        with(alloc, lines)?.as_str(),
        ManifestKind::BadValue,
        key,
    )
}

fn has_bad_name(alloc: Global, lines: &str, key: &[u8]) -> Result<bool, Fail> {
    is_refused(
        alloc,
        with(alloc, lines)?.as_str(),
        ManifestKind::BadName,
        key,
    )
}

fn has_unknown_key(alloc: Global, lines: &str, key: &[u8]) -> Result<bool, Fail> {
    is_refused(
        alloc,
        with(alloc, lines)?.as_str(),
        ManifestKind::UnknownKey,
        key,
    )
}

fn has_name_twice(alloc: Global, lines: &str, name: &[u8]) -> Result<bool, Fail> {
    is_refused(
        alloc,
        with(alloc, lines)?.as_str(),
        ManifestKind::NameTwice,
        name,
    )
}

/// Whether the value of one of the needed keys is refused.
fn is_bad(
    alloc: Global,
    version: i32,
    pivot: i32,
    programs: &str,
    key: &[u8],
) -> Result<bool, Fail> {
    let text = format!(in alloc; "version = {version}\npivot = {pivot}\nprograms = {programs}\n")?;
    is_refused(alloc, text.as_str(), ManifestKind::BadValue, key)
}

/// The text of a manifest with so many programs.
fn many_programs(alloc: Global, count: u32) -> Result<String, Fail> {
    let mut text = String::from_str(alloc, "version = 1\npivot = 99\nprograms = [")?;
    for i in 0..count {
        text.push_str(format!(in alloc; "\"P{i}.cbl\", ")?.as_str())?;
    }
    text.push_str("]\n")?;
    Ok(text)
}

fn add(shown: &mut Bytes, text: &Bytes) -> Result<(), Memory> {
    shown.push(b',')?;
    shown.append(text.items())
}

fn add_all(shown: &mut Bytes, texts: &[Bytes]) -> Result<(), Memory> {
    for text in texts {
        add(shown, text)?;
    }
    Ok(())
}

fn add_named(shown: &mut Bytes, list: &[Named]) -> Result<(), Memory> {
    for named in list {
        add(shown, &named.key)?;
        add(shown, &named.name)?;
    }
    Ok(())
}

fn add_number(shown: &mut Bytes, number: u8) -> Result<(), Memory> {
    shown.push(b',')?;
    shown.push(b'0' + number / 10)?;
    shown.push(b'0' + number % 10)
}

/// All that a manifest has, each after a comma.
fn shown(alloc: Global, manifest: &Manifest) -> Result<Bytes, Memory> {
    let mut shown = List::new(alloc);
    add_number(&mut shown, manifest.version)?;
    add_number(&mut shown, manifest.pivot)?;
    add_all(&mut shown, manifest.programs.items())?;
    add_named(&mut shown, manifest.copybooks.items())?;
    if let Some(seeds) = &manifest.seeds {
        add(&mut shown, seeds)?;
    }
    for group in manifest.window.items() {
        add_number(&mut shown, group.pivot)?;
        add_all(&mut shown, group.items.items())?;
    }
    add_named(&mut shown, manifest.files.items())?;
    for job in manifest.jobs.items() {
        add(&mut shown, &job.key)?;
        add_all(&mut shown, job.programs.items())?;
    }
    Ok(shown)
}

/// Whether the text of a manifest is read as this one.
fn is_read_as(alloc: Global, text: &str, expected: &[u8]) -> Result<bool, Fail> {
    let table = toml::table_from_str(alloc, text)?;
    match &read_manifest(alloc, &table) {
        Ok(manifest) => match shown(alloc, manifest) {
            Ok(shown) => Ok(shown.items() == expected),
            Err(_) => Ok(false),
        },
        Err(_) => Ok(false),
    }
}

/// A manifest of the first version with every key.
const WHOLE: &str = "version = 1
pivot = 50
programs = [\"SELECTP.cbl\", \"REPORTP.cbl\"]
seeds = \"seeds.csv\"
window = [\"SELECTP.HIRED OF IN-REC\"]
[copybooks]
EMPREC = \"EMPREC.cpy\"
\"LIB/B\" = \"b.cpy\"
[files]
REPOUT = \"out/repout.dat\"
EMPIN = \"empin.dat\"
[jobs]
NIGHT = [\"SELECTP\", \"REPORTP\", \"SELECTP\"]
EMPTY = []
";

/// A manifest of the second version with two groups.
const GROUPS: &str = "version = 2
pivot = 50
programs = [\"A.cbl\"]
[[window]]
pivot = 1
items = []
[[window]]
pivot = 99
items = [\"A.B\", \"A\"]
";

#[test]
fn a_whole_manifest_is_read(rt: HostRuntime) -> Result<(), Fail> {
    let alloc = rt.alloc();
    let whole =
        b",01,50,SELECTP.cbl,REPORTP.cbl,EMPREC,EMPREC.cpy,LIB/B,b.cpy,seeds.csv,50,SELECTP.HIRED OF IN-REC,EMPIN,empin.dat,REPOUT,out/repout.dat,EMPTY,NIGHT,SELECTP,REPORTP,SELECTP";
    assert!(rt; is_read_as(alloc, WHOLE, whole)?);
    Ok(())
}

#[test]
fn a_window_goes_by_the_version(rt: HostRuntime) -> Result<(), Fail> {
    let alloc = rt.alloc();
    assert!(rt; is_read_as(alloc, GROUPS, b",02,50,A.cbl,01,99,A.B,A")?);
    assert!(rt; reads(alloc, "window = []")?);
    assert!(rt; has_bad_value(alloc, "window = [\"A.B\"]", b"window")?);
    assert!(rt; has_bad_value(alloc, "window = [{ pivot = 5 }]", b"window")?);
    assert!(rt; has_bad_value(alloc, "window = [{ items = [] }]", b"window")?);
    assert!(rt; has_bad_value(alloc, "window = [{ pivot = 100, items = [] }]", b"window")?);
    assert!(rt; has_bad_value(alloc, "window = [{ pivot = 5, items = [1] }]", b"window")?);
    assert!(rt;
        has_bad_value(
            alloc,
            "window = [{ pivot = 5, items = [], x = 1 }]",
            b"window"
        )?
    );
    let grouped =
        "version = 1\npivot = 5\nprograms = [\"A\"]\nwindow = [{ pivot = 5, items = [] }]";
    assert!(rt; is_refused(alloc, grouped, ManifestKind::BadValue, b"window")?);
    Ok(())
}

#[test]
fn the_needed_keys_are_there_and_in_range(rt: HostRuntime) -> Result<(), Fail> {
    let alloc = rt.alloc();
    let without_pivot = "version = 1\nprograms = [\"A\"]\n";
    assert!(rt; is_refused(alloc, without_pivot, ManifestKind::MissingKey, b"pivot")?);
    let without_programs = "version = 1\npivot = 2\n";
    assert!(rt;
        is_refused(
            alloc,
            without_programs,
            ManifestKind::MissingKey,
            b"programs"
        )?
    );
    assert!(rt;
        is_refused(
            alloc,
            "seeds = 1\nz = 1\n",
            ManifestKind::MissingKey,
            b"version"
        )?
    );
    assert!(rt; is_bad(alloc, 1, 100, "[\"A\"]", b"pivot")?);
    assert!(rt; is_bad(alloc, 1, 0, "[]", b"pivot")?);
    assert!(rt; is_bad(alloc, 3, 1, "[\"A\"]", b"version")?);
    assert!(rt; is_bad(alloc, 257, 1, "[\"A\"]", b"version")?);
    assert!(rt; is_bad(alloc, -1, 1, "[\"A\"]", b"version")?);
    assert!(rt; is_bad(alloc, 1, 1, "[\"A\", 1]", b"programs")?);
    assert!(rt; is_bad(alloc, 1, 1, "[]", b"programs")?);
    assert!(rt; is_bad(alloc, 1, 1, "\"A\"", b"programs")?);
    assert!(rt; is_read(alloc, many_programs(alloc, 200)?.as_str())?);
    let many = many_programs(alloc, 201)?;
    assert!(rt; is_refused(alloc, many.as_str(), ManifestKind::BadValue, b"programs")?);
    Ok(())
}

#[test]
fn names_are_parts_of_letters_digits_and_marks(rt: HostRuntime) -> Result<(), Fail> {
    let alloc = rt.alloc();
    assert!(rt; is_shelf_name(b"a-b_C.9/.d/-/Zz09"));
    assert!(rt; !is_shelf_name(b""));
    assert!(rt; !is_shelf_name(b"/a"));
    assert!(rt; !is_shelf_name(b"a/"));
    assert!(rt; !is_shelf_name(b"a//b"));
    assert!(rt; !is_shelf_name(b"a/../b"));
    assert!(rt; !is_shelf_name(b"."));
    assert!(rt; !is_shelf_name(b"a b"));
    assert!(rt; !is_shelf_name(b"a@"));
    assert!(rt; is_shelf_name(b"done"));
    assert!(rt; reads(alloc, "seeds = \"x/done\"")?);
    assert!(rt; has_bad_name(alloc, "seeds = \"done\"", b"seeds")?);
    assert!(rt; has_bad_name(alloc, "seeds = \"labels.csv\"", b"seeds")?);
    assert!(rt; has_bad_name(alloc, "seeds = \"plan.csv\"", b"seeds")?);
    assert!(rt; has_bad_name(alloc, "seeds = \"\\u00e9\"", b"seeds")?);
    Ok(())
}

#[test]
fn faults_go_by_their_kinds(rt: HostRuntime) -> Result<(), Fail> {
    let alloc = rt.alloc();
    assert!(rt; has_bad_value(alloc, "copybooks = { a = \"x\" }", b"copybooks")?);
    assert!(rt; has_bad_value(alloc, "copybooks = [\"x\"]", b"copybooks")?);
    assert!(rt;
        reads(
            alloc,
            "copybooks = { \"A-1\" = \"x\" }\nfiles = { a = \"y\" }"
        )?
    );
    assert!(rt; has_bad_value(alloc, "seeds = [\"x\"]", b"seeds")?);
    assert!(rt; has_bad_value(alloc, "files = { A = 1 }", b"files")?);
    assert!(rt; has_bad_value(alloc, "jobs = { A = \"A\" }", b"jobs")?);
    assert!(rt; has_bad_value(alloc, "jobs = 1\nfiles = 1\nseeds = \"/\"", b"files")?);
    assert!(rt; has_bad_value(alloc, "seeds = \"/\"\njobs = 1", b"jobs")?);
    assert!(rt;
        has_bad_name(
            alloc,
            "files = { A = \"..\" }\nseeds = \"/\"\nB = 1",
            b"seeds"
        )?
    );
    assert!(rt; has_bad_name(alloc, "files = { A = \"..\" }\nB = 1", b"files")?);
    assert!(rt; has_bad_name(alloc, "copybooks = { A = \"\" }", b"copybooks")?);
    assert!(rt; has_unknown_key(alloc, "a = 1\nZ = 1\nseeds = \"A.cbl\"", b"Z")?);
    assert!(rt; has_name_twice(alloc, "seeds = \"A.cbl\"", b"A.cbl")?);
    let twice = "copybooks = { A = \"y\", B = \"x\" }\nfiles = { A = \"y\", B = \"x\" }";
    assert!(rt; has_name_twice(alloc, twice, b"x")?);
    let programs = "version = 1\npivot = 1\nprograms = [\"A\", \"B\", \"A\"]\n";
    assert!(rt; is_refused(alloc, programs, ManifestKind::NameTwice, b"A")?);
    let jobs = "jobs = { A = [\"A\", \"A\"], \"A.cbl\" = [\"no name\"] }\nseeds = \"a.cbl\"";
    assert!(rt; reads(alloc, jobs)?);
    Ok(())
}
