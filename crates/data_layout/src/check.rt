ghost use Rattle.std.specs.Prelude.{◌≡◌, OnOk, IfOk};
ghost use Rattle.data_layout.specs.Tree as tree;
ghost use Rattle.data_layout.specs.Tree.{within, forest, parts_of, GoesOn};
ghost use Rattle.data_layout.specs.Sections.{tops};
ghost use Rattle.data_layout.specs.Sizes as sizes;
ghost use Rattle.data_layout.specs.Rules as rules;
ghost use Rattle.data_layout.specs.Names.{named};
ghost use Rattle.data_layout.specs.Faults as spec;

use crate::fault::LayoutFault;
use crate::measure::{bytes_of, measure, once};
use crate::names::Names;
use crate::rules::{
    Objects, Setting, contains_right, fits_area, holds_items, keeps_lengths, keeps_rules,
};
use crate::sections::{first_file, greatest};
use crate::tree::{NAMED, first_within, rank};
use cobol_syntax::{Entry, FileEntry, Program};
use std::alloc::Global;
use y2k_base::{Bytes, FileId, Origin, Word};

/// Where the word at a position stands.
fn origin_at(words: &[Word], at: u32) -> Origin
    ensures { result ≡ spec.origin_at words.now at }
{
    match words.get(at as usize) {
        Some(word) => word.origin,
        None => Origin {
            file: FileId(0),
            line: 0,
            column: 0,
        },
    }
}

fn unless(kept: bool, fault: LayoutFault) -> Result<(), LayoutFault>
    ensures { spec.Tells result (spec.unless kept fault) }
{
    if kept { Ok(()) } else { Err(fault) }
}

/// A second equal name is a fault at its entry.
fn once_named(
    words: &[Word],
    names: &Names,
    name: &Option<Bytes>,
    at: u32,
) -> Result<(), LayoutFault>
    ensures { spec.Tells result (spec.twice (spec.is_again (named names.now) name.now) (spec.at_twice words.now at)) }
{
    if names.has(name) {
        Err(LayoutFault::NameTwice(origin_at(words, at)))
    } else {
        Ok(())
    }
}

/// Checks a condition-name.
fn check_name(
    words: &[Word],
    setting: Setting,
    names: &Names,
    entry: &Entry,
) -> Result<(), LayoutFault>
    ensures { spec.Tells result (spec.faults_of_name words.now setting (named names.now) entry.now) }
{
    unless(
        !setting.top,
        LayoutFault::LayoutShape(origin_at(words, entry.at)),
    )?;
    once_named(words, names, &entry.name, entry.at)?;
    Ok(())
}

/// Checks what rests on no length.
fn check_before(
    words: &[Word],
    setting: Setting,
    names: &Names,
    objects: &Objects,
    entry: &Entry,
    items: bool,
) -> Result<(), LayoutFault>
    ensures { spec.Tells result (spec.faults_before words.now setting (named names.now) objects.now entry.now items) }
{
    let kept = keeps_rules(setting, objects, entry, items)?;
    unless(kept, LayoutFault::LayoutShape(origin_at(words, entry.at)))?;
    once_named(words, names, &entry.name, entry.at)?;
    Ok(())
}

/// Checks what rests on the bytes of one occurrence, and of all.
fn check_after(
    words: &[Word],
    setting: Setting,
    objects: &Objects,
    entry: &Entry,
    one: u128,
    all: u128,
) -> Result<(), LayoutFault>
    ensures { spec.Tells result (spec.faults_after words.now setting objects.now entry.now one all) }
{
    let kept = keeps_lengths(objects, entry, one, all);
    unless(kept, LayoutFault::LayoutShape(origin_at(words, entry.at)))?;
    unless(
        fits_area(setting, all),
        LayoutFault::AreaFull(origin_at(words, entry.at)),
    )?;
    Ok(())
}

/// Checks an item and its parts, which `inner` begins with. Gives the bytes of all its occurrences, and the entries
/// after its parts.
#[cycle(check)]
fn check_item<'a>(
    alloc: Global,
    words: &[Word],
    setting: Setting,
    names: &Names,
    objects: &Objects,
    entry: &Entry,
    inner: &'a [Entry],
) -> Result<(u128, &'a [Entry]), LayoutFault>
    ensures tells { spec.Tells result (spec.faults_of_item words.now setting (named names.now) objects.now entry.now (parts_of entry.now inner.now)) }
    ensures bytes { IfOk result (λ checked. checked.0 ≡ sizes.whole entry.now (parts_of entry.now inner.now)) }
    ensures rest { IfOk result (λ checked. GoesOn (tree.rank entry.now.level) inner.now checked.1.now) }
{
    let around = rank(entry.level);
    let items = holds_items(inner, around);
    check_before(words, setting, names, objects, entry, items)?;
    let mut own = Names::new(alloc);
    let within = setting.inside(entry)?;
    let rest = check_parts(alloc, words, within, &mut own, inner, around)?;
    let (of_parts, _) = measure(inner, around)?;
    let one = once(entry, of_parts)?;
    let all = bytes_of(entry, of_parts)?;
    check_after(words, setting, objects, entry, one, all)?;
    Ok((all, rest))
}

/// Checks the entries that lie within the rank. Gives those after them.
#[cycle(check)]
fn check_parts<'a>(
    alloc: Global,
    words: &[Word],
    setting: Setting,
    names: &mut Names,
    entries: &'a [Entry],
    around: u8,
) -> Result<&'a [Entry], LayoutFault>
    ensures tells { spec.Tells result (spec.faults words.now setting (named names.old) rules.no_objects (within around (forest entries.now))) }
    ensures names { OnOk result (named names.new ≡ spec.names_after (named names.old) (within around (forest entries.now))) }
    ensures rest { IfOk result (λ rest. GoesOn around entries.now rest.now) }
{
    let mut objects = Objects::none();
    let mut rest = entries;
    while let Some((entry, inner)) = first_within(rest, around) {
        if entry.level == NAMED {
            check_name(words, setting, names, entry)?;
            names.add(alloc, &entry.name)?;
            rest = inner;
        } else {
            let (all, after) = check_item(alloc, words, setting, names, &objects, entry, inner)?;
            names.add(alloc, &entry.name)?;
            objects = objects.after(alloc, entry, all)?;
            rest = after;
        }
    }
    Ok(rest)
}

/// Checks a file: RECORD CONTAINS comes after its entries.
fn check_file(
    alloc: Global,
    words: &[Word],
    names: &mut Names,
    file: &FileEntry,
) -> Result<(), LayoutFault>
    ensures tells { spec.Tells result (spec.faults_of_file words.now (named names.old) file.now) }
    ensures names { OnOk result (named names.new ≡ spec.names_after (named names.old) (tops file.now.entries)) }
{
    check_parts(
        alloc,
        words,
        Setting::section(true),
        names,
        file.entries.items(),
        0,
    )?;
    let most = greatest(file.entries.items())?;
    unless(
        contains_right(&file.contains, most),
        LayoutFault::LayoutShape(origin_at(words, file.at)),
    )?;
    Ok(())
}

fn check_files(
    alloc: Global,
    words: &[Word],
    names: &mut Names,
    files: &[FileEntry],
) -> Result<(), LayoutFault>
    ensures tells { spec.Tells result (spec.faults_of_files words.now (named names.old) files.now) }
    ensures names { OnOk result (named names.new ≡ spec.names_after_files (named names.old) files.now) }
{
    let mut rest = files;
    while let Some((file, more)) = first_file(rest) {
        check_file(alloc, words, names, file)?;
        rest = more;
    }
    Ok(())
}

/// Checks a program, and answers its first fault.
pub(crate) fn check_program(alloc: Global, program: &Program) -> Result<(), LayoutFault>
    ensures { spec.Tells result (spec.faults_of program.now) }
{
    let words = program.words.items();
    let mut names = Names::new(alloc);
    check_files(alloc, words, &mut names, program.files.items())?;
    check_parts(
        alloc,
        words,
        Setting::section(false),
        &mut names,
        program.storage.items(),
        0,
    )?;
    Ok(())
}
