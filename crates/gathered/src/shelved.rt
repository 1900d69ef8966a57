ghost use Rattle.std.specs.Prelude.{◌≡◌, ◌≤◌, ◌+◌, ◌++◌, [], ◌∷◌, ℕ, List as Items, Option, Some, length, map, IfOk, IfErr, OnOk, string_bytes};
ghost use Rattle.std.specs.List.{AllByRecursion};
ghost use Rattle.data_layout.specs.Index.{IsReady};
ghost use Rattle.program_texts.specs.Texts.{no_words, words_of, AreWhole};
ghost use Rattle.fixed_format.specs.Columns.{lines};
ghost use Rattle.fixed_format.specs.Joined.{faults_in};
ghost use Rattle.shelf.specs.Causes.{Rose};
ghost use Rattle.shelf.specs.Contents.{Files};
ghost use Rattle.text_load.specs.Texts.{HasLoadFault};
ghost use Rattle.gathered.specs.Portfolios.{IsPortfolioOf, IsRefusedOf};
ghost use Rattle.gathered.specs.Shelved as spec;
ghost use Rattle.gathered.specs.Sound.{IsSound};

use crate::fault::GatherFault;
use crate::gathering::{Gathered, portfolio_of};
use portfolio::{Manifest, Named};
use program_reader::ReadFault;
use program_texts::TextWords;
use shelf::Shelf;
use std::alloc::Global;
use std::str;
use text_load::{LoadFault, load};
use y2k_base::{Bytes, List, Memory, Text, TextRole, Texts, Twin};

/// A text that a manifest names. The key of a program is empty.
pub(crate) struct Listed {
    pub(crate) name: Bytes,
    pub(crate) key: Bytes,
    pub(crate) role: TextRole,
}

/// The texts that were read so far, with their words. `number` is that of the next text, and `used` are the bytes of all
/// texts so far with those before the first.
pub(crate) struct Shelved {
    pub(crate) texts: List<Text>,
    pub(crate) words: TextWords,
    pub(crate) number: u32,
    pub(crate) used: u64,
}

impl Drop for Listed {
    fn drop(self) {
        let Listed {
            name: _name,
            key: _key,
            role: _,
        } = self;
    }
}

impl Drop for Shelved {
    fn drop(self) {
        let Shelved {
            texts: _texts,
            words: _words,
            number: _,
            used: _,
        } = self;
    }
}

/// The portfolio of the texts that the shelf holds for a manifest, or the first fault: text by text, the copybooks in
/// byte order of their keys and then the programs in the manifest's order, whether it is there, its size and its
/// lines; then as `assemble`, where the manifest's data files are the known ones. The name of a text on the shelf is
/// `folder`, which is empty or ends in `/`, and the manifest's name. `used` bytes of other texts count with these.
/// Names of manifests are text, as TOML is; other bytes are answered as want of memory.
pub fn gather<S: Shelf>(
    alloc: Global,
    manifest: &Manifest,
    folder: &str,
    used: u64,
    shelf: &mut S,
) -> Result<Gathered, GatherFault>
    ensures gathered { IfOk result (λ gathered. spec.IsGathered folder.now used (S.told shelf.old) manifest.now gathered.texts.list gathered.portfolio) }
    ensures sound { IfOk result (λ gathered. IsSound gathered.portfolio) }
    ensures ready { IfOk result (λ gathered. AllByRecursion IsReady gathered.portfolio.layouts) }
    ensures cause { IfErr result (spec.HasGatherFault folder.now used (S.told shelf.old) manifest.now) }
    ensures rose { IfErr result (λ fault. spec.RoseWith fault (S.faults shelf.old) (S.faults shelf.new)) }
    ensures later { S.faults shelf.old ≤ S.faults shelf.new }
    ensures same { S.told shelf.new ≡ S.told shelf.old }
{
    match listed_in(alloc, manifest) {
        Ok(listed) => match read_listed(alloc, listed.items(), folder, used, shelf) {
            Ok(shelved) => gathered_of(alloc, shelved, manifest.files.items()),
            Err(fault) => Err(fault),
        },
        Err(_) => Err(GatherFault::Memory),
    }
}

fn gathered_of(alloc: Global, shelved: Shelved, files: &[Named]) -> Result<Gathered, GatherFault>
    ensures texts { IfOk result (λ gathered. gathered.texts.list ≡ shelved.texts) }
    ensures portfolio { IfOk result (λ gathered. IsPortfolioOf shelved.words (Some files.now) gathered.portfolio) }
    ensures sound { IfOk result (λ gathered. IsSound gathered.portfolio) }
    ensures ready { IfOk result (λ gathered. AllByRecursion IsReady gathered.portfolio.layouts) }
    ensures fault { IfErr result (IsRefusedOf shelved.words (Some files.now)) }
    ensures inside { IfErr result (λ fault. (before : ℕ) → (now : ℕ) → spec.RoseWith fault before now) }
{
    match portfolio_of(alloc, &shelved.words, Some(files)) {
        Ok(portfolio) => Ok(Gathered {
            portfolio,
            texts: shelved.into_texts(),
        }),
        Err(fault) => Err(fault),
    }
}

/// The texts of a manifest: its copybooks, then its programs.
fn listed_in(alloc: Global, manifest: &Manifest) -> Result<List<Listed>, Memory>
    ensures { IfOk result (λ listed. listed ≡ spec.listed_in manifest.now) }
{
    let mut listed = List::new(alloc);
    add_books(alloc, manifest.copybooks.items(), &mut listed)?;
    add_programs(alloc, manifest.programs.items(), &mut listed)?;
    Ok(listed)
}

fn add_books(alloc: Global, books: &[Named], listed: &mut List<Listed>) -> Result<(), Memory>
    ensures { OnOk result (listed.new ≡ listed.old ++ map spec.book_of books.now) }
{
    let mut rest = books;
    while let [book, more @ ..] = rest {
        listed.push(Listed {
            name: book.name.twin(alloc)?,
            key: book.key.twin(alloc)?,
            role: TextRole::Book,
        })?;
        rest = more;
    }
    Ok(())
}

fn add_programs(alloc: Global, programs: &[Bytes], listed: &mut List<Listed>) -> Result<(), Memory>
    ensures { OnOk result (listed.new ≡ listed.old ++ map spec.program_of programs.now) }
{
    let mut rest = programs;
    while let [name, more @ ..] = rest {
        listed.push(Listed {
            name: name.twin(alloc)?,
            key: List::new(alloc),
            role: TextRole::Program,
        })?;
        rest = more;
    }
    Ok(())
}

/// Reads the texts from the shelf, one after the other: each is loaded, and its lines are read, before the next one.
fn read_listed<S: Shelf>(
    alloc: Global,
    listed: &[Listed],
    folder: &str,
    used: u64,
    shelf: &mut S,
) -> Result<Shelved, GatherFault>
    ensures texts { IfOk result (λ shelved. spec.AreTexts folder.now used (S.told shelf.old) listed.now shelved.texts) }
    ensures words { IfOk result (λ shelved. shelved.words ≡ words_of shelved.texts) }
    ensures whole { IfOk result (λ shelved. AreWhole shelved.texts) }
    ensures fault { IfErr result (spec.HasTextFault folder.now used (S.told shelf.old) 0 listed.now) }
    ensures rose { IfErr result (λ fault. spec.RoseWith fault (S.faults shelf.old) (S.faults shelf.new)) }
    ensures later { S.faults shelf.old ≤ S.faults shelf.new }
    ensures same { S.told shelf.new ≡ S.told shelf.old }
{
    let mut shelved = Shelved::new(alloc, used);
    let mut rest = listed;
    while let [one, more @ ..] = rest {
        match shelved.read(alloc, one, folder, shelf) {
            Ok(()) => rest = more,
            Err(fault) => return Err(fault),
        }
    }
    Ok(shelved)
}

impl Shelved {
    /// No text is read. It takes no memory.
    fn new(alloc: Global, used: u64) -> Shelved
        ensures { result ≡ record { texts = []; words = no_words; number = 0; used = used } }
    {
        Shelved {
            texts: List::new(alloc),
            words: TextWords::new(alloc),
            number: 0,
            used,
        }
    }

    fn into_texts(self) -> Texts
        ensures { result.list ≡ self.texts }
    {
        let Shelved {
            texts,
            words: _words,
            number: _,
            used: _,
        } = self;
        Texts { list: texts }
    }

    /// Loads a text and reads its lines.
    fn read<S: Shelf>(
        &mut self,
        alloc: Global,
        listed: &Listed,
        folder: &str,
        shelf: &mut S,
    ) -> Result<(), GatherFault>
        ensures read { OnOk result (spec.IsRead folder.now (S.told shelf.old) listed.now self.old self.new) }
        ensures fault { IfErr result (spec.IsTextFault folder.now self.old.used (S.told shelf.old) self.old.number listed.now) }
        ensures rose { IfErr result (λ fault. spec.RoseWith fault (S.faults shelf.old) (S.faults shelf.new)) }
        ensures later { S.faults shelf.old ≤ S.faults shelf.new }
        ensures same { S.told shelf.new ≡ S.told shelf.old }
    {
        match load_text(alloc, listed, folder, self.used, shelf) {
            Ok(text) => match self.add(alloc, text) {
                Ok(()) => Ok(()),
                Err(fault) => Err(fault),
            },
            Err(fault) => Err(fault),
        }
    }

    /// Adds a text, and reads its lines.
    fn add(&mut self, alloc: Global, text: Text) -> Result<(), GatherFault>
        requires { self.old.used + length text.bytes ≤ 4000000 }
        ensures added { OnOk result (self.new ≡ spec.with_loaded self.old text) }
        ensures whole { OnOk result (faults_in (lines text.bytes) ≡ []) }
        ensures fault { IfErr result (spec.IsLineFault self.old.number text) }
        ensures inside { IfErr result (λ fault. (before : ℕ) → (now : ℕ) → spec.RoseWith fault before now) }
    {
        match self.words.add(alloc, self.number, &text) {
            Ok(()) => match self.add_text(text) {
                Ok(()) => Ok(()),
                Err(_) => Err(GatherFault::Memory),
            },
            Err(ReadFault::Refused(refused)) => Err(GatherFault::Refused(refused)),
            Err(ReadFault::Memory) => Err(GatherFault::Memory),
        }
    }

    fn add_text(&mut self, text: Text) -> Result<(), Memory>
        requires { self.old.used + length text.bytes ≤ 4000000 }
        ensures { OnOk result (self.new ≡ record self.old { texts = self.old.texts ++ text ∷ []; number = self.old.number + 1; used = self.old.used + length text.bytes }) }
    {
        self.used += text.bytes.len() as u64;
        self.number = next(self.number)?;
        self.texts.push(text)?;
        Ok(())
    }
}

fn next(number: u32) -> Result<u32, Memory>
    ensures { IfOk result (λ next. next ≡ number + 1) }
{
    match number.checked_add(1) {
        Some(next) => Ok(next),
        None => Err(Memory),
    }
}

/// A text as the shelf holds it.
fn load_text<S: Shelf>(
    alloc: Global,
    listed: &Listed,
    folder: &str,
    used: u64,
    shelf: &mut S,
) -> Result<Text, GatherFault>
    ensures text { IfOk result (spec.IsText folder.now used (S.told shelf.old) listed.now) }
    ensures most { IfOk result (λ text. used + length text.bytes ≤ 4000000) }
    ensures fault { IfErr result (spec.IsUnloaded folder.now used (S.told shelf.old) listed.now) }
    ensures rose { IfErr result (λ fault. spec.RoseWith fault (S.faults shelf.old) (S.faults shelf.new)) }
    ensures later { S.faults shelf.old ≤ S.faults shelf.new }
    ensures same { S.told shelf.new ≡ S.told shelf.old }
{
    match shelf_name(alloc, folder, listed.name.items()) {
        Ok(name) => match load(alloc, name.as_str(), used, shelf) {
            Ok(bytes) => text_of(alloc, listed, bytes),
            Err(fault) => Err(fault_of(alloc, fault, listed.name.items(), name.as_str())),
        },
        Err(_) => Err(GatherFault::Memory),
    }
}

/// The name of a text on the shelf.
fn shelf_name(alloc: Global, folder: &str, name: &[u8]) -> Result<String, Memory>
    ensures { IfOk result (λ whole. string_bytes whole ≡ folder.now ++ name.now) }
{
    match str::from_utf8(name) {
        Ok(name) => {
            let whole = format!(in alloc; "{folder}{name}")?;
            Ok(whole)
        }
        Err(_) => Err(Memory),
    }
}

fn text_of(alloc: Global, listed: &Listed, bytes: Bytes) -> Result<Text, GatherFault>
    ensures text { IfOk result (λ text. text ≡ record { name = listed.now.name; key = listed.now.key; role = listed.now.role; bytes = bytes }) }
    ensures fault { IfErr result (λ fault. fault ≡ GatherFault.Memory) }
{
    Ok(Text {
        name: listed.name.twin(alloc)?,
        key: listed.key.twin(alloc)?,
        role: listed.role,
        bytes,
    })
}

/// What a text's fault in loading is, with its name in the manifest and that in the call.
fn fault_of(alloc: Global, fault: LoadFault, listed: &[u8], name: &str) -> GatherFault
    ensures cause { (used : ℕ) → (told : Option Files) → HasLoadFault name.now used told fault → spec.IsUnloadedAs name.now used told listed.now result }
    ensures rose { (before : ℕ) → (now : ℕ) → (fault ≡ LoadFault.Shelf → Rose before now) → spec.RoseWith result before now }
{
    match fault {
        LoadFault::Missing => match copied(alloc, listed) {
            Ok(name) => GatherFault::Missing(name),
            Err(_) => GatherFault::Memory,
        },
        LoadFault::TooLarge => match copied(alloc, listed) {
            Ok(name) => GatherFault::TooLarge(name),
            Err(_) => GatherFault::Memory,
        },
        LoadFault::Shelf => match copied(alloc, name.as_bytes()) {
            Ok(name) => GatherFault::Shelf(name),
            Err(_) => GatherFault::Memory,
        },
        LoadFault::Memory => GatherFault::Memory,
    }
}

fn copied(alloc: Global, bytes: &[u8]) -> Result<Bytes, Memory>
    ensures { IfOk result (λ copy. copy ≡ bytes.now) }
{
    let mut copy = List::new(alloc);
    copy.append(bytes)?;
    Ok(copy)
}
