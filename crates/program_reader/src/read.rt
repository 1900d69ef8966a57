ghost use Rattle.std.specs.Prelude.{◌≡◌, ◌<◌, ◌^◌, ◌++◌, length, IfOk, IfErr};
ghost use Rattle.program_reader.specs.IsReads.{IsRead, HasReadFault};
ghost use Rattle.program_reader.specs.Whole as spec;
ghost use Rattle.program_reader.specs.View.{view_of};

use crate::data::Data;
use crate::fault::{ReadFault, Refused};
use crate::reading::readings_of;
use crate::term::terms_of;
use crate::text::{Outcome, Units};
use cobol_syntax::{Entry, FileEntry, Paragraph, Program, Select};
use cond_reader::{CondNames, Reader, kinds_of};
use copy_origins::Expanded;
use proc_reader::{Sentences, keywords_of};
use std::alloc::Global;
use y2k_base::{Bytes, FileId, List, Memory, Twin, Word};

/// What stands before the procedure division.
pub struct Opening {
    pub id: Bytes,
    pub selects: List<Select>,
    pub division: Data,
}

impl Drop for Opening {
    fn drop(self) {
        let Opening {
            id: _id,
            selects: _selects,
            division: _division,
        } = self;
    }
}

impl Data {
    /// The condition-names of all entries.
    #[tactic(auto, unfolding(crate::specs::Whole::cond_names))]
    fn cond_names(&self, alloc: Global) -> Result<CondNames, Memory>
        ensures { IfOk result (λ names. names.list ≡ spec.cond_names self.now) }
    {
        let mut list = List::new(alloc);
        add_file_names(alloc, &mut list, self.files.items())?;
        add_names(alloc, &mut list, self.storage.items())?;
        Ok(CondNames { list })
    }
}

impl Opening {
    /// The program with this opening.
    fn program(self, words: List<Word>, paragraphs: List<Paragraph>) -> Program
        ensures { result ≡ spec.program_after words self paragraphs }
    {
        let Opening {
            id,
            selects,
            division,
        } = self;
        division.program(words, id, selects, paragraphs)
    }
}

/// Adds the name of an entry of level 88.
fn add_name(alloc: Global, names: &mut List<Bytes>, entry: &Entry) -> Result<(), Memory>
    ensures { IfOk result (λ _. names.new ≡ names.old ++ spec.name_of entry.now) }
{
    if entry.level == 88 {
        match &entry.name {
            None => Ok(()),
            Some(name) => {
                let name = name.twin(alloc)?;
                names.push(name)
            }
        }
    } else {
        Ok(())
    }
}

/// Adds the condition-names of entries.
fn add_names(alloc: Global, names: &mut List<Bytes>, mut entries: &[Entry]) -> Result<(), Memory>
    ensures { IfOk result (λ _. names.new ≡ names.old ++ spec.names_of entries.entry.now) }
{
    while let [entry, rest @ ..] = entries {
        add_name(alloc, names, entry)?;
        entries = rest;
    }
    Ok(())
}

/// Adds the condition-names of the entries under FDs.
fn add_file_names(
    alloc: Global,
    names: &mut List<Bytes>,
    mut files: &[FileEntry],
) -> Result<(), Memory>
    ensures { IfOk result (λ _. names.new ≡ names.old ++ spec.file_names files.entry.now) }
{
    while let [file, rest @ ..] = files {
        add_names(alloc, names, file.entries.items())?;
        files = rest;
    }
    Ok(())
}

impl<'a> Units<'a> {
    /// The data division after the environment division.
    #[tactic(auto, unfolding(crate::specs::Whole::opening_data))]
    fn opening_data(&self, id: Bytes, selects: List<Select>, at: u32) -> Outcome<Opening>
        ensures { IfOk result (λ r. r ≡ spec.opening_data (view_of self.now) id selects at) }
    {
        match self.data_division(at)? {
            Err(refused) => Ok(Err(refused)),
            Ok((division, next)) => Ok(Ok((
                Opening {
                    id,
                    selects,
                    division,
                },
                next,
            ))),
        }
    }

    /// The divisions after the identification division, up to the procedure division.
    #[tactic(auto, unfolding(crate::specs::Whole::opening_rest))]
    fn opening_rest(&self, id: Bytes, at: u32) -> Outcome<Opening>
        ensures { IfOk result (λ r. r ≡ spec.opening_rest (view_of self.now) id at) }
    {
        match self.environment(at)? {
            Err(refused) => Ok(Err(refused)),
            Ok((selects, next)) => self.opening_data(id, selects, next),
        }
    }

    /// The divisions up to the procedure division.
    #[tactic(auto, unfolding(crate::specs::Whole::opening))]
    fn opening(&self) -> Outcome<Opening>
        ensures { IfOk result (λ r. r ≡ spec.opening (view_of self.now)) }
    {
        match self.identification(0)? {
            Err(refused) => Ok(Err(refused)),
            Ok((id, next)) => self.opening_rest(id, next),
        }
    }

    /// The procedure division in a program with these condition-names.
    #[tactic(auto, unfolding(crate::specs::Whole::procedure_with))]
    fn procedure_with(
        &self,
        names: &CondNames,
        program: u32,
        at: u32,
    ) -> Result<Result<List<Paragraph>, Refused>, Memory>
        requires { length self.now.parts.words.now < 2 ^ 32 }
        ensures { IfOk result (λ r. r ≡ spec.procedure_with (view_of self.now) names.now.list program at) }
    {
        let alloc = self.parts.alloc;
        let words = self.parts.words;
        let kinds = kinds_of(alloc, words, names)?;
        let keywords = keywords_of(alloc, words)?;
        let parts = Reader::new(alloc, words, kinds.items());
        let sentences = Sentences::new(parts, keywords.items(), program);
        self.procedure(&sentences, at)
    }

    /// The whole program.
    #[tactic(auto, unfolding(crate::specs::Whole::whole))]
    fn whole(&self, program: u32) -> Result<Result<Program, Refused>, Memory>
        requires { length self.now.parts.words.now < 2 ^ 32 }
        ensures { IfOk result (λ r. r ≡ spec.whole (view_of self.now) program) }
    {
        match self.opening()? {
            Err(refused) => Ok(Err(refused)),
            Ok((opening, next)) => {
                let names = opening.division.cond_names(self.parts.alloc)?;
                match self.procedure_with(&names, program, next)? {
                    Err(refused) => Ok(Err(refused)),
                    Ok(paragraphs) => {
                        let mut words = List::new(self.parts.alloc);
                        copy_words(self.parts.alloc, &mut words, self.parts.words)?;
                        Ok(Ok(opening.program(words, paragraphs)))
                    }
                }
            }
        }
    }
}

/// Adds copies of words.
fn copy_words(alloc: Global, copies: &mut List<Word>, words: &[Word]) -> Result<(), Memory>
    ensures { IfOk result (λ _. copies.new ≡ copies.old ++ words.now) }
{
    for word in words {
        copies.push(word.twin(alloc)?)?;
    }
    Ok(())
}

/// The program of words, or why they are none.
fn read_words(
    alloc: Global,
    words: &[Word],
    program: u32,
    file: FileId,
) -> Result<Result<Program, Refused>, Memory>
    requires { length words.now < 2 ^ 32 }
    ensures { IfOk result (spec.IsAnswer words.now program file) }
{
    let terms = terms_of(alloc, words)?;
    let readings = readings_of(alloc, words)?;
    let names = CondNames {
        list: List::new(alloc),
    };
    let kinds = kinds_of(alloc, words, &names)?;
    let units = Units {
        parts: Reader::new(alloc, words, kinds.items()),
        terms: terms.items(),
        readings: readings.items(),
        file,
    };
    units.whole(program)
}

/// The program that the expanded words of a text are: its divisions as ISO 1989:1985 has them, with the clauses that
/// this project takes. `program` is its number in the portfolio, which the ids of its statements carry, and `file` is
/// its text. Positions of the tree count words from 0; `picture_at` is 0 where there is no PICTURE clause.
///
/// The text is read unit by unit; a unit is the words up to and with a period. The first unit without a reading is
/// refused at its first word: `NestDeep` where more than 64 of its words open a level, else `UnitShape`. Where a unit is
/// missing, `UnitShape` stands at the last word, or at line 1, column 1 of `file` where there are no words. In an entry
/// that has a reading the string of its PICTURE clause is refused at its own place, with the fault of `read_picture`.
pub fn read_program(
    alloc: Global,
    expanded: &Expanded,
    program: u32,
    file: FileId,
) -> Result<Program, ReadFault>
    ensures read { IfOk result (IsRead expanded.now.words program file) }
    ensures exact { IfOk result (λ p. spec.IsAnswer expanded.now.words program file (Ok p)) }
    ensures refused { IfErr result (HasReadFault expanded.now.words program file) }
    ensures first { IfErr result (spec.IsRefusal expanded.now.words program file) }
{
    let words = expanded.words.items();
    if words.len() >= 4_294_967_296 {
        return Err(ReadFault::Memory);
    }
    match read_words(alloc, words, program, file) {
        Err(_) => Err(ReadFault::Memory),
        Ok(answer) => match answer {
            Err(refused) => Err(ReadFault::Refused(refused)),
            Ok(program) => Ok(program),
        },
    }
}
