ghost use Rattle.std.specs.Prelude.{◌≡◌, ℕ, List};
ghost use Rattle.name_tables.specs.Names.{named, no_names};
ghost use Rattle.program_names.specs.Repeats as spec;
ghost use Rattle.program_names.specs.Repeats.{Tells};

use crate::origin::refusal;
use cobol_syntax::{FileEntry, Paragraph, Program, Select};
use name_tables::Names;
use program_reader::{ReadFault, RefusedKind};
use std::alloc::Global;
use y2k_base::Word;

/// Where the name stands in the words of a program, after `IDENTIFICATION DIVISION. PROGRAM-ID.`
const ID_AT: usize = 5;

/// What has a name of its own.
trait Spelled {
    ghost spelling: { Self → List ℕ };

    ghost place: { Self → ℕ };

    fn name(&self) -> &[u8]
        ensures { result.now ≡ spelling self.now };

    /// The position of the name.
    fn name_at(&self) -> usize
        ensures { result ≡ place self.now };
}

impl Spelled for Select {
    ghost spelling = { spec.select_name };

    ghost place = { spec.select_place };

    fn name(&self) -> &[u8] {
        self.name.items()
    }

    fn name_at(&self) -> usize {
        self.at as usize + 1
    }
}

impl Spelled for FileEntry {
    ghost spelling = { spec.file_name };

    ghost place = { spec.file_place };

    fn name(&self) -> &[u8] {
        self.name.items()
    }

    fn name_at(&self) -> usize {
        self.at as usize + 1
    }
}

impl Spelled for Paragraph {
    ghost spelling = { spec.paragraph_name };

    ghost place = { spec.paragraph_place };

    fn name(&self) -> &[u8] {
        self.name.items()
    }

    fn name_at(&self) -> usize {
        self.at as usize
    }
}

/// Whether each name of a program that must be its own is: that of the program among the other programs, those
/// of its SELECT entries, those of its file descriptions, and those of its sections and paragraphs together.
/// Else the first in text order that stands before it is refused, at the name.
pub fn check_names(alloc: Global, others: &Names, program: &Program) -> Result<(), ReadFault>
    ensures { Tells result (spec.name_faults (named others.now) program.now) }
{
    let words = program.words.items();
    check_id(others, program)?;
    check_own(alloc, words, program.selects.items())?;
    check_own(alloc, words, program.files.items())?;
    check_own(alloc, words, program.paragraphs.items())?;
    Ok(())
}

fn check_id(others: &Names, program: &Program) -> Result<(), ReadFault>
    ensures { Tells result (spec.id_faults (named others.now) program.now) }
{
    if others.has(program.id.items()) {
        Err(refusal(RefusedKind::NameTwice, program.words.items(), ID_AT))
    } else {
        Ok(())
    }
}

/// Whether no name stands among these twice.
fn check_own<T: Spelled>(alloc: Global, words: &[Word], items: &[T]) -> Result<(), ReadFault>
    ensures { Tells result (spec.repeated T.spelling T.place words.now no_names items.now) }
{
    let mut known = Names::new(alloc);
    let mut rest = items;
    while let [item, more @ ..] = rest {
        if known.has(item.name()) {
            return Err(refusal(RefusedKind::NameTwice, words, item.name_at()));
        }
        known.add(alloc, item.name())?;
        rest = more;
    }
    Ok(())
}
