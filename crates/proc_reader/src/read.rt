ghost use Rattle.std.specs.Prelude.{◌<◌, ◌^◌, length, IfOk, IfErr};
ghost use Rattle.proc_reader.specs.Answers.{source_with, IsRead, HasUnitFault};

use crate::keyword::keywords_of;
use crate::sentence::Sentences;
use crate::spot::Stop;
use cobol_syntax::Sentence;
use cond_reader::{CondNames, Reader, UnitFault, kinds_of};
use std::alloc::Global;
use y2k_base::Word;

/// The sentence that begins with the word at `from`, the position after its period, and the number of the next
/// statement. Its statements are numbered from `first` on, in text order. At most 64 levels are open at once: IF,
/// EVALUATE, an inline PERFORM, READ and a size phrase open one each for all that they hold, and so does a
/// parenthesis. The fault is that of the unit that begins at `from`.
pub fn read_sentence(
    alloc: Global,
    words: &[Word],
    from: u32,
    names: &CondNames,
    program: u32,
    first: u32,
) -> Result<(Sentence, u32, u32), UnitFault>
    requires few { length words.now < 2 ^ 32 }
    requires within { from < length words.now }
    ensures read { IfOk result (IsRead (source_with words.now names.now.list program) from first) }
    ensures fault { IfErr result (HasUnitFault (source_with words.now names.now.list program) from first) }
{
    let kinds = kinds_of(alloc, words, names)?;
    let keywords = keywords_of(alloc, words)?;
    let parts = Reader::new(alloc, words, kinds.items());
    let sentences = Sentences::new(parts, keywords.items(), program);
    match sentences.sentence(from, first) {
        Ok((sentence, next)) => Ok((sentence, next.at, next.number)),
        Err(Stop::Unread) => Err(sentences.parts.unit_fault(from)),
        Err(Stop::Memory) => Err(UnitFault::Memory),
    }
}
