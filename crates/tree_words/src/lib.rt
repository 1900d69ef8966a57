//! What holds of a tree that is read of words: its positions are those of the words, and its number literals are
//! numbers of at most 18 digits. Definitions over the trees, and the law that whatever the grammar reads as a program
//! is so.
#![tactic(auto)]

ghost use Rattle.std.specs.Prelude.{◌≡◌, ℕ, List, true};
ghost use Rattle.y2k_base.specs.declared.word.FileId.{FileId};
ghost use Rattle.y2k_base.specs.declared.word.Word.{Word};
ghost use Rattle.cobol_syntax.specs.declared.program.Program.{Program};
ghost use Rattle.program_reader.specs.IsReads.{IsRead};
ghost use Rattle.tree_words.specs.Fits.{program_fits};

/// The law, which no call needs: a program that words read as fits its words.
pub fn read_programs_fit()
    ensures { (words : List Word) (program : ℕ) (file : FileId) (p : Program) → IsRead words program file p → program_fits p ≡ true }
{}
