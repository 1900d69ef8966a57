ghost use Rattle.std.specs.Prelude.{◌≡◌, ◌-◌, ◌≤◌, ℕ, List, IfOk, length, map, cond, drop};
ghost use Rattle.std.proofs.Props.{props};
ghost use Rattle.name_tables.specs.Table.{held};
ghost use Rattle.tree_reading.specs.Reading.{read_paragraph};
ghost use Rattle.program_meaning.specs.State.{from_paragraph, after_range};
ghost use Rattle.run_control.specs.Labels.{label_of};

use cobol_syntax::Paragraph;
use name_tables::NameTable;
use std::alloc::Global;
use y2k_base::Memory;

/// A paragraph or a section, by how many paragraphs of the program are left from it on, and how many come after those
/// of its range. The names of sections count as paragraphs, and the range of a section ends with its last paragraph.
#[derive(Clone, Copy)]
pub(crate) struct Label {
    pub(crate) left: usize,
    pub(crate) after: usize,
}

/// The paragraphs and sections of a program, to be found by their names.
#[derive(Drop)]
pub struct Labels<'a> {
    paragraphs: &'a [Paragraph],
    table: NameTable<'a, Label>,
    ghost found: { (name : List ℕ) → held table name ≡ label_of name (map read_paragraph paragraphs.now) } by { Prim.hlevel props },
}

impl<'a> Labels<'a> {
    ghost use Rattle.run_control.specs.Program.{paragraphs_of};

    /// The paragraphs of a program with their names.
    pub fn of(alloc: Global, paragraphs: &'a [Paragraph]) -> Result<Labels<'a>, Memory>
        ensures { IfOk result (λ labels. paragraphs_of labels ≡ map read_paragraph paragraphs.now) }
    {
        let table = table_of(alloc, paragraphs)?;
        Ok(Labels { paragraphs, table })
    }

    /// All paragraphs of the program.
    pub fn paragraphs(&self) -> &'a [Paragraph]
        ensures { map read_paragraph result.now ≡ paragraphs_of self.now }
    {
        self.paragraphs
    }

    /// The paragraphs from the one of that name on.
    pub fn paragraphs_from(&self, name: &[u8]) -> &'a [Paragraph]
        ensures { map read_paragraph result.now ≡ from_paragraph name.now (paragraphs_of self.now) }
    {
        match self.table.get(name) {
            Some(label) => last_of(self.paragraphs, label.left),
            None => &[],
        }
    }

    /// How many paragraphs come after a range that ends with the paragraph or the section of that name.
    pub fn left_after(&self, name: &[u8]) -> usize
        ensures { result ≡ after_range (from_paragraph name.now (paragraphs_of self.now)) }
    {
        match self.table.get(name) {
            Some(label) => label.after,
            None => 0,
        }
    }
}

/// The last `count` paragraphs.
fn last_of(paragraphs: &[Paragraph], count: usize) -> &[Paragraph]
    requires { count ≤ length paragraphs.now }
    ensures { result.now ≡ drop (length paragraphs.now - count) paragraphs.now }
{
    &paragraphs[paragraphs.len() - count..]
}

/// How many paragraphs come after the range of one, where `left` are left from it on, and `section_end` come after its
/// paragraphs if it is a section.
fn range_end(paragraph: &Paragraph, left: usize, section_end: usize) -> usize
    requires { 1 ≤ left }
    ensures { result ≡ cond paragraph.now.section section_end (left - 1) }
{
    if paragraph.section {
        section_end
    } else {
        left - 1
    }
}

/// The same for the paragraphs that stand before this one in its section: a section ends where the next one begins.
fn section_end_before(paragraph: &Paragraph, left: usize, section_end: usize) -> usize
    ensures { result ≡ cond paragraph.now.section left section_end }
{
    if paragraph.section { left } else { section_end }
}

/// What the names stand for, from the last paragraph to the first: of several of one name the first holds.
fn table_of<'a>(alloc: Global, paragraphs: &'a [Paragraph]) -> Result<NameTable<'a, Label>, Memory>
    ensures { IfOk result (λ table. (name : List ℕ) → held table name ≡ label_of name (map read_paragraph paragraphs.now)) }
{
    let mut table = NameTable::new(alloc);
    let mut section_end = 0;
    let mut at = paragraphs.len();
    while at > 0 {
        at -= 1;
        let paragraph = &paragraphs[at];
        let left = paragraphs.len() - at;
        let after = range_end(paragraph, left, section_end);
        table.put(paragraph.name.items(), Label { left, after })?;
        section_end = section_end_before(paragraph, left, section_end);
    }
    Ok(table)
}
