ghost use Rattle.std.specs.Prelude.{◌≡◌, ◌++◌, ◌∷◌, [], drop, IfOk, OnOk, slice_get, is_some, if◌then◌else◌};
ghost use Rattle.std.specs.List.Sorted.{IsPermutation, IsSorted};
ghost use Rattle.reports.specs.Items as spec;
ghost use Rattle.reports.specs.Rows.{IsBetweenRows, row_text, written};

use crate::names::name_text;
use crate::places::push_place;
use crate::rows::Rows;
use cobol_syntax::Program;
use data_layout::{Item, Layout};
use std::alloc::Global;
use y2k_base::{Bytes, List, Memory, Text, Word, WordKind};

/// Where an item begins, the number of its program, and its own in its program.
#[derive(Clone, Copy, Debug, PartialEq, Eq, PartialOrd, Ord)]
pub(crate) struct ItemStart {
    pub(crate) area: u32,
    pub(crate) offset: u32,
    pub(crate) program: usize,
    pub(crate) item: usize,
}

/// The elementary items of programs with these layouts, by their first bytes; of those that begin at one byte, in the order
/// of their entries.
pub(crate) fn elementary_items(alloc: Global, layouts: &[Layout]) -> Result<Vec<ItemStart>, Memory>
    ensures same { IfOk result (λ starts. IsPermutation (spec.starts_in 0 layouts.now) starts.items) }
    ensures sorted { IfOk result (λ starts. IsSorted spec.start_cmp starts.items) }
{
    let mut starts = starts_in(alloc, layouts)?;
    starts.sort()?;
    Ok(starts)
}

fn starts_in(alloc: Global, layouts: &[Layout]) -> Result<Vec<ItemStart>, Memory>
    ensures { IfOk result (λ starts. starts.items ≡ spec.starts_in 0 layouts.now) }
{
    let mut starts = Vec::new(alloc);
    for program in 0..layouts.len() {
        add_starts(&mut starts, program, layouts[program].items.items())?;
    }
    Ok(starts)
}

fn add_starts(starts: &mut Vec<ItemStart>, program: usize, items: &[Item]) -> Result<(), Memory>
    ensures { OnOk result (starts.new.items ≡ starts.old.items ++ spec.starts_from program 0 items.now) }
{
    for i in 0..items.len() {
        add_start(starts, program, i, &items[i])?;
    }
    Ok(())
}

fn add_start(
    starts: &mut Vec<ItemStart>,
    program: usize,
    number: usize,
    item: &Item,
) -> Result<(), Memory>
    ensures { OnOk result (starts.new.items ≡ starts.old.items ++ (if is_some item.now.picture then spec.start_of program number item.now ∷ [] else [])) }
{
    if item.picture.is_none() {
        return Ok(());
    }
    let start = ItemStart {
        area: item.span.area.0,
        offset: item.span.offset,
        program,
        item: number,
    };
    starts.push(start)?;
    Ok(())
}

pub(crate) fn push_header(rows: &mut Rows) -> Result<(), Memory>
    requires between { IsBetweenRows rows.old }
    ensures between { OnOk result (IsBetweenRows rows.new) }
    ensures row { OnOk result (written rows.new ≡ written rows.old ++ row_text spec.item_header) }
{
    rows.push(&[
        "program".as_bytes(),
        "item".as_bytes(),
        "at".as_bytes(),
        "mode".as_bytes(),
        "old".as_bytes(),
        "new".as_bytes(),
    ])
}

/// Writes the row of an item, whose mode prints so, and which has that PICTURE word after conversion. The word that it
/// has stands there as in the words of the program, so in capitals.
pub(crate) fn push_item<'a>(
    alloc: Global,
    rows: &mut Rows,
    texts: &[Text],
    program: &'a Program,
    item: &'a Item,
    mode: &'a str,
    new: &'a [u8],
) -> Result<(), Memory>
    requires between { IsBetweenRows rows.old }
    ensures between { OnOk result (IsBetweenRows rows.new) }
    ensures row { OnOk result (written rows.new ≡ written rows.old ++ row_text (spec.item_row texts.now program.now item.now mode.now new.now)) }
{
    let words = program.words.items();
    let at = word_place(alloc, texts, words, item.entry_at)?;
    rows.push(&[
        program.id.items(),
        name_text(&item.name),
        at.items(),
        mode.as_bytes(),
        picture_from(words, item.entry_at),
        new,
    ])
}

fn word_place(alloc: Global, texts: &[Text], words: &[Word], at: u32) -> Result<Bytes, Memory>
    ensures { IfOk result (λ place. place ≡ spec.word_place texts.now (slice_get words.now at)) }
{
    let mut place = List::new(alloc);
    if let Some(word) = words.get(at as usize) {
        push_place(alloc, &mut place, texts, word.origin)?;
    }
    Ok(place)
}

/// The first PICTURE word from a position on.
pub(crate) fn picture_from(words: &[Word], at: u32) -> &[u8]
    ensures { result.now ≡ spec.first_picture (drop at words.now) }
{
    let at = at as usize;
    if at <= words.len() {
        first_picture(&words[at..])
    } else {
        &[]
    }
}

fn first_picture(words: &[Word]) -> &[u8]
    ensures { result.now ≡ spec.first_picture words.now }
{
    let mut rest = words;
    while let [word, more @ ..] = rest {
        if is_picture(word.kind) {
            return word.text.items();
        }
        rest = more;
    }
    &[]
}

fn is_picture(kind: WordKind) -> bool
    ensures { result ≡ spec.is_picture kind }
{
    match kind {
        WordKind::Name => false,
        WordKind::Number => false,
        WordKind::Literal => false,
        WordKind::Picture => true,
        WordKind::Mark => false,
    }
}
