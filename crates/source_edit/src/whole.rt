ghost use Rattle.std.specs.Prelude.{◌≡◌, ◌+◌, true, IfOk, IfErr};
ghost use Rattle.source_edit.specs.Changes.{changed};
ghost use Rattle.source_edit.specs.Applied as spec;

use crate::changes::Changes;
use crate::clash::gathering_of;
use crate::expansion::{next, program_clashes, sources_of};
use crate::fault::{EditFault, fault_of};
use crate::line::copy_of;
use crate::text::edited_text;
use plan_limits::first_limit;
use std::alloc::Global;
use y2k_base::{Edits, FileId, List, Memory, Text, Texts};

/// Texts with their words edited, and whether each reads as these words.
#[derive(Drop)]
struct EditedTexts {
    list: List<Text>,
    read: bool,
}

/// Adds a text with its words edited.
fn add_text(
    alloc: Global,
    text: &Text,
    file: FileId,
    changes: &Changes,
    into: EditedTexts,
) -> Result<EditedTexts, Memory>
    ensures { IfOk result (λ new. spec.AddsText (changed changes.now) file text.now into new) }
{
    let edited = edited_text(alloc, text.bytes.items(), file, changes)?;
    let new = Text {
        name: copy_of(alloc, text.name.items())?,
        key: copy_of(alloc, text.key.items())?,
        role: text.role,
        bytes: edited.bytes,
    };
    let mut list = into.list;
    list.push(new)?;
    Ok(EditedTexts {
        list,
        read: into.read && edited.reads,
    })
}

/// The texts with their words edited.
fn edited_texts(alloc: Global, texts: &[Text], changes: &Changes) -> Result<EditedTexts, Memory>
    ensures texts { IfOk result (λ new. spec.AreEditedFrom (changed changes.now) 0 texts.now new.list) }
    ensures read { IfOk result (λ new. new.read ≡ true → spec.AreReadFrom (changed changes.now) 0 texts.now new.list) }
{
    let mut edited = EditedTexts {
        list: List::new(alloc),
        read: true,
    };
    let mut number = 0u32;
    let mut rest = texts;
    while let [text, more @ ..] = rest {
        edited = add_text(alloc, text, FileId(number), changes, edited)?;
        number = next(number)?;
        rest = more;
    }
    Ok(edited)
}

/// Writes texts with their words edited: each word at the origin of an edit, in programs and in copybooks, is replaced by the edit's
/// words. The lines that hold no edited word stay byte for byte. The others are laid anew from their first edited word on.
///
/// Two edits of one origin with unlike words clash. So does what a program is to read as, its expanded words with those of its edits
/// in place, with what its new text reads as with the new copybooks. Edits of one origin are looked at first. Of several clashes
/// that with the first origin is named, and of those the one with the least words. A word is compared by kind and text.
///
/// The texts have no fault in their lines and expand without one. Each edit names a word of a program's expansion by its position
/// and origin, and brings words that fixed format has, no literal over 160 characters. What isn't so answers `Memory`.
pub fn apply(alloc: Global, texts: &Texts, edits: &Edits) -> Result<Texts, EditFault>
    ensures ok { IfOk result (λ new. spec.AreApplied texts.now.list edits.now.list new.list) }
    ensures err { IfErr result (spec.HasClash texts.now.list edits.now.list) }
{
    let gathering = gathering_of(alloc, edits.list.items())?;
    match first_limit(gathering.clashes) {
        Some(clash) => Err(fault_of(alloc, &clash)),
        None => {
            let edited = edited_texts(alloc, texts.list.items(), &gathering.changes)?;
            let before = sources_of(alloc, texts.list.items())?;
            let after = sources_of(alloc, edited.list.items())?;
            let clashes = program_clashes(alloc, &gathering.replacements, &before, &after)?;
            match first_limit(clashes) {
                Some(clash) => Err(fault_of(alloc, &clash)),
                None => if edited.read {
                    Ok(Texts { list: edited.list })
                } else {
                    Err(EditFault::Memory)
                },
            }
        }
    }
}
