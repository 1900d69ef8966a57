ghost use Rattle.std.specs.Prelude.{◌≡◌, ◌++◌, string_bytes, IfOk, OnOk};
ghost use Rattle.y2k_base.specs.Edits.{AreInOrder};
ghost use Rattle.data_layout.specs.Index.{IsReady};
ghost use Rattle.date_uses.specs.Places.{place_used};
ghost use Rattle.date_uses.specs.declared.uses.UseForm.TheVariants as forms;
ghost use Rattle.expand_rewrite.specs.Old.{known};
ghost use Rattle.expand_rewrite.specs.Accepts as spec;

use crate::old::OldProgram;
use cobol_syntax::{Place, Register};
use date_uses::{UseForm, place_used};
use generated_areas::accepts_year;
use statement_rules::origin_at;
use statement_words::{add_receiver, add_stretch, add_text};
use std::alloc::Global;
use std::string::String;
use y2k_base::{Edit, List, Memory};

/// What an ACCEPT gives with its century.
#[derive(Clone, Copy, Debug, PartialEq, Eq)]
enum Accepted {
    Date,
    Day,
    Nothing,
}

fn use_of(alloc: Global, program: OldProgram, to: &Place, from: Register) -> Result<UseForm, Memory>
    requires { IsReady program.layout.now }
    ensures { IfOk result (λ form. form ≡ forms.Accept (place_used program.entry.layout.now to.now) from) }
{
    let to = place_used(alloc, program.layout, to)?;
    Ok(UseForm::Accept { to, from })
}

fn accepted_by(program: OldProgram, form: &UseForm) -> Result<Accepted, Memory>
    ensures { IfOk result (λ accepted. accepted ≡ spec.accepted_by program.entry.index.now form.now) }
{
    if accepts_year(program.index, 4, form)? {
        Ok(Accepted::Date)
    } else if accepts_year(program.index, 3, form)? {
        Ok(Accepted::Day)
    } else {
        Ok(Accepted::Nothing)
    }
}

/// ACCEPT FROM DATE and what gives the date its century, up to the item.
fn date_text(alloc: Global, day: u8) -> Result<String, Memory>
    ensures { IfOk result (λ text. string_bytes text ≡ spec.date_text day) }
{
    let tens = day / 10;
    let units = day % 10;
    let text = format!(in alloc;
        "ACCEPT Y2K-DATE FROM DATE IF Y2K-DATE < {tens}{units}0000 COMPUTE Y2K-FULL-DATE = Y2K-DATE + 20000000 ELSE COMPUTE Y2K-FULL-DATE = Y2K-DATE + 19000000 END-IF MOVE Y2K-FULL-DATE TO"
    )?;
    Ok(text)
}

/// ACCEPT FROM DAY and what gives the day its century, up to the item.
fn day_text(alloc: Global, day: u8) -> Result<String, Memory>
    ensures { IfOk result (λ text. string_bytes text ≡ spec.day_text day) }
{
    let tens = day / 10;
    let units = day % 10;
    let text = format!(in alloc;
        "ACCEPT Y2K-DAY FROM DAY IF Y2K-DAY < {tens}{units}000 COMPUTE Y2K-FULL-DAY = Y2K-DAY + 2000000 ELSE COMPUTE Y2K-FULL-DAY = Y2K-DAY + 1900000 END-IF MOVE Y2K-FULL-DAY TO"
    )?;
    Ok(text)
}

/// Adds the edits of an ACCEPT to that item in place of which stand these words and the item.
fn add_text_edits(
    alloc: Global,
    edits: &mut List<Edit>,
    program: OldProgram,
    at: u32,
    end: u32,
    text: &str,
    to: &Place,
) -> Result<(), Memory>
    requires { AreInOrder program.source.edits.now }
    ensures { OnOk result (edits.new ≡ edits.old ++ spec.text_edits (known program.entry) at end text.now to.now) }
{
    let source = program.source;
    let mut new = List::new(alloc);
    add_text(alloc, &mut new, text, origin_at(source.words, at))?;
    add_receiver(alloc, &mut new, source, to, false)?;
    add_stretch(alloc, edits, source.program, source.words, at, end, new)?;
    Ok(())
}

/// Adds the edits of an ACCEPT, if it gives a year its century.
pub(crate) fn add_accept(
    alloc: Global,
    edits: &mut List<Edit>,
    program: OldProgram,
    at: u32,
    end: u32,
    to: &Place,
    from: Register,
) -> Result<(), Memory>
    requires ready { IsReady program.layout.now }
    requires ordered { AreInOrder program.source.edits.now }
    ensures { OnOk result (edits.new ≡ edits.old ++ spec.accept_edits (known program.entry) at end to.now from) }
{
    let form = use_of(alloc, program, to, from)?;
    match accepted_by(program, &form)? {
        Accepted::Date => {
            let text = date_text(alloc, program.day)?;
            add_text_edits(alloc, edits, program, at, end, text.as_str(), to)?;
            Ok(())
        }
        Accepted::Day => {
            let text = day_text(alloc, program.day)?;
            add_text_edits(alloc, edits, program, at, end, text.as_str(), to)?;
            Ok(())
        }
        Accepted::Nothing => Ok(()),
    }
}
