ghost use Rattle.std.specs.Prelude.{◌≡◌, ◌⊎◌, ◌↔◌, true, false, IsTrue, OnOk};
ghost use Rattle.case_tables.specs.declared.row_table.Test.{Test as AnyTest};
ghost use Rattle.case_tables.specs.Rows.{Holds as IsSeen};
ghost use Rattle.year_labels.specs.Forms.{IsFitView, IsByRows};
ghost use Rattle.year_labels.specs.Operands.{Is, Makes, Holds};
ghost use Rattle.label_spread.specs.Steps.{Adds, IsMade};

use crate::known::Known;
use crate::roles::{give_role, has_role};
use case_tables::{Flags, Known as Seen, RowTable};
use y2k_base::Memory;
use year_labels::{Role, View};

/// Adds what the rows say of the operands.
pub(crate) fn fire_rows<const N: usize>(
    a: &View,
    b: &View,
    c: &View,
    table: &RowTable<N>,
    known: &mut Known,
) -> Result<(), Memory>
    requires a { IsFitView a.now }
    requires b { IsFitView b.now }
    requires c { IsFitView c.now }
    ensures { OnOk result (Adds (IsByRows table.now.rows a.now b.now c.now) known.old known.new) }
{
    let seen = seen_of(known, a, b, c);
    let given = table.fires(&seen);
    make(a, given.a, known)?;
    make(b, given.b, known)?;
    make(c, given.c, known)?;
    Ok(())
}

/// What the known facts say of the operands.
fn seen_of(known: &Known, a: &View, b: &View, c: &View) -> Seen
    requires a { IsFitView a.now }
    requires b { IsFitView b.now }
    requires c { IsFitView c.now }
    ensures { (test : AnyTest) → IsSeen result test ↔ Holds a.now b.now c.now test known.now }
{
    Seen {
        a: flags_of(known, a),
        b: flags_of(known, b),
        c: flags_of(known, c),
    }
}

/// Whether the number is a year, and whether it is plain.
fn flags_of(known: &Known, view: &View) -> Flags
    requires { IsFitView view.now }
    ensures year { IsTrue result.year ↔ Is known.now view.now true }
    ensures plain { IsTrue result.plain ↔ Is known.now view.now false }
{
    Flags {
        year: is_year(known, view),
        plain: is_plain(known, view),
    }
}

fn is_year(known: &Known, view: &View) -> bool
    requires { IsFitView view.now }
    ensures { IsTrue result ↔ Is known.now view.now true }
{
    has_role(known, view, 1, Role::Tens) || has_role(known, view, 0, Role::Units)
}

fn is_plain(known: &Known, view: &View) -> bool
    requires { IsFitView view.now }
    ensures { IsTrue result ↔ Is known.now view.now false }
{
    has_role(known, view, 1, Role::Plain) || has_role(known, view, 0, Role::Plain)
}

/// Makes the number what the flags say.
fn make(view: &View, flags: Flags, known: &mut Known) -> Result<(), Memory>
    requires { IsFitView view.now }
    ensures { OnOk result (Adds (IsMade view.now flags) known.old known.new) }
{
    make_year_if(flags.year, view, known)?;
    make_plain_if(flags.plain, view, known)?;
    Ok(())
}

fn make_year_if(wanted: bool, view: &View, known: &mut Known) -> Result<(), Memory>
    requires { IsFitView view.now }
    ensures { OnOk result (Adds (λ xs f. IsTrue wanted × Makes xs view.now true f) known.old known.new) }
{
    if wanted {
        make_year(view, known)?;
        Ok(())
    } else {
        Ok(())
    }
}

fn make_plain_if(wanted: bool, view: &View, known: &mut Known) -> Result<(), Memory>
    requires { IsFitView view.now }
    ensures { OnOk result (Adds (λ xs f. IsTrue wanted × Makes xs view.now false f) known.old known.new) }
{
    if wanted {
        make_plain(view, known)?;
        Ok(())
    } else {
        Ok(())
    }
}

fn make_year(view: &View, known: &mut Known) -> Result<(), Memory>
    requires { IsFitView view.now }
    ensures { OnOk result (Adds (λ xs. Makes xs view.now true) known.old known.new) }
{
    give_role(view, 1, Role::Tens, known)?;
    give_role(view, 0, Role::Units, known)?;
    Ok(())
}

fn make_plain(view: &View, known: &mut Known) -> Result<(), Memory>
    requires { IsFitView view.now }
    ensures { OnOk result (Adds (λ xs. Makes xs view.now false) known.old known.new) }
{
    give_role(view, 1, Role::Plain, known)?;
    give_role(view, 0, Role::Plain, known)?;
    Ok(())
}
