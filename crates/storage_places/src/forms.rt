ghost use Rattle.std.specs.Prelude.{◌≡◌, None, IfSome, IfNone};
ghost use Rattle.data_layout.specs.Index.{IsReady};
ghost use Rattle.layout_reading.specs.Numbered.{AreNumbered};
ghost use Rattle.layout_reading.specs.Reading.{first_area};
ghost use Rattle.operand_kinds.specs.declared.kind.Kind.TheVariants as kinds;
ghost use Rattle.storage_places.specs.Fits.{LayoutFits};
ghost use Rattle.storage_places.specs.Forms.{kind_form, IsFormOf};
ghost use Rattle.storage_places.specs.Resolved.{item_named};

use crate::resolving::item_named;
use cobol_syntax::Place;
use data_layout::Layout;
use decimal_bytes::{NumForm, SignPlace};
use operand_kinds::{Kind, kind_of_item};

/// The digits, point and sign of the item that a place's names mean, also where the place has a reference. A group or
/// a text has no digits. There is none where the names mean no item, several things or a condition-name.
pub fn item_form(layout: &Layout, place: &Place) -> Option<NumForm>
    requires ready { IsReady layout.now }
    requires numbered { AreNumbered (first_area layout.now.areas) layout.now.areas }
    requires fits { LayoutFits layout.now }
    ensures form { IfSome result (IsFormOf layout.now place.now) }
    ensures none { IfNone result (item_named layout.now place.now.names ≡ None) }
{
    match item_named(layout, place.names.items()) {
        Some(item) => Some(form_of(kind_of_item(item))),
        None => None,
    }
}

fn form_of(kind: Kind) -> NumForm
    ensures { result ≡ kind_form kind }
{
    match kind {
        Kind::Group => no_digits(),
        Kind::Text => no_digits(),
        Kind::Edited { form } => form,
        Kind::Number { usage: _, form } => form,
    }
}

fn no_digits() -> NumForm
    ensures { result ≡ kind_form kinds.Group }
{
    NumForm {
        digits: 0,
        scale: 0,
        signed: false,
        sign: SignPlace::Trailing,
    }
}
