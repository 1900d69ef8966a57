ghost use Rattle.std.specs.Prelude.{◌≤◌};

use crate::{count_digits, picture_image, print_runs};
use cobol_syntax::Usage;
use data_layout::{Class, Item};
use decimal_bytes::{NumForm, SignPlace};
use picture::{PicFault, read_picture};
use std::alloc::Global;
use std::test::Fail;
use window_modes::YearMode;
use y2k_base::{AreaId, BytePlace, Bytes, List, Memory, Picture, Span};
use year_index::YearIndex;
use year_pairs::{Year, YearKind};

/// The index of one year of the first area.
fn index_of(
    alloc: Global,
    offset: u32,
    kind: YearKind,
    pivot: Option<u8>,
) -> Result<YearIndex, Memory>
    requires { offset ≤ 65535 }
{
    let place = BytePlace {
        area: AreaId(0),
        offset,
    };
    let mut modes = List::new(alloc);
    modes.push(YearMode {
        year: Year { place, kind },
        pivot,
        clash: false,
    })?;
    Ok(YearIndex::new(modes))
}

/// An item at the begin of the first area.
fn item_of(alloc: Global, usage: Usage, picture: Picture, length: u32) -> Item {
    Item {
        name: None,
        level: 5,
        parent: None,
        span: Span {
            area: AreaId(0),
            offset: 0,
            length,
        },
        class: Class::Text,
        usage,
        form: NumForm {
            digits: 0,
            scale: 0,
            signed: false,
            sign: SignPlace::Trailing,
        },
        picture: Some(picture),
        steps: List::new(alloc),
        entry_at: 0,
    }
}

/// The printed PICTURE of an item after conversion, and its digits.
fn image(
    alloc: Global,
    usage: Usage,
    text: &[u8],
    length: u32,
    index: &YearIndex,
) -> Result<(Bytes, u64), PicFault> {
    let picture = read_picture(alloc, text)?;
    let item = item_of(alloc, usage, picture, length);
    match picture_image(alloc, &item, index)? {
        None => Err(PicFault::PictureShape),
        Some(image) => {
            let printed = print_runs(alloc, image.runs.items())?;
            let digits = count_digits(image.runs.items())?;
            Ok((printed, digits))
        }
    }
}

#[test]
fn pictures_get_the_places_of_their_years(rt: HostRuntime) -> Result<(), Fail> {
    let alloc = rt.alloc();
    let packed = YearKind::Packed { digits: 5, unit: 3 };
    for (usage, text, length, offset, kind, pivot, want, digits) in [
        (
            Usage::Display,
            b"99/99/99".as_slice(),
            8,
            0,
            YearKind::Pair,
            None,
            b"9(4)/99/99".as_slice(),
            8,
        ),
        (
            Usage::Display,
            b"Z9/99",
            5,
            3,
            YearKind::Pair,
            None,
            b"Z9/9(4)",
            6,
        ),
        (
            Usage::Display,
            b"X(6)",
            6,
            2,
            YearKind::Pair,
            None,
            b"X(8)",
            0,
        ),
        (
            Usage::Display,
            b"X(6)",
            6,
            6,
            YearKind::Pair,
            None,
            b"X(6)",
            0,
        ),
        (
            Usage::Display,
            b"X(6)",
            6,
            2,
            YearKind::Pair,
            Some(50),
            b"X(6)",
            0,
        ),
        (Usage::Display, b"X(9)", 9, 4, packed, None, b"X(10)", 0),
        (
            Usage::Display,
            b"9(18)",
            18,
            0,
            YearKind::Pair,
            None,
            b"9(20)",
            20,
        ),
        (Usage::Packed, b"S9(5)", 3, 0, packed, None, b"S9(7)", 7),
        (Usage::Packed, b"S9(5)", 3, 0, packed, Some(50), b"S9(5)", 5),
    ] {
        let index = index_of(alloc, offset, kind, pivot)?;
        let (printed, count) = image(alloc, usage, text, length, &index)?;
        assert_eq!(rt; printed.items(), want);
        assert_eq!(rt; count, digits, "{text:?}");
    }
    Ok(())
}
