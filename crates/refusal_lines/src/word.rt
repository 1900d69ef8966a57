ghost use Rattle.std.specs.Prelude.{◌≡◌};
ghost use Rattle.refusal_lines.specs.Words as spec;

use portfolio::ManifestKind;
use program_reader::RefusedKind;

/// The word that a fault of a manifest prints as.
pub(crate) fn key_word(kind: ManifestKind) -> &'static str
    ensures { result.now ≡ spec.key_word kind }
{
    match kind {
        ManifestKind::MissingKey => "MissingKey",
        ManifestKind::BadValue => "BadValue",
        ManifestKind::BadName => "BadName",
        ManifestKind::UnknownKey => "UnknownKey",
        ManifestKind::NameTwice => "NameTwice",
    }
}

/// The word that a refusal of a text or a program prints as.
pub(crate) fn kind_word(kind: RefusedKind) -> &'static str
    ensures { result.now ≡ spec.kind_word kind }
{
    match kind {
        RefusedKind::BadByte => "BadByte",
        RefusedKind::LineLong => "LineLong",
        RefusedKind::OpenLiteral => "OpenLiteral",
        RefusedKind::BadContinuation => "BadContinuation",
        RefusedKind::WordLong => "WordLong",
        RefusedKind::CopyShape => "CopyShape",
        RefusedKind::CopyMissing => "CopyMissing",
        RefusedKind::NestedCopy => "NestedCopy",
        RefusedKind::UnitShape => "UnitShape",
        RefusedKind::NestDeep => "NestDeep",
        RefusedKind::PictureFull => "PictureFull",
        RefusedKind::PictureShape => "PictureShape",
        RefusedKind::TooManyDigits => "TooManyDigits",
        RefusedKind::LayoutShape => "LayoutShape",
        RefusedKind::AreaFull => "AreaFull",
        RefusedKind::NameTwice => "NameTwice",
        RefusedKind::NameUnknown => "NameUnknown",
        RefusedKind::UseShape => "UseShape",
    }
}
