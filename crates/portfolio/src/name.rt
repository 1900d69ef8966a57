ghost use Rattle.std.specs.Prelude.{◌≡◌};
ghost use Rattle.std.specs.Str.{bytes_eq};
ghost use Rattle.portfolio.specs.Names as spec;
ghost use Rattle.portfolio.specs.Steps as steps;

pub fn is_small_letter(byte: u8) -> bool
    ensures { result ≡ spec.is_small_letter byte }
{
    byte >= b'a' && byte <= b'z'
}

fn is_letter_or_digit(byte: u8) -> bool
    ensures { result ≡ spec.is_letter_or_digit byte }
{
    (byte >= b'A' && byte <= b'Z') || is_small_letter(byte) || (byte >= b'0' && byte <= b'9')
}

fn is_name_byte(byte: u8) -> bool
    ensures { result ≡ spec.is_name_byte byte }
{
    is_letter_or_digit(byte) || byte == b'.' || byte == b'-' || byte == b'_'
}

/// Whether a name may go on with this byte, where `is_named` says whether its last part has more than dots.
fn may_follow(is_named: bool, byte: u8) -> bool
    ensures { result ≡ steps.may_follow is_named byte }
{
    if byte == b'/' {
        is_named
    } else {
        is_name_byte(byte)
    }
}

/// Whether the last part has more than dots with this byte.
fn is_named_with(is_named: bool, byte: u8) -> bool
    ensures { result ≡ steps.is_named_with is_named byte }
{
    byte != b'/' && (is_named || byte != b'.')
}

/// Whether a file on a shelf may have this name: parts of letters, digits, `.`, `-` and `_` joined by `/`, no
/// part empty or of dots alone. This project's choice.
pub fn is_shelf_name(name: &[u8]) -> bool
    ensures { result ≡ spec.is_shelf_name name.now }
{
    let mut is_named = false;
    let mut rest = name;
    while let [byte, more @ ..] = rest {
        if !may_follow(is_named, *byte) {
            return false;
        }
        is_named = is_named_with(is_named, *byte);
        rest = more;
    }
    is_named
}

/// Whether the converter itself writes a file of this name.
fn is_kept_name(name: &[u8]) -> bool
    ensures { result ≡ spec.is_kept_name name.now }
{
    is_same(name, b"done") || is_same(name, b"labels.csv") || is_same(name, b"plan.csv")
}

fn is_same(name: &[u8], other: &[u8]) -> bool
    ensures { result ≡ bytes_eq name.now other.now }
{
    name == other
}

/// Whether a file of a manifest may have this name.
pub fn is_file_name(name: &[u8]) -> bool
    ensures { result ≡ spec.is_file_name name.now }
{
    is_shelf_name(name) && !is_kept_name(name)
}
