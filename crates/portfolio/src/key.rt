ghost use Rattle.std.specs.Prelude.{◌≡◌};
ghost use Rattle.portfolio.specs.Keys as spec;

/// A key of a manifest.
#[derive(Clone, Copy)]
pub enum Key {
    Version,
    Pivot,
    Programs,
    Copybooks,
    Seeds,
    Window,
    Files,
    Jobs,
}

/// All keys, in the order in which faults of one kind are named.
pub const ALL_KEYS: [Key; 8] = [
    Key::Version,
    Key::Pivot,
    Key::Programs,
    Key::Copybooks,
    Key::Seeds,
    Key::Window,
    Key::Files,
    Key::Jobs,
];

/// The keys without which a table is no manifest.
pub const NEEDED_KEYS: [Key; 3] = [Key::Version, Key::Pivot, Key::Programs];

impl Key {
    /// How the key is written.
    pub fn word(self) -> &'static str
        ensures { result.now ≡ spec.word self }
    {
        match self {
            Key::Version => "version",
            Key::Pivot => "pivot",
            Key::Programs => "programs",
            Key::Copybooks => "copybooks",
            Key::Seeds => "seeds",
            Key::Window => "window",
            Key::Files => "files",
            Key::Jobs => "jobs",
        }
    }
}

/// Whether one of these keys is written so.
pub fn is_word_of(keys: &[Key], text: &str) -> bool
    ensures { result ≡ spec.is_word_of keys.now text.now }
{
    let mut rest = keys;
    while let [key, more @ ..] = rest {
        if key.word() == text {
            return true;
        }
        rest = more;
    }
    false
}
