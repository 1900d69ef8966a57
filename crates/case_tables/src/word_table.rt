ghost use Rattle.std.specs.Prelude.{◌≡◌};
ghost use Rattle.std.specs.Str.{bytes_eq};
ghost use Rattle.case_tables.specs.Table.{word_of, role_in, before_space};

/// What a word of the language is to a reader of names.
#[derive(Clone, Copy, Debug, PartialEq, Eq)]
pub enum WordRole {
    /// A word that the grammar uses.
    Reserved,
    /// A word of a part of the language that is left out.
    LeftOut,
    /// A figurative constant, as ZERO.
    Figure,
}

/// A word in capitals, filled up with spaces at its end, and its role.
#[derive(Clone, Copy, Debug, PartialEq, Eq)]
pub struct WordRow {
    pub text: [u8; 15],
    pub role: WordRole,
}

/// Words with their roles.
#[derive(Clone, Copy, Debug, PartialEq, Eq)]
pub struct WordTable<const N: usize> {
    pub rows: [WordRow; N],
}

/// Whether two texts are the same. Most others are told apart by their first bytes.
pub fn same_text(mut left: &[u8], mut right: &[u8]) -> bool
    ensures { result ≡ bytes_eq left.entry.now right.entry.now }
{
    while let [first, more @ ..] = left {
        match right {
            [] => return false,
            [other, rest @ ..] => {
                if *first != *other {
                    return false;
                }
                left = more;
                right = rest;
            }
        }
    }
    right.is_empty()
}

/// Whether a text that is filled up with spaces is this word.
fn is_filled(mut text: &[u8], mut word: &[u8]) -> bool
    ensures { result ≡ bytes_eq (before_space text.entry.now) word.entry.now }
{
    while let [first, more @ ..] = text {
        if *first == b' ' {
            return word.is_empty();
        }
        match word {
            [] => return false,
            [other, rest @ ..] => {
                if *first != *other {
                    return false;
                }
                text = more;
                word = rest;
            }
        }
    }
    word.is_empty()
}

impl WordRow {
    /// The word, without the spaces after it.
    pub fn word(&self) -> &[u8]
        ensures { result.now ≡ word_of self.now }
    {
        for i in 0..self.text.len() {
            if self.text[i] == b' ' {
                return &self.text[..i];
            }
        }
        &self.text
    }
}

impl<const N: usize> WordTable<N> {
    /// The role of the first row with this word, if a row has it. It takes no memory.
    pub fn find(&self, word: &[u8]) -> Option<WordRole>
        ensures { result ≡ role_in word.now self.now.rows }
    {
        for row in &self.rows {
            if is_filled(&row.text, word) {
                return Some(row.role);
            }
        }
        None
    }
}
