ghost use Rattle.std.specs.Prelude.{◌≡◌, ◌≢◌, true, false};
ghost use Rattle.cond_reader.specs.Symbols as spec;

use crate::table::value_of;
use case_tables::role_of;
use y2k_base::{Word, WordKind};

/// What a word is to the grammar of conditions.
#[derive(Clone, Copy, Debug, PartialEq, Eq)]
pub enum Symbol {
    /// Past the last word.
    End,
    /// A word that stands in no condition.
    Other,
    Period,
    /// A word other than a parenthesis that opens a level in a sentence.
    Nest,
    Name,
    Number,
    Literal,
    Zero,
    /// ZEROS or ZEROES.
    Zeros,
    Space,
    HighValue,
    LowValue,
    Quote,
    And,
    Or,
    Not,
    Is,
    /// OF or IN.
    Of,
    To,
    Than,
    Equal,
    Greater,
    Less,
    EqualSign,
    GreaterSign,
    LessSign,
    /// The mark `<=`.
    AtMost,
    /// The mark `>=`.
    AtLeast,
    Numeric,
    Alphabetic,
    Positive,
    Negative,
    Open,
    Close,
    Colon,
    Plus,
    Minus,
    Star,
    Slash,
}

/// The reserved words of conditions, and those that open a level.
pub const KEYWORDS: [(&[u8], Symbol); 31] = [
    (b"ZERO", Symbol::Zero),
    (b"ZEROS", Symbol::Zeros),
    (b"ZEROES", Symbol::Zeros),
    (b"SPACE", Symbol::Space),
    (b"SPACES", Symbol::Space),
    (b"HIGH-VALUE", Symbol::HighValue),
    (b"HIGH-VALUES", Symbol::HighValue),
    (b"LOW-VALUE", Symbol::LowValue),
    (b"LOW-VALUES", Symbol::LowValue),
    (b"QUOTE", Symbol::Quote),
    (b"QUOTES", Symbol::Quote),
    (b"AND", Symbol::And),
    (b"OR", Symbol::Or),
    (b"NOT", Symbol::Not),
    (b"IS", Symbol::Is),
    (b"OF", Symbol::Of),
    (b"IN", Symbol::Of),
    (b"TO", Symbol::To),
    (b"THAN", Symbol::Than),
    (b"EQUAL", Symbol::Equal),
    (b"GREATER", Symbol::Greater),
    (b"LESS", Symbol::Less),
    (b"NUMERIC", Symbol::Numeric),
    (b"ALPHABETIC", Symbol::Alphabetic),
    (b"POSITIVE", Symbol::Positive),
    (b"NEGATIVE", Symbol::Negative),
    (b"IF", Symbol::Nest),
    (b"EVALUATE", Symbol::Nest),
    (b"PERFORM", Symbol::Nest),
    (b"READ", Symbol::Nest),
    (b"ERROR", Symbol::Nest),
];

/// The marks of conditions, and the period.
pub const MARKS: [(&[u8], Symbol); 13] = [
    (b".", Symbol::Period),
    (b"(", Symbol::Open),
    (b")", Symbol::Close),
    (b":", Symbol::Colon),
    (b"=", Symbol::EqualSign),
    (b"<", Symbol::LessSign),
    (b">", Symbol::GreaterSign),
    (b"<=", Symbol::AtMost),
    (b">=", Symbol::AtLeast),
    (b"+", Symbol::Plus),
    (b"-", Symbol::Minus),
    (b"*", Symbol::Star),
    (b"/", Symbol::Slash),
];

#[tactic(auto, unfolding(crate::specs::Symbols::keyword))]
fn keyword(text: &[u8]) -> Option<Symbol>
    ensures { result ≡ spec.keyword text.now }
{
    value_of(&KEYWORDS, text)
}

#[tactic(auto, unfolding(crate::specs::Symbols::mark))]
fn mark(text: &[u8]) -> Option<Symbol>
    ensures { result ≡ spec.mark text.now }
{
    value_of(&MARKS, text)
}

/// A word that is reserved and no word of conditions is no name there.
#[tactic(auto, unfolding(crate::specs::Symbols::symbol_of_name))]
fn symbol_of_name(text: &[u8]) -> Symbol
    ensures { result ≡ spec.symbol_of_name text.now }
{
    match keyword(text) {
        Some(symbol) => symbol,
        None => match role_of(text) {
            Some(_) => Symbol::Other,
            None => Symbol::Name,
        },
    }
}

/// What a word is to the grammar.
#[tactic(auto, unfolding(crate::specs::Symbols::symbol_of))]
pub fn symbol_of(word: &Word) -> Symbol
    ensures { result ≡ spec.symbol_of word.now }
{
    let text = word.text.items();
    match word.kind {
        WordKind::Name => symbol_of_name(text),
        WordKind::Number => Symbol::Number,
        WordKind::Literal => Symbol::Literal,
        WordKind::Picture => Symbol::Other,
        WordKind::Mark => match mark(text) {
            Some(symbol) => symbol,
            None => Symbol::Other,
        },
    }
}

pub fn same_symbol(a: Symbol, b: Symbol) -> bool
    ensures value { result ≡ spec.same_symbol a b }
    ensures same { result ≡ true → a ≡ b }
    ensures other { result ≡ false → a ≢ b }
{
    a == b
}
