//! The reserved words: those that the grammar uses, those of the parts of the language that are left out, and the
//! figurative constants. A word that the grammar uses in one place, and that is left out in another, is reserved.

ghost use Rattle.std.specs.Prelude.{◌≡◌};
ghost use Rattle.case_tables.specs.Reserved as spec;

use crate::word_table::{WordRole, WordRow, WordTable};

/// The rows of the words with these first letters, each written by the macro that it is given.
macro_rules! reserved_words {
    (A_TO_B, $row:ident) => {
        [
            $row!(b"ACCEPT         ", Reserved),
            $row!(b"ACCESS         ", Reserved),
            $row!(b"ADD            ", Reserved),
            $row!(b"ADVANCING      ", Reserved),
            $row!(b"AFTER          ", Reserved),
            $row!(b"ALL            ", LeftOut),
            $row!(b"ALPHABETIC     ", Reserved),
            $row!(b"ALSO           ", LeftOut),
            $row!(b"ALTER          ", LeftOut),
            $row!(b"AND            ", Reserved),
            $row!(b"ARE            ", Reserved),
            $row!(b"ASSIGN         ", Reserved),
            $row!(b"AT             ", Reserved),
            $row!(b"BEFORE         ", Reserved),
            $row!(b"BINARY         ", Reserved),
            $row!(b"BLOCK          ", Reserved),
            $row!(b"BY             ", Reserved),
        ]
    };
    (C, $row:ident) => {
        [
            $row!(b"CALL           ", LeftOut),
            $row!(b"CANCEL         ", LeftOut),
            $row!(b"CHARACTER      ", Reserved),
            $row!(b"CHARACTERS     ", Reserved),
            $row!(b"CLOSE          ", Reserved),
            $row!(b"COMP           ", Reserved),
            $row!(b"COMP-3         ", Reserved),
            $row!(b"COMPUTATIONAL  ", Reserved),
            $row!(b"COMPUTATIONAL-3", Reserved),
            $row!(b"COMPUTE        ", Reserved),
            $row!(b"CONFIGURATION  ", Reserved),
            $row!(b"CONTAINS       ", Reserved),
            $row!(b"CONTINUE       ", Reserved),
            $row!(b"COPY           ", Reserved),
            $row!(b"CORRESPONDING  ", LeftOut),
        ]
    };
    (D_TO_E, $row:ident) => {
        [
            $row!(b"DATA           ", Reserved),
            $row!(b"DATE           ", Reserved),
            $row!(b"DAY            ", Reserved),
            $row!(b"DELETE         ", LeftOut),
            $row!(b"DEPENDING      ", LeftOut),
            $row!(b"DISPLAY        ", Reserved),
            $row!(b"DIVIDE         ", Reserved),
            $row!(b"DIVISION       ", Reserved),
            $row!(b"ELSE           ", Reserved),
            $row!(b"END            ", Reserved),
            $row!(b"END-ADD        ", Reserved),
            $row!(b"END-COMPUTE    ", Reserved),
            $row!(b"END-DIVIDE     ", Reserved),
            $row!(b"END-EVALUATE   ", Reserved),
            $row!(b"END-IF         ", Reserved),
            $row!(b"END-MULTIPLY   ", Reserved),
            $row!(b"END-PERFORM    ", Reserved),
            $row!(b"END-READ       ", Reserved),
            $row!(b"END-SUBTRACT   ", Reserved),
            $row!(b"END-WRITE      ", Reserved),
            $row!(b"ENVIRONMENT    ", Reserved),
            $row!(b"EQUAL          ", Reserved),
            $row!(b"ERROR          ", Reserved),
            $row!(b"EVALUATE       ", Reserved),
            $row!(b"EXIT           ", Reserved),
            $row!(b"EXTEND         ", Reserved),
        ]
    };
    (F_TO_I, $row:ident) => {
        [
            $row!(b"FD             ", Reserved),
            $row!(b"FILE           ", Reserved),
            $row!(b"FILE-CONTROL   ", Reserved),
            $row!(b"FILLER         ", Reserved),
            $row!(b"FROM           ", Reserved),
            $row!(b"GIVING         ", Reserved),
            $row!(b"GO             ", Reserved),
            $row!(b"GREATER        ", Reserved),
            $row!(b"HIGH-VALUE     ", Figure),
            $row!(b"HIGH-VALUES    ", Figure),
            $row!(b"IDENTIFICATION ", Reserved),
            $row!(b"IF             ", Reserved),
            $row!(b"IN             ", Reserved),
            $row!(b"INDEX          ", LeftOut),
            $row!(b"INDEXED        ", LeftOut),
            $row!(b"INITIALIZE     ", LeftOut),
            $row!(b"INPUT          ", Reserved),
            $row!(b"INPUT-OUTPUT   ", Reserved),
            $row!(b"INSPECT        ", LeftOut),
            $row!(b"INTO           ", Reserved),
            $row!(b"IS             ", Reserved),
        ]
    };
    (J_TO_N, $row:ident) => {
        [
            $row!(b"JUSTIFIED      ", LeftOut),
            $row!(b"KEY            ", LeftOut),
            $row!(b"LABEL          ", Reserved),
            $row!(b"LEADING        ", Reserved),
            $row!(b"LESS           ", Reserved),
            $row!(b"LINE           ", Reserved),
            $row!(b"LINES          ", Reserved),
            $row!(b"LINKAGE        ", LeftOut),
            $row!(b"LOW-VALUE      ", Figure),
            $row!(b"LOW-VALUES     ", Figure),
            $row!(b"MERGE          ", LeftOut),
            $row!(b"MODE           ", Reserved),
            $row!(b"MOVE           ", Reserved),
            $row!(b"MULTIPLY       ", Reserved),
            $row!(b"NEGATIVE       ", Reserved),
            $row!(b"NEXT           ", Reserved),
            $row!(b"NOT            ", Reserved),
            $row!(b"NUMERIC        ", Reserved),
        ]
    };
    (O_TO_Q, $row:ident) => {
        [
            $row!(b"OBJECT-COMPUTER", Reserved),
            $row!(b"OCCURS         ", Reserved),
            $row!(b"OF             ", Reserved),
            $row!(b"OMITTED        ", Reserved),
            $row!(b"ON             ", Reserved),
            $row!(b"OPEN           ", Reserved),
            $row!(b"OPTIONAL       ", LeftOut),
            $row!(b"OR             ", Reserved),
            $row!(b"ORGANIZATION   ", Reserved),
            $row!(b"OTHER          ", Reserved),
            $row!(b"OUTPUT         ", Reserved),
            $row!(b"PACKED-DECIMAL ", Reserved),
            $row!(b"PAGE           ", Reserved),
            $row!(b"PERFORM        ", Reserved),
            $row!(b"PIC            ", Reserved),
            $row!(b"PICTURE        ", Reserved),
            $row!(b"POINTER        ", LeftOut),
            $row!(b"POSITIVE       ", Reserved),
            $row!(b"PROCEDURE      ", Reserved),
            $row!(b"PROGRAM-ID     ", Reserved),
            $row!(b"QUOTE          ", Figure),
            $row!(b"QUOTES         ", Figure),
        ]
    };
    (R, $row:ident) => {
        [
            $row!(b"READ           ", Reserved),
            $row!(b"RECORD         ", Reserved),
            $row!(b"RECORDING      ", Reserved),
            $row!(b"RECORDS        ", Reserved),
            $row!(b"REDEFINES      ", Reserved),
            $row!(b"RELATIVE       ", LeftOut),
            $row!(b"RELEASE        ", LeftOut),
            $row!(b"REMAINDER      ", Reserved),
            $row!(b"RENAMES        ", LeftOut),
            $row!(b"REPLACE        ", LeftOut),
            $row!(b"REPLACING      ", Reserved),
            $row!(b"REPORT         ", LeftOut),
            $row!(b"RETURN         ", LeftOut),
            $row!(b"REWRITE        ", LeftOut),
            $row!(b"ROUNDED        ", Reserved),
            $row!(b"RUN            ", Reserved),
        ]
    };
    (S, $row:ident) => {
        [
            $row!(b"SEARCH         ", LeftOut),
            $row!(b"SECTION        ", Reserved),
            $row!(b"SELECT         ", Reserved),
            $row!(b"SENTENCE       ", Reserved),
            $row!(b"SEPARATE       ", Reserved),
            $row!(b"SEQUENTIAL     ", Reserved),
            $row!(b"SET            ", LeftOut),
            $row!(b"SIGN           ", Reserved),
            $row!(b"SIZE           ", Reserved),
            $row!(b"SORT           ", LeftOut),
            $row!(b"SOURCE-COMPUTER", Reserved),
            $row!(b"SPACE          ", Figure),
            $row!(b"SPACES         ", Figure),
            $row!(b"STANDARD       ", Reserved),
            $row!(b"START          ", LeftOut),
            $row!(b"STATUS         ", Reserved),
            $row!(b"STOP           ", Reserved),
            $row!(b"STRING         ", LeftOut),
            $row!(b"SUBTRACT       ", Reserved),
            $row!(b"SYNCHRONIZED   ", LeftOut),
        ]
    };
    (T_TO_Z, $row:ident) => {
        [
            $row!(b"TEST           ", Reserved),
            $row!(b"THAN           ", Reserved),
            $row!(b"THEN           ", Reserved),
            $row!(b"THROUGH        ", Reserved),
            $row!(b"THRU           ", Reserved),
            $row!(b"TIME           ", Reserved),
            $row!(b"TIMES          ", Reserved),
            $row!(b"TO             ", Reserved),
            $row!(b"TRAILING       ", Reserved),
            $row!(b"TRUE           ", Reserved),
            $row!(b"UNSTRING       ", LeftOut),
            $row!(b"UNTIL          ", Reserved),
            $row!(b"USAGE          ", Reserved),
            $row!(b"USE            ", LeftOut),
            $row!(b"USING          ", LeftOut),
            $row!(b"VALUE          ", Reserved),
            $row!(b"VALUES         ", Reserved),
            $row!(b"VARYING        ", Reserved),
            $row!(b"WHEN           ", Reserved),
            $row!(b"WITH           ", Reserved),
            $row!(b"WORKING-STORAGE", Reserved),
            $row!(b"WRITE          ", Reserved),
            $row!(b"ZERO           ", Figure),
            $row!(b"ZEROES         ", Figure),
            $row!(b"ZEROS          ", Figure),
        ]
    };
}

macro_rules! row {
    ($text:literal, $role:ident) => {
        WordRow {
            text: *$text,
            role: WordRole::$role,
        }
    };
}

pub const A_TO_B: WordTable<17> = WordTable {
    rows: reserved_words!(A_TO_B, row),
};

pub const C: WordTable<15> = WordTable {
    rows: reserved_words!(C, row),
};

pub const D_TO_E: WordTable<26> = WordTable {
    rows: reserved_words!(D_TO_E, row),
};

pub const F_TO_I: WordTable<21> = WordTable {
    rows: reserved_words!(F_TO_I, row),
};

pub const J_TO_N: WordTable<18> = WordTable {
    rows: reserved_words!(J_TO_N, row),
};

pub const O_TO_Q: WordTable<22> = WordTable {
    rows: reserved_words!(O_TO_Q, row),
};

pub const R: WordTable<16> = WordTable {
    rows: reserved_words!(R, row),
};

pub const S: WordTable<20> = WordTable {
    rows: reserved_words!(S, row),
};

pub const T_TO_Z: WordTable<25> = WordTable {
    rows: reserved_words!(T_TO_Z, row),
};

#[tactic(auto, unfolding(crate::specs::Reserved::in_a_to_b))]
fn in_a_to_b(word: &[u8]) -> Option<WordRole>
    ensures { result ≡ spec.in_a_to_b word.now }
{
    A_TO_B.find(word)
}

#[tactic(auto, unfolding(crate::specs::Reserved::in_c))]
fn in_c(word: &[u8]) -> Option<WordRole>
    ensures { result ≡ spec.in_c word.now }
{
    C.find(word)
}

#[tactic(auto, unfolding(crate::specs::Reserved::in_d_to_e))]
fn in_d_to_e(word: &[u8]) -> Option<WordRole>
    ensures { result ≡ spec.in_d_to_e word.now }
{
    D_TO_E.find(word)
}

#[tactic(auto, unfolding(crate::specs::Reserved::in_f_to_i))]
fn in_f_to_i(word: &[u8]) -> Option<WordRole>
    ensures { result ≡ spec.in_f_to_i word.now }
{
    F_TO_I.find(word)
}

#[tactic(auto, unfolding(crate::specs::Reserved::in_j_to_n))]
fn in_j_to_n(word: &[u8]) -> Option<WordRole>
    ensures { result ≡ spec.in_j_to_n word.now }
{
    J_TO_N.find(word)
}

#[tactic(auto, unfolding(crate::specs::Reserved::in_o_to_q))]
fn in_o_to_q(word: &[u8]) -> Option<WordRole>
    ensures { result ≡ spec.in_o_to_q word.now }
{
    O_TO_Q.find(word)
}

#[tactic(auto, unfolding(crate::specs::Reserved::in_r))]
fn in_r(word: &[u8]) -> Option<WordRole>
    ensures { result ≡ spec.in_r word.now }
{
    R.find(word)
}

#[tactic(auto, unfolding(crate::specs::Reserved::in_s))]
fn in_s(word: &[u8]) -> Option<WordRole>
    ensures { result ≡ spec.in_s word.now }
{
    S.find(word)
}

#[tactic(auto, unfolding(crate::specs::Reserved::in_t_to_z))]
fn in_t_to_z(word: &[u8]) -> Option<WordRole>
    ensures { result ≡ spec.in_t_to_z word.now }
{
    T_TO_Z.find(word)
}

/// The role of a word in the table of its first letter.
#[tactic(auto, unfolding(crate::specs::Reserved::by_letter))]
fn by_letter(first: u8, word: &[u8]) -> Option<WordRole>
    ensures { result ≡ spec.by_letter first word.now }
{
    match first {
        ..=b'B' => in_a_to_b(word),
        ..=b'C' => in_c(word),
        ..=b'E' => in_d_to_e(word),
        ..=b'I' => in_f_to_i(word),
        ..=b'N' => in_j_to_n(word),
        ..=b'Q' => in_o_to_q(word),
        ..=b'R' => in_r(word),
        ..=b'S' => in_s(word),
        _ => in_t_to_z(word),
    }
}

/// The role of a word that no name may be; none for any other word. It takes no memory.
pub fn role_of(word: &[u8]) -> Option<WordRole>
    ensures { result ≡ spec.role_of word.now }
{
    match word {
        [] => None,
        [first, ..] => by_letter(*first, word),
    }
}

#[cfg(test)]
mod tests {
    use super::*;

    /// How many of the rows are reserved, left out and figures, if each is found with its role.
    fn counted(rows: &[WordRow]) -> Option<(u8, u8, u8)> {
        let (mut reserved, mut left_out, mut figures) = (0u8, 0u8, 0u8);
        for row in rows {
            if role_of(row.word())? != row.role {
                return None;
            }
            match row.role {
                WordRole::Reserved => reserved = reserved.saturating_add(1),
                WordRole::LeftOut => left_out = left_out.saturating_add(1),
                WordRole::Figure => figures = figures.saturating_add(1),
            }
        }
        Some((reserved, left_out, figures))
    }

    #[test]
    fn words_from_a_to_e_have_their_roles(rt: HostRuntime) {
        assert_eq!(rt; counted(&reserved_words!(A_TO_B, row)), Some((14, 3, 0)));
        assert_eq!(rt; counted(&reserved_words!(C, row)), Some((12, 3, 0)));
        assert_eq!(rt; counted(&reserved_words!(D_TO_E, row)), Some((24, 2, 0)));
    }

    #[test]
    fn words_from_f_to_q_have_their_roles(rt: HostRuntime) {
        assert_eq!(rt; counted(&reserved_words!(F_TO_I, row)), Some((15, 4, 2)));
        assert_eq!(rt; counted(&reserved_words!(J_TO_N, row)), Some((12, 4, 2)));
        assert_eq!(rt; counted(&reserved_words!(O_TO_Q, row)), Some((18, 2, 2)));
    }

    #[test]
    fn words_from_r_to_z_have_their_roles(rt: HostRuntime) {
        assert_eq!(rt; counted(&reserved_words!(R, row)), Some((9, 7, 0)));
        assert_eq!(rt; counted(&reserved_words!(S, row)), Some((12, 6, 2)));
        assert_eq!(rt; counted(&reserved_words!(T_TO_Z, row)), Some((19, 3, 3)));
    }

    #[test]
    fn other_words_may_be_names(rt: HostRuntime) {
        for word in [
            b"".as_slice(),
            b"F",
            b"ID",
            b"ACCEP",
            b"ACCEPT ",
            b"ACCEPTS",
            b"accept",
            b"COMPUTATIONAL-3-B",
            b"ZEROES-",
            b"_",
        ] {
            assert_eq!(rt; role_of(word), None);
        }
    }

    #[test]
    fn the_first_of_equal_words_counts(rt: HostRuntime) {
        let table = WordTable {
            rows: [
                row!(b"BY             ", Figure),
                row!(b"AT             ", Reserved),
                row!(b"BY             ", LeftOut),
            ],
        };
        assert_eq!(rt; table.find(b"BY"), Some(WordRole::Figure));
        assert_eq!(rt; table.find(b"AT"), Some(WordRole::Reserved));
        assert_eq!(rt; table.find(b"BZ"), None);
    }
}
