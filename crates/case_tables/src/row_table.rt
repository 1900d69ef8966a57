ghost use Rattle.std.specs.Prelude.{◌≡◌, ◌↔◌, true, false, IsTrue};
ghost use Rattle.case_tables.specs.declared.row_table.Test.{Test as AnyTest};
ghost use Rattle.case_tables.specs.Rows.{flag, Holds, HoldsIf, Fires, IsGiven};

/// What is known of an operand. Nothing, one or both may be.
#[derive(Clone, Copy, Debug, PartialEq, Eq)]
pub struct Flags {
    pub year: bool,
    pub plain: bool,
}

/// What is known of the three operands of a sum `c = a + b` or of a difference `c = b - a`.
#[derive(Clone, Copy, Debug, PartialEq, Eq)]
pub struct Known {
    pub a: Flags,
    pub b: Flags,
    pub c: Flags,
}

/// One of the three operands.
#[derive(Clone, Copy, Debug, PartialEq, Eq)]
pub enum Who {
    A,
    B,
    C,
}

/// That an operand is a year, or that it is plain.
#[derive(Clone, Copy, Debug, PartialEq, Eq)]
pub struct Test {
    pub who: Who,
    pub year: bool,
}

/// What one operand becomes where one other, or two, are something.
#[derive(Clone, Copy, Debug, PartialEq, Eq)]
pub struct Row {
    pub if1: Test,
    pub if2: Option<Test>,
    pub gives: Test,
}

/// What operands say about each other.
#[derive(Clone, Copy, Debug, PartialEq, Eq)]
pub struct RowTable<const N: usize> {
    pub rows: [Row; N],
}

impl Flags {
    fn has(self, year: bool) -> bool
        ensures { result ≡ flag self year }
    {
        if year { self.year } else { self.plain }
    }
}

impl Known {
    /// Whether the operand that the test names is known to be what it says.
    pub fn holds(&self, test: Test) -> bool
        ensures { IsTrue result ↔ Holds self.now test }
    {
        match test.who {
            Who::A => self.a.has(test.year),
            Who::B => self.b.has(test.year),
            Who::C => self.c.has(test.year),
        }
    }

    fn holds_if(&self, test: Option<Test>) -> bool
        ensures { IsTrue result ↔ HoldsIf self.now test }
    {
        match test {
            Some(test) => self.holds(test),
            None => true,
        }
    }
}

impl Row {
    /// Whether its tests hold.
    pub fn fires(&self, known: &Known) -> bool
        ensures { IsTrue result ↔ Fires known.now self.now }
    {
        known.holds(self.if1) && known.holds_if(self.if2)
    }

    fn makes(&self, known: &Known, test: Test) -> bool
        ensures { IsTrue result ↔ (Fires known.now self.now × (self.now.gives ≡ test)) }
    {
        self.gives == test && self.fires(known)
    }
}

impl<const N: usize> RowTable<N> {
    /// Just the flags that a row gives whose tests hold. It takes no memory.
    pub fn fires(&self, known: &Known) -> Known
        ensures { (test : AnyTest) → Holds result test ↔ IsGiven self.now.rows known.now test }
    {
        Known {
            a: self.flags_of(Who::A, known),
            b: self.flags_of(Who::B, known),
            c: self.flags_of(Who::C, known),
        }
    }

    fn flags_of(&self, who: Who, known: &Known) -> Flags
        ensures year { IsTrue result.year ↔ IsGiven self.now.rows known.now (record { who = who; year = true }) }
        ensures plain { IsTrue result.plain ↔ IsGiven self.now.rows known.now (record { who = who; year = false }) }
    {
        Flags {
            year: self.gives(Test { who, year: true }, known),
            plain: self.gives(Test { who, year: false }, known),
        }
    }

    /// Whether a row whose tests hold gives this.
    fn gives(&self, test: Test, known: &Known) -> bool
        ensures { IsTrue result ↔ IsGiven self.now.rows known.now test }
    {
        for i in 0..self.rows.len() {
            if self.rows[i].makes(known, test) {
                return true;
            }
        }
        false
    }
}

macro_rules! test {
    ($who:ident year) => {
        Test {
            who: Who::$who,
            year: true,
        }
    };
    ($who:ident plain) => {
        Test {
            who: Who::$who,
            year: false,
        }
    };
}

macro_rules! row {
    ($if1:ident $is1:ident => $gives:ident $is:ident) => {
        Row {
            if1: test!($if1 $is1),
            if2: None,
            gives: test!($gives $is),
        }
    };
    ($if1:ident $is1:ident, $if2:ident $is2:ident => $gives:ident $is:ident) => {
        Row {
            if1: test!($if1 $is1),
            if2: Some(test!($if2 $is2)),
            gives: test!($gives $is),
        }
    };
}

/// What the operands of a sum `c = a + b` say about each other (this project's choice).
pub const ADD_ROWS: RowTable<9> = RowTable {
    rows: [
        row!(A year => C year),
        row!(A year => B plain),
        row!(B year => C year),
        row!(B year => A plain),
        row!(C plain => A plain),
        row!(C plain => B plain),
        row!(A plain, B plain => C plain),
        row!(A plain, C year => B year),
        row!(B plain, C year => A year),
    ],
};

/// What the operands of a difference `c = b - a` say about each other (this project's choice).
pub const SUB_ROWS: RowTable<9> = RowTable {
    rows: [
        row!(A year => B year),
        row!(A year => C plain),
        row!(C year => B year),
        row!(C year => A plain),
        row!(A plain, B year => C year),
        row!(A plain, C plain => B plain),
        row!(B plain => A plain),
        row!(B plain => C plain),
        row!(B year, C plain => A year),
    ],
};

#[cfg(test)]
mod tests {
    use super::*;

    const NOTHING: Flags = Flags {
        year: false,
        plain: false,
    };

    const YEAR: Flags = Flags {
        year: true,
        plain: false,
    };

    const PLAIN: Flags = Flags {
        year: false,
        plain: true,
    };

    const BOTH: Flags = Flags {
        year: true,
        plain: true,
    };

    fn known(a: Flags, b: Flags, c: Flags) -> Known {
        Known { a, b, c }
    }

    #[test]
    fn what_the_operands_of_a_difference_say(rt: HostRuntime) {
        for (seen, given) in [
            (known(YEAR, NOTHING, NOTHING), known(NOTHING, YEAR, PLAIN)),
            (
                known(NOTHING, NOTHING, NOTHING),
                known(NOTHING, NOTHING, NOTHING),
            ),
            (known(NOTHING, NOTHING, YEAR), known(PLAIN, YEAR, NOTHING)),
            (known(NOTHING, PLAIN, NOTHING), known(PLAIN, NOTHING, PLAIN)),
            (known(PLAIN, YEAR, NOTHING), known(NOTHING, NOTHING, YEAR)),
            (known(PLAIN, NOTHING, PLAIN), known(NOTHING, PLAIN, NOTHING)),
            (known(NOTHING, YEAR, PLAIN), known(YEAR, NOTHING, NOTHING)),
            (
                known(NOTHING, YEAR, NOTHING),
                known(NOTHING, NOTHING, NOTHING),
            ),
            (known(BOTH, BOTH, NOTHING), known(PLAIN, YEAR, BOTH)),
        ] {
            assert_eq!(rt; SUB_ROWS.fires(&seen), given);
        }
    }

    #[test]
    fn what_the_operands_of_a_sum_say(rt: HostRuntime) {
        for (seen, given) in [
            (known(YEAR, NOTHING, NOTHING), known(NOTHING, PLAIN, YEAR)),
            (known(NOTHING, YEAR, NOTHING), known(PLAIN, NOTHING, YEAR)),
            (known(NOTHING, NOTHING, PLAIN), known(PLAIN, PLAIN, NOTHING)),
            (known(PLAIN, PLAIN, NOTHING), known(NOTHING, NOTHING, PLAIN)),
            (known(PLAIN, NOTHING, YEAR), known(NOTHING, YEAR, NOTHING)),
            (known(NOTHING, PLAIN, YEAR), known(YEAR, NOTHING, NOTHING)),
            (
                known(NOTHING, NOTHING, YEAR),
                known(NOTHING, NOTHING, NOTHING),
            ),
        ] {
            assert_eq!(rt; ADD_ROWS.fires(&seen), given);
        }
    }

    #[test]
    fn a_table_of_other_rows(rt: HostRuntime) {
        let none = RowTable { rows: [] };
        assert_eq!(rt;
            none.fires(&known(BOTH, BOTH, BOTH)),
            known(NOTHING, NOTHING, NOTHING)
        );
        let one = RowTable {
            rows: [row!(A year, B plain => A plain)],
        };
        assert_eq!(rt;
            one.fires(&known(YEAR, PLAIN, NOTHING)),
            known(PLAIN, NOTHING, NOTHING)
        );
        assert_eq!(rt;
            one.fires(&known(YEAR, YEAR, NOTHING)),
            known(NOTHING, NOTHING, NOTHING)
        );
    }
}
