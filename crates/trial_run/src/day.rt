ghost use Rattle.std.specs.Prelude.{◌≡◌, ◌+◌, ◌-◌, ◌*◌, ◌%◌, ◌==◌, ◌≤◌, cond, pos};
ghost use Rattle.program_meaning.specs.Tree.{Number};
ghost use Rattle.program_meaning.specs.Step as meant;
ghost use Rattle.program_meaning.specs.Step.{month_lengths, days_before};
ghost use Rattle.tree_reading.specs.Reading.{read_operand, read_register};
ghost use Rattle.trial_run.specs.Answers.{read_day};

use cobol_syntax::{Operand, Register};
use decimal_bytes::Scaled;

/// The day of a run: the last two digits of its year, its month and its day.
#[derive(Clone, Copy, Debug, PartialEq, Eq)]
pub struct Day {
    pub yy: u8,
    pub mm: u8,
    pub dd: u8,
}

impl Day {
    /// What ACCEPT takes from the system on this day.
    pub(crate) fn register(self, register: Register) -> Operand
        ensures { read_operand result ≡ meant.register (read_day self) (read_register register) }
    {
        match register {
            Register::Date => whole(self.date(), 6),
            Register::Day => whole(self.number_in_year(), 5),
            Register::Time => whole(0, 8),
        }
    }

    /// YYMMDD.
    fn date(self) -> u32
        ensures { result ≡ self.yy * 10000 + self.mm * 100 + self.dd }
    {
        self.yy as u32 * 10000 + self.mm as u32 * 100 + self.dd as u32
    }

    /// YYDDD.
    fn number_in_year(self) -> u32
        ensures { result ≡ self.yy * 1000 + (days_before (self.mm - 1) (month_lengths (self.yy % 4 == 0)) + self.dd) }
    {
        let before = days_before(self.mm.saturating_sub(1), self.yy % 4 == 0);
        self.yy as u32 * 1000 + (before + self.dd as u32)
    }
}

/// An unsigned integer of so many digits.
fn whole(number: u32, digits: u8) -> Operand
    ensures { read_operand result ≡ Number (pos number) 0 digits }
{
    Operand::Number {
        value: Scaled {
            number: number as i128,
            scale: 0,
        },
        digits,
        at: 0,
    }
}

/// The days of the first `months` months.
fn days_before(months: u8, leap: bool) -> u32
    ensures sum { result ≡ days_before months (month_lengths leap) }
    ensures year { result ≤ 366 }
{
    match months {
        0 => 0,
        1 => 31,
        2 => 31 + february(leap),
        3 => 62 + february(leap),
        4 => 92 + february(leap),
        5 => 123 + february(leap),
        6 => 153 + february(leap),
        7 => 184 + february(leap),
        8 => 215 + february(leap),
        9 => 245 + february(leap),
        10 => 276 + february(leap),
        11 => 306 + february(leap),
        _ => 337 + february(leap),
    }
}

fn february(leap: bool) -> u32
    ensures { result ≡ cond leap 29 28 }
{
    if leap { 29 } else { 28 }
}
