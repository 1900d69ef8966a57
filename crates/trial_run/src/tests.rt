use super::*;
use cobol_syntax::{Operand, Register};
use data_layout::Portfolio;
use seq_files::Store;
use std::alloc::Global;
use std::test::Fail;
use y2k_base::{List, Memory};

fn day(yy: u8, mm: u8, dd: u8) -> Day {
    Day { yy, mm, dd }
}

fn is_number(operand: &Operand, number: i128, count: u8) -> bool {
    match operand {
        Operand::Number {
            value,
            digits,
            at: _,
        } => value.number == number && value.scale == 0 && *digits == count,
        Operand::Place(_) => false,
        Operand::Text { .. } => false,
        Operand::Figure { .. } => false,
    }
}

#[test]
fn date_is_yymmdd(rt: HostRuntime) -> Result<(), Fail> {
    assert!(rt; is_number(&day(26, 12, 1).register(Register::Date), 261_201, 6));
    assert!(rt; is_number(&day(0, 3, 1).register(Register::Date), 301, 6));
    Ok(())
}

#[test]
fn day_is_yyddd(rt: HostRuntime) -> Result<(), Fail> {
    assert!(rt; is_number(&day(26, 1, 1).register(Register::Day), 26_001, 5));
    assert!(rt; is_number(&day(26, 12, 1).register(Register::Day), 26_335, 5));
    assert!(rt; is_number(&day(99, 12, 31).register(Register::Day), 99_365, 5));
    Ok(())
}

#[test]
fn a_year_that_4_divides_has_a_29th_of_february(rt: HostRuntime) -> Result<(), Fail> {
    assert!(rt; is_number(&day(0, 3, 1).register(Register::Day), 61, 5));
    assert!(rt; is_number(&day(1, 3, 1).register(Register::Day), 1_060, 5));
    assert!(rt; is_number(&day(96, 12, 31).register(Register::Day), 96_366, 5));
    Ok(())
}

#[test]
fn time_is_eight_zeros(rt: HostRuntime) -> Result<(), Fail> {
    assert!(rt; is_number(&day(26, 12, 1).register(Register::Time), 0, 8));
    Ok(())
}

/// What a job without programs answers.
fn empty_job(alloc: Global) -> Result<JobEnd, Memory> {
    let portfolio = Portfolio {
        programs: List::new(alloc),
        layouts: List::new(alloc),
        files: List::new(alloc),
    };
    let job = Job {
        programs: List::new(alloc),
    };
    let store = Store::new(alloc, &[])?;
    let end = run_job(alloc, &portfolio, &job, store, day(26, 12, 1), 100)?;
    Ok(end)
}

#[test]
fn an_empty_job_has_no_ends(rt: HostRuntime) -> Result<(), Fail> {
    let end = empty_job(rt.alloc())?;
    assert!(rt; end.ends.is_empty());
    assert!(rt; end.shown.is_empty());
    Ok(())
}
