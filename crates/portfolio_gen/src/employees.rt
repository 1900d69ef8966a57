ghost use Rattle.std.specs.Prelude.{◌≡◌, ◌+◌, ◌*◌, ◌/◌, ◌%◌, ◌<◌, ◌≤◌, ◌++◌, IfOk, OnOk, length};
ghost use Rattle.portfolio_gen.specs.Digits.{HaveDigits, digits};
ghost use Rattle.portfolio_gen.specs.Employees as spec;

use std::alloc::Global;
use y2k_base::{Bytes, List, Memory};

/// How many bytes a record has.
const RECORD_BYTES: usize = 20;

/// The file of so many employees.
pub(crate) fn employees(alloc: Global, count: u32) -> Result<Bytes, Memory>
    requires { count ≤ 1000000 }
    ensures records { IfOk result (λ bytes. bytes ≡ spec.employees count) }
    ensures length { IfOk result (λ bytes. length bytes ≡ 20 * count) }
    ensures digits { IfOk result (λ bytes. HaveDigits count bytes) }
{
    let bytes = records(alloc, count)?;
    Ok(bytes)
}

fn records(alloc: Global, count: u32) -> Result<Bytes, Memory>
    requires { count ≤ 1000000 }
    ensures { IfOk result (λ bytes. bytes ≡ spec.employees count) }
{
    let room = Vec::with_capacity(alloc, RECORD_BYTES * count as usize)?;
    let mut bytes = List::from_vec(room);
    let mut drawn = count;
    for i in 0..count {
        drawn = next_drawn(drawn);
        add_employee(&mut bytes, i + 1, drawn / 65_536)?;
    }
    Ok(bytes)
}

fn next_drawn(drawn: u32) -> u32
    requires { drawn < 2147483648 }
    ensures value { result ≡ spec.next_drawn drawn }
    ensures below { result < 2147483648 }
{
    ((1_103_515_245 * u64::from(drawn) + 12_345) % 2_147_483_648) as u32
}

/// Adds the record of an employee, with a date of hire that comes from the number `t`.
fn add_employee(bytes: &mut Bytes, number: u32, t: u32) -> Result<(), Memory>
    ensures { OnOk result (bytes.new ≡ bytes.old ++ spec.employee_hired number t) }
{
    add_six(bytes, number % 1_000_000)?;
    add_date(bytes, t)?;
    bytes.append(b"EMPLOYEE")?;
    Ok(())
}

fn add_date(bytes: &mut Bytes, t: u32) -> Result<(), Memory>
    ensures { OnOk result (bytes.new ≡ bytes.old ++ spec.date t) }
{
    add_two(bytes, 50 + t % 50)?;
    add_two(bytes, 1 + t / 50 % 12)?;
    add_two(bytes, 1 + t / 600 % 28)?;
    Ok(())
}

/// Adds the last six digits of a number.
fn add_six(bytes: &mut Bytes, number: u32) -> Result<(), Memory>
    ensures { OnOk result (bytes.new ≡ bytes.old ++ digits 6 number) }
{
    bytes.append(&[
        digit(number, 100_000),
        digit(number, 10_000),
        digit(number, 1_000),
        digit(number, 100),
        digit(number, 10),
        digit(number, 1),
    ])
}

/// Adds the last two digits of a number.
fn add_two(bytes: &mut Bytes, number: u32) -> Result<(), Memory>
    ensures { OnOk result (bytes.new ≡ bytes.old ++ digits 2 number) }
{
    bytes.append(&[digit(number, 10), digit(number, 1)])
}

/// The digit of a number at the place of this unit, such as 100 for hundreds.
fn digit(number: u32, unit: u32) -> u8
    requires { 0 < unit }
    ensures { result ≡ number / unit % 10 + 48 }
{
    b'0' + (number / unit % 10) as u8
}
