ghost use Rattle.std.specs.Prelude.{◌≤◌};

use super::*;
use std::alloc::Global;
use std::test::Fail;
use y2k_base::TextRole;

/// Whether the file of so many employees has 20 bytes for each and ends so.
fn ends_so(alloc: Global, number: u32, end: &[u8]) -> Result<bool, Fail>
    requires some { 1 ≤ number }
    requires most { number ≤ 1000000 }
{
    let made = make(alloc, number)?;
    Ok(made.input.len() == 20 * number as usize && made.input.items().ends_with(end))
}

#[test]
fn records_are_those_of_their_numbers(rt: HostRuntime) -> Result<(), Fail> {
    let alloc = rt.alloc();
    assert!(rt; ends_so(alloc, 1, b"000001880101EMPLOYEE")?);
    assert!(rt; ends_so(alloc, 2, b"000001580702EMPLOYEE000002670111EMPLOYEE")?);
    assert!(rt; ends_so(alloc, 100_000, b"100000960422EMPLOYEE")?);
    Ok(())
}

#[test]
fn texts_are_a_copybook_and_two_programs(rt: HostRuntime) -> Result<(), Fail> {
    let alloc = rt.alloc();
    let made = make(alloc, 2)?;
    let [book, selecting, reporting] = made.texts.list.items() else {
        panic!(rt; "there are three texts");
    };
    assert_eq!(rt; book.role, TextRole::Book);
    assert_eq!(rt; book.key.items(), b"EMPREC".as_slice());
    assert_eq!(rt; selecting.name.items(), b"SELECTP.cbl".as_slice());
    assert_eq!(rt; reporting.name.items(), b"REPORTP.cbl".as_slice());
    let seeds = "program,item,kind,digit\nSELECTP,HIRED OF IN-REC,year,1\n";
    assert_eq!(rt; made.seeds.items(), seeds.as_bytes());
    Ok(())
}
