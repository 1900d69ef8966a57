ghost use Rattle.std.specs.Prelude.{◌≡◌, [], ◌∷◌, IfOk};
ghost use Rattle.seq_files.specs.Disks.{disks, missing};

use super::*;
use cobol_syntax::Mode;
use data_layout::FileUse;
use std::alloc::Global;
use std::test::Fail;
use y2k_base::{List, Memory};

/// A store of one file with records of three bytes, which isn't there.
fn one_file(alloc: Global) -> Result<Store, Memory>
    ensures { IfOk result (λ store. disks store ≡ missing 3 ∷ []) }
{
    let files = [FileUse {
        external: List::new(alloc),
        name: List::new(alloc),
        length: 3,
        areas: List::new(alloc),
    }];
    Store::new(alloc, &files)
}

#[test]
fn a_missing_file_is_opened_for_output_alone(rt: HostRuntime) -> Result<(), Fail> {
    let mut store = one_file(rt.alloc())?;
    assert_eq!(rt; store.open(0, Mode::Input), Status::S35);
    assert_eq!(rt; store.open(0, Mode::Extend), Status::S35);
    assert!(rt; store.bytes(0).is_none());
    assert_eq!(rt; store.record_length(0), Some(3));
    assert_eq!(rt; store.record_length(1), None);
    assert_eq!(rt; store.open(0, Mode::Output), Status::S00);
    assert_eq!(rt; store.bytes(0), Some(b"".as_slice()));
    Ok(())
}

#[test]
fn an_open_file_is_not_opened_and_a_closed_one_not_closed(rt: HostRuntime) -> Result<(), Fail> {
    let mut store = one_file(rt.alloc())?;
    assert_eq!(rt; store.close(0), Status::S42);
    assert_eq!(rt; store.open(0, Mode::Output), Status::S00);
    assert_eq!(rt; store.open(0, Mode::Output), Status::S41);
    assert_eq!(rt; store.close(0), Status::S00);
    assert_eq!(rt; store.close(0), Status::S42);
    Ok(())
}

#[test]
fn a_read_after_the_end_is_refused(rt: HostRuntime) -> Result<(), Fail> {
    let mut store = one_file(rt.alloc())?;
    let mut row = [b'-'; 3];
    match store.set(0, b"ABC")? {
        Err(left) => assert_eq!(rt; left, 0),
        Ok(()) => {
            assert_eq!(rt; store.read(0, &mut row), Status::S47);
            assert_eq!(rt; store.open(0, Mode::Input), Status::S00);
            assert_eq!(rt; store.read(0, &mut row), Status::S00);
            assert_eq!(rt; row.as_slice(), b"ABC".as_slice());
            assert_eq!(rt; store.read(0, &mut row), Status::S10);
            assert_eq!(rt; row.as_slice(), b"ABC".as_slice());
            assert_eq!(rt; store.read(0, &mut row), Status::S46);
        }
    }
    Ok(())
}

#[test]
fn a_short_record_is_filled_with_spaces(rt: HostRuntime) -> Result<(), Fail> {
    let mut store = one_file(rt.alloc())?;
    assert_eq!(rt; store.write(0, b"A")?, Status::S48);
    assert_eq!(rt; store.open(0, Mode::Output), Status::S00);
    assert_eq!(rt; store.write(0, b"A")?, Status::S00);
    assert_eq!(rt; store.bytes(0), Some(b"A  ".as_slice()));
    Ok(())
}

#[test]
fn records_are_added_behind_those_that_are_there(rt: HostRuntime) -> Result<(), Fail> {
    let mut store = one_file(rt.alloc())?;
    match store.set(0, b"ABC")? {
        Err(left) => assert_eq!(rt; left, 0),
        Ok(()) => {
            assert_eq!(rt; store.open(0, Mode::Extend), Status::S00);
            assert_eq!(rt; store.write(0, b"DEF")?, Status::S00);
            assert_eq!(rt; store.bytes(0), Some(b"ABCDEF".as_slice()));
            store.close_all();
            assert_eq!(rt; store.close(0), Status::S42);
        }
    }
    Ok(())
}

#[test]
fn seven_bytes_leave_one_over_for_records_of_three(rt: HostRuntime) -> Result<(), Fail> {
    let mut store = one_file(rt.alloc())?;
    match store.set(0, b"ABCDEFG")? {
        Err(left) => assert_eq!(rt; left, 1),
        Ok(()) => assert!(rt; false),
    }
    Ok(())
}
