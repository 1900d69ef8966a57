use crate::data_line::{data_line, data_status};
use data_conversion::DataFault;
use std::alloc::Global;
use std::test::Fail;
use y2k_base::{Bytes, List, Memory};

fn bytes(alloc: Global, text: &[u8]) -> Result<Bytes, Memory> {
    let mut bytes = List::new(alloc);
    bytes.append(text)?;
    Ok(bytes)
}

#[test]
fn a_record_that_is_not_tame_is_named_with_its_bytes(rt: HostRuntime) -> Result<(), Fail> {
    let alloc = rt.alloc();
    let fault = DataFault::Untame {
        external: bytes(alloc, b"EMPIN")?,
        row: 3,
        offset: 6,
        bytes: bytes(alloc, b"9 ")?,
    };
    assert_eq!(rt; data_status(&fault), 5);
    let line = data_line(alloc, &fault)?;
    assert_eq!(rt;
        line.items(),
        b"data Untame EMPIN record 3 offset 6 bytes 3920\n".as_slice()
    );
    Ok(())
}

#[test]
fn bytes_that_are_left_over_and_files_that_are_too_large_are_named(
    rt: HostRuntime,
) -> Result<(), Fail> {
    let alloc = rt.alloc();
    let left = DataFault::PartialRecord {
        external: bytes(alloc, b"EMPIN")?,
        left: 1,
    };
    assert_eq!(rt; data_status(&left), 5);
    let line = data_line(alloc, &left)?;
    assert_eq!(rt;
        line.items(),
        b"data PartialRecord EMPIN left 1\n".as_slice()
    );
    let large = DataFault::TooLarge(bytes(alloc, b"empin.dat")?);
    assert_eq!(rt; data_status(&large), 3);
    let line = data_line(alloc, &large)?;
    assert_eq!(rt; line.items(), b"refused TooLarge empin.dat\n".as_slice());
    Ok(())
}
