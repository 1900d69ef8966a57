use super::*;
use std::test::Fail;

#[test]
fn the_least_name_in_byte_order_is_named(rt: HostRuntime) -> Result<(), Fail> {
    let alloc = rt.alloc();
    let mut names = Names::new(alloc);
    assert!(rt; names.least().is_none());
    names.add(alloc, b"B")?;
    names.add(alloc, b"AB")?;
    names.add(alloc, b"B")?;
    names.add(alloc, b"A-B")?;
    assert!(rt; names.has(b"AB"));
    assert!(rt; !names.has(b"A"));
    assert!(rt; names.least() == Some(b"A-B".as_slice()));
    Ok(())
}

#[test]
fn a_name_stands_for_what_was_put_last(rt: HostRuntime) -> Result<(), Fail> {
    let alloc = rt.alloc();
    let mut table = NameTable::new(alloc);
    table.put(b"A", 1_u32)?;
    table.put(b"B", 2)?;
    table.put(b"A", 3)?;
    assert!(rt; table.get(b"A") == Some(3));
    assert!(rt; table.get(b"B") == Some(2));
    assert!(rt; table.get(b"C").is_none());
    Ok(())
}
