use crate::{FolderShelf, MemoryShelf, MemorySink, Shelf, ShelfErr, Sink, StdSink};
use std::test::Fail;
use std::{env, fs, process};

#[test]
fn a_shelf_in_memory_fails_at_the_call_that_is_made_to_fail(rt: HostRuntime) -> Result<(), Fail> {
    for (call, left) in [(1, 2), (2, 0), (3, 2), (4, 2)] {
        let mut shelf = MemoryShelf::new(rt.alloc())?;
        shelf.put("A", b"ab")?;
        shelf.fail_on(call)?;
        let mut into = [0u8; 4];
        let failed = [
            shelf.create("B").is_err(),
            shelf.append("B", b"cd").is_err(),
            shelf.size("B").is_err(),
            shelf.read("A", 1, &mut into).is_err(),
        ];
        assert_eq!(rt; failed, [call == 1, call == 2, call == 3, call == 4]);
        assert_eq!(rt; shelf.size("B"), Ok(Some(left)));
    }
    Ok(())
}

#[test]
fn a_sink_in_memory_takes_all_but_the_call_that_is_made_to_fail(
    rt: HostRuntime,
) -> Result<(), Fail> {
    for (call, left) in [(1, "cdef"), (2, "abef"), (3, "abcd"), (4, "abcdef")] {
        let mut sink = MemorySink::new(rt.alloc())?;
        sink.fail_on(call)?;
        let failed = [
            sink.put(b"ab").is_err(),
            sink.put(b"cd").is_err(),
            sink.put(b"ef").is_err(),
        ];
        assert_eq!(rt; failed, [call == 1, call == 2, call == 3]);
        assert_eq!(rt; sink.bytes(), left.as_bytes());
    }
    Ok(())
}

#[test]
fn standard_output_takes_pieces(rt: HostRuntime) {
    let mut sink = StdSink::new(&rt);
    assert!(rt; sink.put(b"one ").is_ok());
    assert!(rt; sink.put(b"two\n").is_ok());
}

#[test]
fn a_folder_holds_what_is_created_and_appended(rt: HostRuntime) -> Result<(), Fail> {
    let base = env::temp_dir(&rt)?;
    let base = base.as_str();
    let id = process::id(rt.process());
    let folder = format!(in rt.alloc(); "{base}/annodomini-shelf-{id}")?;
    let made = folder.clone()?;
    let mut shelf = FolderShelf::new(&rt, folder);
    let name = "new/data/in.dat";
    assert!(rt; is_missing(&mut shelf, name));
    assert!(rt; shelf.create(name).is_ok());
    assert!(rt; holds(&mut shelf, name, b""));
    assert!(rt; shelf.append(name, b"abc").is_ok());
    assert!(rt; shelf.append(name, b"defgh").is_ok());
    assert!(rt; holds(&mut shelf, name, b"abcdefgh"));
    assert!(rt; gives_at_places(&mut shelf, name));
    assert!(rt; shelf.append("new/./data/in.dat", b"ij").is_ok());
    assert!(rt; holds(&mut shelf, name, b"abcdefghij"));
    assert!(rt; shelf.create("new//data/in.dat").is_ok());
    assert!(rt; holds(&mut shelf, name, b""));
    assert!(rt; shelf.append(name, b"xy").is_ok());
    assert!(rt; fails(&mut shelf, "new/data"));
    assert!(rt; fails(&mut shelf, "new/data/in.dat/below"));
    assert!(rt; holds(&mut shelf, name, b"xy"));
    fs::remove_dir_all(&rt, made.as_str())?;
    Ok(())
}

fn is_missing(shelf: &mut impl Shelf, name: &str) -> bool {
    shelf.size(name) == Ok(None) && gives(shelf, name, 0, 4, b"")
}

/// Whether the file has these bytes, by its size and read in order three at a time.
fn holds(shelf: &mut impl Shelf, name: &str, bytes: &[u8]) -> bool {
    let mut at = 0u64;
    for piece in bytes.chunks(3) {
        if !gives(shelf, name, at, 3, piece) {
            return false;
        }
        at = at.saturating_add(3);
    }
    gives(shelf, name, bytes.len() as u64, 3, b"")
        && shelf.size(name) == Ok(Some(bytes.len() as u64))
}

/// Reads the file of the bytes `abcdefgh` at places, the last of them past its end.
fn gives_at_places(shelf: &mut impl Shelf, name: &str) -> bool {
    gives(shelf, name, 2, 5, b"cdefg")
        && gives(shelf, name, 1, 0, b"")
        && gives(shelf, name, 6, 5, b"gh")
        && gives(shelf, name, 9, 4, b"")
        && gives(shelf, name, u64::MAX, 4, b"")
}

/// Whether a read with that room, of at most eight bytes, gives these.
fn gives(shelf: &mut impl Shelf, name: &str, at: u64, room: usize, want: &[u8]) -> bool {
    let mut buffer = [0u8; 8];
    let into = &mut buffer[..room.min(8)];
    match shelf.read(name, at, into) {
        Ok(count) => &into[..count] == want,
        Err(_) => false,
    }
}

/// Whether each call on that name fails.
fn fails(shelf: &mut impl Shelf, name: &str) -> bool {
    let mut into = [0u8; 4];
    shelf.size(name) == Err(ShelfErr::Failed)
        && shelf.read(name, 0, &mut into) == Err(ShelfErr::Failed)
        && shelf.create(name) == Err(ShelfErr::Failed)
        && shelf.append(name, b"z") == Err(ShelfErr::Failed)
}
