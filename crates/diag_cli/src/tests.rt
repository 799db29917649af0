//! The two adapters, on real files and a writer of four bytes.
use crate::file_shelf::FileShelf;
use crate::out_sink::OutSink;
use diag_base::{FetchError, Fetched, PutFailed, Shelf, Sink};
use std::alloc::{AllocError, Global};
use std::fs;
use std::test::Fail;

const NAME: &str = "ten_thousand_bytes_for_a_test";

/// Ten thousand bytes, of which neighbours differ and no two blocks of 4,096 are alike.
fn many_bytes(alloc: Global) -> Result<Vec<u8>, AllocError> {
    let mut bytes = Vec::new(alloc);
    for number in 0..10_000_u32 {
        bytes.push((number * 7 % 251) as u8)?;
    }
    Ok(bytes)
}

#[test]
fn a_file_is_fetched_up_to_its_most(rt: HostRuntime) -> Result<(), Fail> {
    let alloc = rt.alloc();
    let all = many_bytes(alloc)?;
    fs::write(&rt, NAME, all.as_slice())?;
    let mut shelf = FileShelf::new(rt);
    for most in [10_000, 10_001] {
        match shelf.fetch(alloc, NAME, most) {
            Ok(Fetched::Whole(bytes)) => {
                assert_eq!(rt; bytes.as_slice(), all.as_slice());
            }
            _ => assert!(rt; false),
        }
    }
    assert!(rt; matches!(shelf.fetch(alloc, NAME, 9_999), Ok(Fetched::Longer)));
    fs::remove_file(&rt, NAME)?;
    assert!(rt; matches!(shelf.fetch(alloc, NAME, 10_000), Err(FetchError::Failed)));
    Ok(())
}

#[test]
fn a_full_writer_is_a_fault(rt: HostRuntime) -> Result<(), Fail> {
    let mut room = [0; 4];
    let mut sink = OutSink::new(room.as_mut_slice());
    assert_eq!(rt; sink.put(b"abc"), Ok(()));
    assert_eq!(rt; sink.put(b"def"), Err(PutFailed));
    assert_eq!(rt; room, *b"abcd");
    Ok(())
}
