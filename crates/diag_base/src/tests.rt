//! The list, the shelf and the sink in memory, on their happy paths and at their faults.
use super::*;
use std::test::Fail;

#[test]
fn a_list_of_bytes_grows(rt: HostRuntime) -> Result<(), Fail> {
    let alloc = rt.alloc();
    let mut bytes = Bytes::new(alloc);
    assert!(rt; bytes.is_empty());
    bytes.push(7)?;
    bytes.extend_from_slice(&[8, 9])?;
    assert_eq!(rt; bytes.as_slice(), [7, 8, 9].as_slice());
    let copy = Bytes::from_slice(alloc, bytes.as_slice())?;
    assert_eq!(rt; copy.len(), 3);
    assert_eq!(rt; *copy.get(2), 9);
    Ok(())
}

#[test]
fn a_shelf_fails_where_it_was_told_to(rt: HostRuntime) -> Result<(), Fail> {
    let alloc = rt.alloc();
    let mut shelf = MemShelf::new(alloc);
    shelf.set(alloc, "a", b"one")?;
    shelf.set(alloc, "a", b"four")?;
    shelf.fail_on(2)?;
    assert!(rt; matches!(shelf.fetch(alloc, "a", 3), Ok(Fetched::Longer)));
    match shelf.fetch(alloc, "a", 4) {
        Ok(Fetched::Whole(bytes)) => assert_eq!(rt; bytes.as_slice(), b"four".as_slice()),
        _ => assert!(rt; false),
    }
    assert!(rt; matches!(shelf.fetch(alloc, "a", 4), Err(FetchError::Failed)));
    assert!(rt; matches!(shelf.fetch(alloc, "a", 4), Ok(Fetched::Whole(_))));
    assert!(rt; matches!(shelf.fetch(alloc, "b", 4), Err(FetchError::Failed)));
    Ok(())
}

#[test]
fn a_sink_fails_where_it_was_told_to_and_past_its_room(rt: HostRuntime) -> Result<(), Fail> {
    let mut sink = MemSink::new(rt.alloc(), 8)?;
    sink.fail_on(1, 2)?;
    assert_eq!(rt; sink.put(b"abc"), Ok(()));
    assert_eq!(rt; sink.put(b"def"), Err(PutFailed));
    assert_eq!(rt; sink.put(b"ghi"), Ok(()));
    assert_eq!(rt; sink.put(b""), Ok(()));
    assert_eq!(rt; sink.put(b"jkl"), Err(PutFailed));
    assert_eq!(rt; sink.written(), b"abcdeghi".as_slice());
    Ok(())
}
