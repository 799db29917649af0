//! Lists at concrete types, worked by hand.
use crate::row::{Numbers, Row};
use std::alloc::{AllocError, Global};
use std::hash::{DefaultHasher, Hash, Hasher};

/// Stands only for types that threads may share and hand over.
fn is_shared<T: Send + Sync>() {}

#[test]
fn threads_share_them() {
    is_shared::<Numbers>();
    is_shared::<Row<Numbers>>();
    is_shared::<Row<(u32, bool)>>();
}

fn hash_of(numbers: &Numbers) -> u64 {
    let mut state = DefaultHasher::new();
    numbers.hash(&mut state);
    state.finish()
}

#[test]
fn a_list_grows_and_is_cut(rt: HostRuntime) -> Result<(), AllocError> {
    let mut numbers = Numbers::new(rt.alloc());
    assert!(rt; numbers.is_empty());
    numbers.push(7)?;
    numbers.extend_from_slice(&[8, 9])?;
    assert!(rt; numbers.as_slice() == [7, 8, 9].as_slice());
    assert!(rt; numbers.len() == 3 && *numbers.get(2) == 9);
    *numbers.get_mut(0) = 5;
    numbers.truncate(2);
    assert!(rt; numbers == Numbers::from_slice(rt.alloc(), &[5, 8])?);
    assert!(rt; hash_of(&numbers) == hash_of(&Row::from_slice(rt.alloc(), &[5, 8])?));
    Ok(())
}

#[test]
fn lists_of_lists_compare(rt: HostRuntime) -> Result<(), AllocError> {
    let mut a = Row::new(rt.alloc());
    a.push(Numbers::from_slice(rt.alloc(), &[1])?)?;
    a.push(Numbers::new(rt.alloc()))?;
    let mut b = Row::new(rt.alloc());
    b.push(Numbers::from_slice(rt.alloc(), &[1])?)?;
    assert!(rt; a != b);
    b.push(Numbers::from_vec(Vec::new(rt.alloc())))?;
    assert!(rt; a == b);
    Ok(())
}
