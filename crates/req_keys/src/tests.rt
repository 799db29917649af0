//! Keys on their happy paths, worked by hand.
ghost use Rattle.std.specs.Prelude.{◌≤◌};

use crate::key::Key;
use crate::key_lists::Keys;
use crate::verdict::{Cell, Verdict, Want};
use lists::Numbers;
use std::alloc::{AllocError, Global};
use std::cmp::Ordering;
use std::hash::{DefaultHasher, Hash, Hasher};
use std::process::Abort;

/// Stands only for types that threads may share and hand over.
fn is_shared<T: Send + Sync>() {}

#[test]
fn threads_share_them() {
    is_shared::<Key>();
    is_shared::<Keys>();
    is_shared::<Numbers>();
    is_shared::<Verdict>();
    is_shared::<Cell>();
    is_shared::<Want<'static>>();
}

fn hash_of(key: &Key) -> u64 {
    let mut state = DefaultHasher::new();
    key.hash(&mut state);
    state.finish()
}

#[test]
fn keys_of_three_positions(rt: HostRuntime) -> Result<(), AllocError> {
    let key = Key::from_words(rt.alloc(), 3, &[5])?;
    assert!(rt; key.positions()?.as_slice() == [1, 3].as_slice());
    assert!(rt; key.word(0) == 5);
    let all = Key::full(rt.alloc(), 3)?;
    let two = Key::empty(rt.alloc(), 3)?.with(2)?;
    assert!(rt; key.with(2)? == all);
    assert!(rt; key.union(&two)? == all);
    assert!(rt; key.copy()? == key);
    Ok(())
}

#[test]
fn keys_compared(rt: HostRuntime) -> Result<(), AllocError> {
    let key = Key::from_words(rt.alloc(), 3, &[5])?;
    let one = Key::from_words(rt.alloc(), 3, &[1])?;
    let two = Key::from_words(rt.alloc(), 3, &[2])?;
    assert!(rt; key.minus(&one)?.positions()?.as_slice() == [3].as_slice());
    assert!(rt; one.is_subset(&key) && !key.is_subset(&one));
    assert!(rt; key.is_disjoint(&two) && !key.is_disjoint(&one));
    assert!(rt; two.cmp(&one) == Ordering::Less);
    assert!(rt; hash_of(&key.copy()?) == hash_of(&key));
    Ok(())
}

/// The full key over n positions, its words, and the key with its last position alone.
fn check_words(
    rt: &impl Abort,
    alloc: Global,
    n: u32,
    words: &[u64],
    last: &[u64],
) -> Result<(), AllocError>
    requires { n ≤ 4096 }
{
    let full = Key::full(alloc, n)?;
    assert!(rt; full.len() == n && full.n() == n);
    assert!(rt; words.len() == ((n + 63) / 64) as usize);
    for (j, word) in words.iter().enumerate() {
        assert!(rt; j < 64 && (j as u32) < (n + 63) / 64);
        assert!(rt; full.word(j as u32) == *word, "word {j} of {n}");
    }
    if n == 0 {
        return Ok(());
    }
    let key = Key::empty(alloc, n)?.with(n)?;
    assert!(rt; key.contains(n) && !key.contains(n - 1) && key.len() == 1);
    assert!(rt; key.positions()?.as_slice() == [n].as_slice());
    for (j, word) in last.iter().enumerate() {
        assert!(rt; j < 64 && (j as u32) < (n + 63) / 64);
        assert!(rt; key.word(j as u32) == *word, "word {j} of the last of {n}");
    }
    Ok(())
}

#[test]
fn words_at_the_edges(rt: HostRuntime) -> Result<(), AllocError> {
    let all = u64::MAX;
    let top = 1u64 << 63;
    check_words(&rt, rt.alloc(), 0, &[], &[])?;
    check_words(&rt, rt.alloc(), 1, &[1], &[1])?;
    check_words(&rt, rt.alloc(), 63, &[all >> 1], &[1u64 << 62])?;
    check_words(&rt, rt.alloc(), 64, &[all], &[top])?;
    check_words(&rt, rt.alloc(), 65, &[all, 1], &[0, 1])?;
    check_words(&rt, rt.alloc(), 128, &[all, all], &[0, top])?;
    check_words(&rt, rt.alloc(), 4096, &[u64::MAX; 64], &[0; 63])
}

#[test]
fn lists_grow(rt: HostRuntime) -> Result<(), AllocError> {
    let mut numbers = Numbers::new(rt.alloc());
    numbers.push(7)?;
    assert!(rt; numbers.len() == 1 && *numbers.get(0) == 7);
    let mut keys = Keys::new(rt.alloc());
    assert!(rt; keys.is_empty());
    keys.push(Key::full(rt.alloc(), 2)?)?;
    assert!(rt; keys.len() == 1 && keys.get(0).len() == 2);
    Ok(())
}
