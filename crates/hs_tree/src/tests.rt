//! Which keys are asked after which answers, worked by hand.
ghost use Rattle.std.specs.Prelude.{◌≤◌};

use crate::hitting::HsTree;
use req_keys::{Key, Want};
use std::alloc::{AllocError, Global};
use std::process::Abort;

/// Stands only for types that threads may share and hand over.
fn is_shared<T: Send + Sync>() {}

#[test]
fn threads_share_it() {
    is_shared::<HsTree>();
}

/// The tree up to size `most` from the conflict of these positions of n, to which nothing is told.
fn from(
    rt: &impl Abort,
    alloc: Global,
    n: u32,
    first: &[u32],
    most: u32,
) -> Result<HsTree, AllocError>
    requires n { n ≤ 4096 }
    requires most { most ≤ 4096 }
{
    let mut key = Key::empty(alloc, n)?;
    for i in first {
        assert!(rt; 1 <= *i && *i <= key.n());
        key = key.with(*i)?;
    }
    assert!(rt; !key.is_empty());
    HsTree::new(alloc, &key, most)
}

/// The key with these members is asked, and gets this answer.
fn answer(rt: &impl Abort, state: &mut HsTree, asked: &[u32], sat: bool) -> Result<(), AllocError> {
    let Want::Ask(key) = state.want() else {
        rt.abort()
    };
    assert!(rt; key.positions()?.as_slice() == asked);
    state.tell(sat)
}

/// A label is made and used again down to the third level, and a copy in the middle of a label goes on as the state does.
#[test]
fn three_levels_and_a_copy(rt: HostRuntime) -> Result<(), AllocError> {
    let mut first = from(&rt, rt.alloc(), 4, &[1, 2], 3)?;
    answer(&rt, &mut first, &[1, 3, 4], false)?;
    answer(&rt, &mut first, &[1], true)?;
    let mut state = first.copy()?;
    answer(&rt, &mut state, &[1, 3], false)?;
    answer(&rt, &mut state, &[3], true)?;
    answer(&rt, &mut state, &[2, 3, 4], false)?;
    answer(&rt, &mut state, &[2], true)?;
    answer(&rt, &mut state, &[2, 3], true)?;
    answer(&rt, &mut state, &[2, 4], false)?;
    answer(&rt, &mut state, &[4], false)?;
    let Want::Done = state.want() else { rt.abort() };
    assert!(&rt; state.found().len() == 2);
    assert!(&rt; state.found().get(0).positions()?.as_slice() == [1, 4].as_slice());
    assert!(&rt; state.found().get(1).positions()?.as_slice() == [2, 3, 4].as_slice());
    assert!(&rt; first.found().is_empty());
    answer(&rt, &mut first, &[1, 3], false)
}

/// A number that is drawn, below 256. The seed becomes the next one of a linear congruential generator.
fn draw(seed: &mut u32) -> u32 {
    *seed = seed.wrapping_mul(1_664_525).wrapping_add(1_013_904_223);
    *seed >> 24
}

/// The conflicts of a drawn property: a set has it if it has not all of any of them. A set of positions is a mask. Among
/// masks with equally many bits the lower comes first as a diagnosis: position i of n is bit n - i.
fn drawn(alloc: Global, seed: &mut u32, all: u32) -> Result<Vec<u32>, AllocError> {
    let mut conflicts = Vec::new(alloc);
    let count = 3 + draw(seed) % 6;
    for _ in 0..count {
        let mut conflict = draw(seed) & all;
        if draw(seed) < 160 {
            conflict &= draw(seed);
        }
        conflicts.push(conflict.max(1))?;
    }
    Ok(conflicts)
}

/// Whether the set has the property.
fn has_property(conflicts: &[u32], set: u32) -> bool {
    for conflict in conflicts {
        if *conflict & set == *conflict {
            return false;
        }
    }
    true
}

/// Whether the set is a minimal diagnosis: what is left without it has the property, and of no smaller part of it the same
/// is true.
fn is_minimal(conflicts: &[u32], all: u32, set: u32) -> bool {
    if !has_property(conflicts, all & !set) {
        return false;
    }
    for part in 0..set {
        if part & set == part && has_property(conflicts, all & !part) {
            return false;
        }
    }
    true
}

/// Those of this size behind the list.
fn add_of_size(
    listing: &mut Vec<u32>,
    conflicts: &[u32],
    all: u32,
    size: u32,
) -> Result<(), AllocError> {
    for set in 0..256u32 {
        if set & all == set && set.count_ones() == size && is_minimal(conflicts, all, set) {
            listing.push(set)?;
        }
    }
    Ok(())
}

/// The minimal diagnoses of at most `most` positions, each once and in order, by a filter over all sets.
fn filtered(alloc: Global, conflicts: &[u32], all: u32, most: u32) -> Result<Vec<u32>, AllocError> {
    let mut listing = Vec::new(alloc);
    for size in 0..=most {
        add_of_size(&mut listing, conflicts, all, size)?;
    }
    Ok(listing)
}

/// The mask of the key's members.
fn mask_of(key: &Key) -> u32 {
    let mut mask = 0u32;
    for i in 1..=key.n() {
        mask = mask.wrapping_mul(2);
        if key.contains(i) {
            mask |= 1;
        }
    }
    mask
}

/// The key over n positions with those of the mask.
fn key_of(rt: &impl Abort, alloc: Global, n: u32, mask: u32) -> Result<Key, AllocError>
    requires n { n ≤ 8 }
{
    let mut key = Key::empty(alloc, n)?;
    for bit in 0..n {
        let i = n - bit;
        assert!(rt; i <= key.n());
        if mask >> bit & 1 == 1 {
            key = key.with(i)?;
        }
    }
    Ok(key)
}

/// Tells whether the asked set has the property, if one is asked.
fn answer_rightly(state: &mut HsTree, conflicts: &[u32]) -> Result<bool, AllocError> {
    let Want::Ask(key) = state.want() else {
        return Ok(false);
    };
    let sat = has_property(conflicts, mask_of(key));
    state.tell(sat)?;
    Ok(true)
}

/// The tree from the first conflict, told what is right until it is done: at most one answer for each set.
fn driven(
    rt: &impl Abort,
    alloc: Global,
    n: u32,
    conflicts: &[u32],
    most: u32,
) -> Result<HsTree, AllocError>
    requires n { n ≤ 8 }
    requires most { most ≤ 4096 }
{
    assert!(rt; !conflicts.is_empty());
    let first = key_of(rt, alloc, n, conflicts[0])?;
    assert!(rt; !first.is_empty());
    let mut state = HsTree::new(alloc, &first, most)?;
    for _ in 0..=256 {
        if !answer_rightly(&mut state, conflicts)? {
            return Ok(state);
        }
    }
    rt.abort()
}

/// The tree and the filter have the same listing.
fn same(rt: &impl Abort, found: &[Key], listing: &[u32]) {
    assert!(rt; found.len() == listing.len());
    for (key, set) in found.iter().zip(listing) {
        assert!(rt; mask_of(key) == *set);
    }
}

/// Up to each size from 0 to 4 the tree lists what the filter does.
fn sizes(
    rt: &impl Abort,
    alloc: Global,
    n: u32,
    conflicts: &[u32],
    all: u32,
) -> Result<(), AllocError>
    requires n { n ≤ 8 }
{
    for most in 0..5u32 {
        let state = driven(rt, alloc, n, conflicts, most)?;
        let listing = filtered(alloc, conflicts, all, most)?;
        same(rt, state.found().as_slice(), &listing);
    }
    Ok(())
}

/// Two hundred drawn properties of sets of 6 to 8 positions. The first conflict needn't be minimal.
#[test]
fn lists_what_a_filter_lists(rt: HostRuntime) -> Result<(), AllocError> {
    let mut seed = 20_261u32;
    for turn in 0..200u32 {
        let n = 6 + turn % 3;
        let all = 255u32 >> (8 - n);
        let conflicts = drawn(rt.alloc(), &mut seed, all)?;
        sizes(&rt, rt.alloc(), n, &conflicts, all)?;
    }
    Ok(())
}
