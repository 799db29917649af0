//! Keys of the parts of a certificate.
ghost use Rattle.std.specs.Prelude.{◌≡◌, ◌≤◌, IfOk};
ghost use Rattle.req_keys.specs.Positions.{RiseWithin};
ghost use Rattle.req_keys.specs.Wanting.{key_over};
ghost use Rattle.certificate.specs.Sets.{met_without, refuted_with};

use req_keys::Key;
use std::alloc::{AllocError, Global};

/// The key over so many positions with these members.
pub(crate) fn key_of(alloc: Global, n: u32, numbers: &[u32]) -> Result<Key, AllocError>
    requires most { n ≤ 4096 }
    requires rising { RiseWithin 0 n numbers.now }
    ensures { IfOk result (λ key. key ≡ key_over n numbers.now) }
{
    let mut key = Key::empty(alloc, n)?;
    for number in numbers {
        key = key.with(*number)?;
    }
    Ok(key)
}

/// What is kept before the position, and the position.
pub(crate) fn refuted_key(alloc: Global, kept: &Key, position: u32) -> Result<Key, AllocError>
    requires counted { 1 ≤ position }
    requires within { position ≤ kept.now.n }
    ensures { IfOk result (λ key. key ≡ key_over kept.now.n (refuted_with kept.now.n kept.now.members position)) }
{
    let n = kept.n();
    let behind = Key::range(alloc, n, position - 1, n - (position - 1))?;
    kept.minus(&behind)?.with(position)
}

/// All positions before the member of a conflict, and the members behind it.
pub(crate) fn needed_key(alloc: Global, conflict: &Key, member: u32) -> Result<Key, AllocError>
    requires counted { 1 ≤ member }
    requires within { member ≤ conflict.now.n }
    ensures { IfOk result (λ key. key ≡ key_over conflict.now.n (met_without conflict.now.n conflict.now.members member)) }
{
    let n = conflict.n();
    let before = Key::range(alloc, n, 0, member - 1)?;
    let up_to = Key::range(alloc, n, 0, member)?;
    before.union(&conflict.minus(&up_to)?)
}
