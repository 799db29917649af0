//! The told answers.
ghost use Rattle.std.specs.Prelude.{◌≡◌, IfOk};
ghost use Rattle.pref_sets.specs.Answers.{answer_to};
ghost use Rattle.hs_tree.specs.inside.Told.{answers_of, AreToldOver};

use lists::Row;
use req_keys::Key;
use std::alloc::{AllocError, Global};

/// An answer that was told.
#[derive(Drop)]
pub(crate) struct ToldAnswer {
    pub key: Key,
    pub sat: bool,
}

/// The told answers, the first one first.
pub(crate) type Told = Row<ToldAnswer>;

/// The answer on the key, if one was told.
pub(crate) fn answer(told: &Told, key: &Key) -> Option<bool>
    requires { AreToldOver key.now.n told.now }
    ensures { result ≡ answer_to (answers_of told.now) key.now.members }
{
    for answer in told.as_slice() {
        if answer.key == *key {
            return Some(answer.sat);
        }
    }
    None
}

/// A copy of the answers.
pub(crate) fn copied(alloc: Global, told: &Told) -> Result<Told, AllocError>
    ensures { IfOk result (λ copy. copy ≡ told.now) }
{
    let mut copy = Row::new(alloc);
    for answer in told.as_slice() {
        let key = answer.key.copy()?;
        copy.push(ToldAnswer {
            key,
            sat: answer.sat,
        })?;
    }
    Ok(copy)
}
