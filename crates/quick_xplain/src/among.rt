//! The start set, with its members by their places.
ghost use Rattle.std.specs.Prelude.{◌≡◌, ◌<◌, length, take, slice_get, Some, IfOk};
ghost use Rattle.req_keys.specs.Key.{IsKey};
ghost use Rattle.req_keys.specs.Wanting.{key_over};

use lists::Numbers;
use req_keys::Key;
use std::alloc::{AllocError, Global};
use std::marker::Model;

/// The start set. A place counts the members from 0.
#[derive(Drop)]
pub(crate) struct Among {
    set: Key,
    /// The member at each place.
    members: Numbers,
}

impl Model for Among {
    ghost use Rattle.std.specs.Prelude.{◌≡◌};
    ghost use Rattle.req_keys.specs.Key.{PositionSet};

    ghost Value = { PositionSet };

    ghost view = { λ a. a.set };

    ghost invariant = { λ a. a.members ≡ a.set.members };
}

impl Among {
    /// The set with the key's members.
    pub fn new(key: &Key) -> Result<Among, AllocError>
        ensures { IfOk result (λ among. among ≡ key.now) }
    {
        Ok(Among {
            set: key.copy()?,
            members: key.positions()?,
        })
    }

    /// The number of positions that the set is of.
    pub fn n(&self) -> u32
        ensures n { result ≡ self.now.n }
        ensures key { IsKey self.now }
    {
        self.set.n()
    }

    /// The number of members.
    pub fn len(&self) -> u32
        ensures { result ≡ length self.now.members }
    {
        self.set.len()
    }

    /// The member at the place.
    pub fn at(&self, place: u32) -> u32
        requires { place < length self.now.members }
        ensures { slice_get self.now.members place ≡ Some result }
    {
        *self.members.get(place as usize)
    }

    /// The members below the one at the place.
    pub fn below(&self, alloc: Global, place: u32) -> Result<Key, AllocError>
        requires { place < length self.now.members }
        ensures { IfOk result (λ key. key ≡ key_over self.now.n (take place self.now.members)) }
    {
        let n = self.set.n();
        let before = self.at(place) - 1;
        let others = Key::range(alloc, n, before, n - before)?;
        self.set.minus(&others)
    }
}
