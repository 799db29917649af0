//! The state.
ghost use Rattle.std.specs.Prelude.{◌≡◌, ℕ, ◌<◌, ◌≤◌, None, List, [], ◌∷◌, ◌++◌, map, length, IfOk, OnErr, OnOk};
ghost use Rattle.pref_sets.specs.Answers.{Ask, IsAsking, IsToldInTurn, answer_to};
ghost use Rattle.pref_sets.specs.AskedKey.{asked_key};
ghost use Rattle.req_keys.specs.Key.{IsKey};
ghost use Rattle.req_keys.specs.Wanting.{key_over, wanted_key};
ghost use Rattle.hs_tree.specs.Hitting.{Hitting, found_after, next_after, next_over};

use crate::found::Found;
use crate::levels::{Level, from_level};
use crate::state::{State, go_on};
use lists::Row;
use req_keys::{Key, Keys, Want};
use std::alloc::{AllocError, Global};
use std::marker::Model;

/// The tree of hitting sets, from a conflict that is known from the start. It finds minimal diagnoses.
#[derive(Drop)]
pub struct HsTree {
    first: Key,
    most: u32,
    state: State,
}

impl Model for HsTree {
    ghost use Rattle.hs_tree.specs.Hitting.{Hitting};
    ghost use Rattle.hs_tree.specs.inside.Told.{answers_of};
    ghost use Rattle.hs_tree.specs.inside.Standing.{Stands};

    ghost Value = { Hitting };

    ghost view = { λ a. record { first = a.first; most = a.most; told = answers_of a.state.told } };

    ghost invariant = { λ a. Stands a.first a.most a.state };
}

/// A list of one key.
fn only(alloc: Global, key: Key) -> Result<Keys, AllocError>
    ensures { IfOk result (λ keys. keys ≡ key ∷ []) }
{
    let mut keys = Row::new(alloc);
    keys.push(key)?;
    Ok(keys)
}

impl HsTree {
    /// The state to which nothing is told yet. `first` is the known conflict, and `most` the greatest size of a diagnosis.
    pub fn new(alloc: Global, first: &Key, most: u32) -> Result<HsTree, AllocError>
        requires some { 0 < length first.now.members }
        requires most { most ≤ 4096 }
        ensures { IfOk result (λ state. state ≡ record { first = first.now; most = most; told = [] }) }
    {
        let level = Level {
            n: first.n(),
            sets: only(alloc, Key::empty(alloc, first.n())?)?,
            before: 0,
            left: most,
        };
        let mut found = Found {
            diagnoses: Row::new(alloc),
            conflicts: only(alloc, first.copy()?)?,
            labels: Row::new(alloc),
        };
        let told = Row::new(alloc);
        let place = from_level(alloc, &told, &mut found, level)?;
        let state = State {
            told,
            found,
            level: place.level,
            asking: place.asking,
        };
        Ok(HsTree {
            first: first.copy()?,
            most,
            state,
        })
    }

    /// The key whose verdict is wanted: that of the set which the tree asks over the told answers. They were told in turn,
    /// and no set is asked twice.
    pub fn want(&self) -> Want<'_>
        ensures asks { wanted_key result ≡ asked_key self.now.first.n (next_after self.now) }
        ensures told { IsToldInTurn (next_over self.now.first self.now.most) [] self.now.told }
        ensures new { (set : List ℕ) → next_after self.now ≡ Ask set → answer_to self.now.told set ≡ None }
        ensures first { IsKey self.now.first }
    {
        match &self.state.asking {
            Some(asking) => asking.want(),
            None => Want::Done,
        }
    }

    /// An equal state, which goes on by itself.
    pub fn copy(&self) -> Result<HsTree, AllocError>
        ensures { IfOk result (λ state. state ≡ self.now) }
    {
        let state = self.state.copy()?;
        Ok(HsTree {
            first: self.first.copy()?,
            most: self.most,
            state,
        })
    }

    /// The diagnoses found so far, in their order.
    pub fn found(&self) -> &Keys
        ensures { result.now ≡ map (key_over self.now.first.n) (found_after self.now) }
    {
        &self.state.found.diagnoses
    }

    /// Appends the answer to the asked key. After want of memory the state is as it was.
    pub fn tell(&mut self, sat: bool) -> Result<(), AllocError>
        requires { IsAsking (next_after self.old) }
        ensures ok { (set : List ℕ) → next_after self.old ≡ Ask set → OnOk result (self.new ≡ record { first = self.old.first; most = self.old.most; told = self.old.told ++ record { set = set; sat = sat } ∷ [] }) }
        ensures err { OnErr result (self.new ≡ self.old) }
    {
        go_on(&mut self.state, sat)?;
        Ok(())
    }
}
