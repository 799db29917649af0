//! The state: how many positions there are, the told answers, and what is still to do.
ghost use Rattle.std.specs.Prelude.{◌≡◌, ℕ, ◌≤◌, List, [], ◌∷◌, ◌++◌, IfOk, OnErr, OnOk};
ghost use Rattle.std.specs.List.{range_with_len};
ghost use Rattle.pref_sets.specs.Answers.{Next, Ask, Done, IsAsking, IsDone, IsToldInTurn};
ghost use Rattle.pref_sets.specs.AskedKey.{asked_key};
ghost use Rattle.pref_sets.specs.FastDiag.{fd};
ghost use Rattle.req_keys.specs.Wanting.{key_over, wanted_key};
ghost use Rattle.fast_diag.specs.Diagnosing.{Diagnosing, next_of};

use crate::parts::{Part, with_room};
use lists::Row;
use req_keys::{Key, Want};
use std::alloc::{AllocError, Global};
use std::marker::Model;

/// FastDiag over the positions `1..=n`, of which all together are known to be Unsat, and none to be Sat.
#[derive(Drop)]
pub struct FastDiag {
    n: u32,
    /// The answers so far. Each is on the key that was asked then.
    told: Row<bool>,
    /// What is still to do after them.
    part: Part,
}

impl Model for FastDiag {
    ghost use Rattle.std.specs.Prelude.{[]};
    ghost use Rattle.std.specs.List.{range_with_len};
    ghost use Rattle.pref_sets.specs.FastDiag.{fd};
    ghost use Rattle.pref_sets.specs.Answers.{told_in_turn};
    ghost use Rattle.fast_diag.specs.Diagnosing.{Diagnosing};
    ghost use Rattle.fast_diag.specs.inside.Standing.{Stands};

    ghost Value = { Diagnosing };

    ghost view = { λ a. record { n = a.n; told = told_in_turn (fd (range_with_len 1 a.n)) [] a.told } };

    ghost invariant = { λ a. Stands a.n a.told a.part };
}

impl FastDiag {
    /// The state to which nothing is told yet.
    pub fn new(alloc: Global, n: u32) -> Result<FastDiag, AllocError>
        requires some { 1 ≤ n }
        requires most { n ≤ 4096 }
        ensures { IfOk result (λ state. state ≡ record { n = n; told = [] }) }
    {
        Ok(FastDiag {
            n,
            told: Row::new(alloc),
            part: Part::start(alloc, n)?,
        })
    }

    /// The key whose verdict is wanted: that of the set which FastDiag asks over the told answers. They were told in
    /// turn, so there are at most 2 * n - 2 of them.
    pub fn want(&self) -> Want<'_>
        ensures asks { wanted_key result ≡ asked_key self.now.n (next_of self.now) }
        ensures told { IsToldInTurn (fd (range_with_len 1 self.now.n)) [] self.now.told }
    {
        match &self.part {
            Part::Asks(asking) => Want::Ask(&asking.asked),
            Part::Done(_) => Want::Done,
        }
    }

    /// The state with one more answer, which goes on by itself. What stays is copied once.
    pub fn after(&self, sat: bool) -> Result<FastDiag, AllocError>
        requires { IsAsking (next_of self.now) }
        ensures { (set : List ℕ) → next_of self.now ≡ Ask set → IfOk result (λ state. state ≡ record { n = self.now.n; told = self.now.told ++ record { set = set; sat = sat } ∷ [] }) }
    {
        let Part::Asks(asking) = &self.part else {
            unreachable!()
        };
        let alloc = self.told.allocator();
        let mut told = with_room(alloc, self.told.as_slice())?;
        told.push(sat)?;
        let part = asking.after(alloc, sat)?;
        Ok(FastDiag {
            n: self.n,
            told,
            part,
        })
    }

    /// Appends the answer to the asked key. The next state is made beside this one, which want of memory leaves as it was.
    pub fn tell(&mut self, sat: bool) -> Result<(), AllocError>
        requires { IsAsking (next_of self.old) }
        ensures ok { (set : List ℕ) → next_of self.old ≡ Ask set → OnOk result (self.new ≡ record { n = self.old.n; told = self.old.told ++ record { set = set; sat = sat } ∷ [] }) }
        ensures err { OnErr result (self.new ≡ self.old) }
    {
        let next = self.after(sat)?;
        *self = next;
        Ok(())
    }

    /// An equal state, which goes on by itself.
    pub fn copy(&self) -> Result<FastDiag, AllocError>
        ensures { IfOk result (λ state. state ≡ self.now) }
    {
        let alloc = self.told.allocator();
        Ok(FastDiag {
            n: self.n,
            told: Row::from_slice(alloc, self.told.as_slice())?,
            part: self.part.copy(alloc)?,
        })
    }

    /// What FastDiag keeps.
    pub fn kept(&self) -> &Key
        requires { IsDone (next_of self.now) }
        ensures { (set : List ℕ) → next_of self.now ≡ Done set → result.now ≡ key_over self.now.n set }
    {
        match &self.part {
            Part::Asks(asking) => &asking.kept,
            Part::Done(kept) => kept,
        }
    }
}
