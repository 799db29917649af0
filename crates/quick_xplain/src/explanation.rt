//! The state: the start set, the told answers, and what is still to do.
ghost use Rattle.std.specs.Prelude.{◌≡◌, ℕ, ◌-◌, ◌*◌, ◌<◌, ◌≤◌, None, List, [], ◌∷◌, ◌++◌, length, IfOk, OnErr, OnOk};
ghost use Rattle.pref_sets.specs.Answers.{Next, Ask, Done, IsAsking, IsDone, IsToldInTurn, answer_to};
ghost use Rattle.pref_sets.specs.AskedKey.{asked_key};
ghost use Rattle.pref_sets.specs.QuickXplain.{qx};
ghost use Rattle.req_keys.specs.Key.{IsKey};
ghost use Rattle.req_keys.specs.Wanting.{key_over, wanted_key};
ghost use Rattle.quick_xplain.specs.Explaining.{Explaining, next_of};

use crate::among::Among;
use crate::parts::{Part, with_room};
use lists::Row;
use req_keys::{Key, Want};
use std::alloc::{AllocError, Global};
use std::marker::Model;
use std::sync::Arc;

/// QuickXplain over a start set of positions, of which all together are known to be Unsat, and none to be Sat.
#[derive(Drop)]
pub struct QuickXplain {
    /// The start set, which copies share.
    among: Arc<Among>,
    /// The answers so far. Each is on the key that was asked then.
    told: Row<bool>,
    /// What is still to do after them.
    part: Part,
}

impl Model for QuickXplain {
    ghost use Rattle.std.specs.Prelude.{[]};
    ghost use Rattle.std.specs.Arc.{arc_value};
    ghost use Rattle.pref_sets.specs.QuickXplain.{qx};
    ghost use Rattle.pref_sets.specs.Answers.{told_in_turn};
    ghost use Rattle.quick_xplain.specs.Explaining.{Explaining};
    ghost use Rattle.quick_xplain.specs.inside.Standing.{Stands};

    ghost Value = { Explaining };

    ghost view = { λ a. record { among = arc_value a.among; told = told_in_turn (qx (arc_value a.among).members) [] a.told } };

    ghost invariant = { λ a. Stands (arc_value a.among) a.told a.part };
}

impl QuickXplain {
    /// The state to which nothing is told yet.
    pub fn new(alloc: Global, among: &Key) -> Result<QuickXplain, AllocError>
        requires { 0 < length among.now.members }
        ensures { IfOk result (λ state. state ≡ record { among = among.now; told = [] }) }
    {
        let among = Among::new(among)?;
        let part = Part::start(alloc, &among)?;
        Ok(QuickXplain {
            among: Arc::new(alloc, among)?,
            told: Row::new(alloc),
            part,
        })
    }

    /// The key whose verdict is wanted: that of the set which QuickXplain asks over the told answers. They were told in
    /// turn. No set is asked twice, and of m members at most 2 * m - 2 sets are asked.
    pub fn want(&self) -> Want<'_>
        ensures asks { wanted_key result ≡ asked_key self.now.among.n (next_of self.now) }
        ensures told { IsToldInTurn (qx self.now.among.members) [] self.now.told }
        ensures new { (set : List ℕ) → next_of self.now ≡ Ask set → answer_to self.now.told set ≡ None }
        ensures few { length self.now.told ≤ 2 * length self.now.among.members - 2 }
        ensures among { IsKey self.now.among }
    {
        match &self.part {
            Part::Asks(asking) => Want::Ask(&asking.asked),
            Part::Done(_) => Want::Done,
        }
    }

    /// The state with one more answer, which goes on by itself. It shares the start set, and what else stays is copied once.
    pub fn after(&self, sat: bool) -> Result<QuickXplain, AllocError>
        requires { IsAsking (next_of self.now) }
        ensures { (set : List ℕ) → next_of self.now ≡ Ask set → IfOk result (λ state. state ≡ record { among = self.now.among; told = self.now.told ++ record { set = set; sat = sat } ∷ [] }) }
    {
        let Part::Asks(asking) = &self.part else {
            unreachable!()
        };
        let alloc = self.told.allocator();
        let mut told = with_room(alloc, self.told.as_slice())?;
        told.push(sat)?;
        let part = asking.after(alloc, &self.among, sat)?;
        let among = Arc::try_clone(&self.among)?;
        Ok(QuickXplain { among, told, part })
    }

    /// Appends the answer to the asked key. The next state is made beside this one, which want of memory leaves as it was.
    pub fn tell(&mut self, sat: bool) -> Result<(), AllocError>
        requires { IsAsking (next_of self.old) }
        ensures ok { (set : List ℕ) → next_of self.old ≡ Ask set → OnOk result (self.new ≡ record { among = self.old.among; told = self.old.told ++ record { set = set; sat = sat } ∷ [] }) }
        ensures err { OnErr result (self.new ≡ self.old) }
    {
        let next = self.after(sat)?;
        *self = next;
        Ok(())
    }

    /// An equal state, which goes on by itself. It shares the start set.
    pub fn copy(&self) -> Result<QuickXplain, AllocError>
        ensures { IfOk result (λ state. state ≡ self.now) }
    {
        let alloc = self.told.allocator();
        Ok(QuickXplain {
            among: Arc::try_clone(&self.among)?,
            told: Row::from_slice(alloc, self.told.as_slice())?,
            part: self.part.copy(alloc)?,
        })
    }

    /// QuickXplain's conflict.
    pub fn conflict(&self) -> &Key
        requires { IsDone (next_of self.now) }
        ensures { (set : List ℕ) → next_of self.now ≡ Done set → result.now ≡ key_over self.now.among.n set }
    {
        match &self.part {
            Part::Asks(asking) => &asking.conflict,
            Part::Done(conflict) => conflict,
        }
    }
}
