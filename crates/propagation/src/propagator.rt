//! The propagator: watches over a kept trail.
ghost use Rattle.std.specs.Prelude.{◌≡◌, ◌+◌, ◌<◌, ◌≤◌, [], ◌∷◌, ◌++◌, All, Contains, IfOk, IsFalse, IsTrue, OnErr, OnOk, length, not, take, vec_capacity, ℕ};
ghost use Rattle.clauses.specs.Clause.{unit_of};
ghost use Rattle.clauses.specs.Closure.{clash, closure};
ghost use Rattle.clauses.specs.Problem.{IsBelow, IsProblem};
ghost use Rattle.propagation.specs.Propagation.{propagated, value_of};
ghost use Rattle.propagation.specs.Room.{AreDistinctBehind, HasRoom, IsMadeTrue};

use crate::building::begin;
use crate::codes::Code;
use crate::flat::{FlatClauses, FlatProblem};
use crate::levels::{bring_all, learn_in};
use crate::state::{State, brought};
use crate::trail::Trail;
use crate::watches::Watches;
use clauses::{Clause, Clauses, Lit, Problem};
use std::alloc::{AllocError, Global};
use std::marker::Model;
use std::mem;

/// How many literals may be assumed beyond one for each variable: one for each position of a key.
const ROOM_FOR_POSITIONS: usize = 4096;

/// A problem with assumed literals and learned clauses, and what unit propagation makes of them.
#[derive(Drop)]
pub struct Propagator<'a> {
    /// What it is about.
    problem: FlatProblem<'a>,
    /// With room reserved for as many as there may ever be.
    assumed: Vec<Lit>,
    /// In the order in which they were learned.
    learned: Clauses,
    /// The same, in one row.
    flat: FlatClauses,
    /// Whether the clauses with both clash.
    state: State,
    /// The closure, in the order in which its literals came.
    trail: Trail,
    /// How long the trail was before each assumed literal that was brought in.
    marks: Vec<usize>,
    /// How long it is with nothing assumed or learned.
    base: usize,
    /// The watches of the problem's clauses.
    watches: Watches,
    /// Those of the learned ones.
    learned_watches: Watches,
}

impl<'a> Model for Propagator<'a> {
    ghost use Rattle.std.specs.Prelude.{vec_capacity};
    ghost use Rattle.propagation.specs.Propagation.{Propagation};

    ghost Value = { Propagation };

    ghost use Rattle.propagation.specs.inside.UpToDate.{IsUpToDate};

    ghost view = { λ a. record { problem = a.problem; assumed = a.assumed.items; learned = a.learned } };

    ghost invariant = { λ a. IsUpToDate (record { problem = a.problem; assumed = a.assumed.items; learned = a.learned }) a.flat a.trail a.watches a.learned_watches a.marks.items a.base a.state (vec_capacity a.assumed) (vec_capacity a.marks) };
}

/// Appends the clause to both lists, or after want of memory to none.
fn keep(learned: &mut Clauses, flat: &mut FlatClauses, clause: &[Lit]) -> Result<(), AllocError>
    requires below { All (IsBelow 1000000) clause.now }
    ensures learned { OnOk result (learned.new ≡ learned.old ++ clause.now ∷ []) }
    ensures flat { OnOk result (flat.new ≡ flat.old ++ clause.now ∷ []) }
    ensures learned_err { OnErr result (learned.new ≡ learned.old) }
    ensures flat_err { OnErr result (flat.new ≡ flat.old) }
{
    let copy = Clause::from_slice(learned.allocator(), clause)?;
    let before = learned.len();
    learned.push(copy)?;
    if let Err(error) = flat.push(clause) {
        learned.truncate(before);
        return Err(error);
    }
    Ok(())
}

impl<'a> Propagator<'a> {
    /// Nothing assumed and nothing learned. Room is reserved for 4,096 assumed literals more than there are variables.
    pub fn new(alloc: Global, problem: &'a Problem) -> Result<Propagator<'a>, AllocError>
        ensures problem { IfOk result (λ made. made.problem ≡ problem.now) }
        ensures assumed { IfOk result (λ made. made.assumed ≡ []) }
        ensures learned { IfOk result (λ made. made.learned ≡ []) }
    {
        let variables = problem.variables as usize;
        let assumed = Vec::with_capacity(alloc, variables + ROOM_FOR_POSITIONS)?;
        let marks = Vec::with_capacity(alloc, variables + ROOM_FOR_POSITIONS)?;
        let learned = Clauses::new(alloc);
        let flat = FlatClauses::new(alloc);
        let problem = FlatProblem::new(alloc, problem)?;
        let mut trail = Trail::new(alloc, variables)?;
        let mut watches = Watches::new(alloc, variables)?;
        let mut learned_watches = Watches::new(alloc, variables)?;
        let state = begin(
            &problem,
            &flat,
            &mut watches,
            &mut learned_watches,
            &mut trail,
        )?;
        let base = trail.len();
        Ok(Propagator {
            problem,
            assumed,
            learned,
            flat,
            state,
            trail,
            marks,
            base,
            watches,
            learned_watches,
        })
    }

    /// Appends the literal to the assumed ones, and answers whether nothing clashes.
    pub fn assume(&mut self, lit: Lit) -> bool
        requires no_clash { IsFalse (clash (propagated self.old)) }
        requires variable { IsBelow self.old.problem.variables lit }
        requires few { length self.old.assumed < self.old.problem.variables + 4096 }
        ensures assumed { self.new ≡ record self.old { assumed = self.old.assumed ++ lit ∷ [] } }
        ensures no_clash { result ≡ not (clash (propagated self.new)) }
    {
        self.assumed.push_reserved(lit);
        let fits = bring_all(
            &self.problem,
            &self.flat,
            &mut self.watches,
            &mut self.learned_watches,
            &mut self.trail,
            &mut self.marks,
            self.assumed.as_slice(),
            self.base,
        );
        self.state = brought(fits);
        fits
    }

    /// Sees to it that the literal is true, and answers whether nothing clashes. It is assumed unless its variable has a
    /// value already.
    pub fn make_true(&mut self, literal: Lit) -> bool
        requires no_clash { IsFalse (clash (propagated self.old)) }
        requires variable { IsBelow self.old.problem.variables literal }
        requires room { HasRoom self.old }
        ensures assumed { IsMadeTrue self.old literal self.new }
        ensures distinct { (count : ℕ) → AreDistinctBehind count self.old → AreDistinctBehind count self.new }
        ensures closed { IsTrue result → Contains (closure (propagated self.new)) literal }
        ensures no_clash { IsTrue result → IsFalse (clash (propagated self.new)) }
        ensures clash { IsFalse result → IsTrue (clash (propagated self.old ++ unit_of literal ∷ [])) }
    {
        match self.trail.value(literal.var) {
            Some(value) => value == literal.positive,
            None => self.assume(literal),
        }
    }

    /// Keeps the first `count` assumed literals.
    pub fn back_to(&mut self, count: u32)
        requires { count ≤ length self.old.assumed }
        ensures { self.new ≡ record self.old { assumed = take count self.old.assumed } }
    {
        let count = count as usize;
        if count >= self.marks.len() {
            self.assumed.truncate(count);
            return;
        }
        self.trail.cut(self.marks[count]);
        self.marks.truncate(count);
        self.assumed.truncate(count);
        self.state = State::Rests;
    }

    /// Nothing is assumed or learned any more. What was reserved stays so.
    pub fn forget(&mut self)
        ensures { self.new ≡ record self.old { assumed = []; learned = [] } }
    {
        let _learned = self.take_learned();
    }

    /// Hands out the learned clauses, in their order. Nothing is assumed or learned any more.
    pub fn take_learned(&mut self) -> Clauses
        ensures learned { result ≡ self.old.learned }
        ensures forgotten { self.new ≡ record self.old { assumed = []; learned = [] } }
    {
        let none = Clauses::new(*self.assumed.allocator());
        let learned = mem::replace(&mut self.learned, none);
        self.assumed.clear();
        self.marks.clear();
        self.learned_watches.clear();
        self.flat.clear();
        if self.state.is_dead() {
            return learned;
        }
        self.trail.cut(self.base);
        self.state = State::Rests;
        learned
    }

    /// Appends the clause to the learned ones, and answers whether nothing clashes.
    pub fn learn(&mut self, clause: &[Lit]) -> Result<bool, AllocError>
        requires { All (IsBelow self.old.problem.variables) clause.now }
        ensures ok { OnOk result (self.new ≡ record self.old { learned = self.old.learned ++ clause.now ∷ [] }) }
        ensures no_clash { IfOk result (λ no_clash. no_clash ≡ not (clash (propagated self.new))) }
        ensures err { OnErr result (self.new ≡ self.old) }
    {
        self.learned_watches.reserve()?;
        keep(&mut self.learned, &mut self.flat, clause)?;
        let last = self.flat.get(self.flat.len() - 1);
        self.state = learn_in(
            &self.problem,
            &self.flat,
            &mut self.watches,
            &mut self.learned_watches,
            &mut self.trail,
            &mut self.marks,
            self.assumed.as_slice(),
            self.base,
            last,
            self.state,
        );
        Ok(self.state.is_rest())
    }

    /// Whether the clauses, the learned ones and the assumed literals clash.
    pub fn clashes(&self) -> bool
        ensures { result ≡ clash (propagated self.now) }
    {
        !self.state.is_rest()
    }

    /// Whether the clauses, the learned ones and the first `count` assumed literals clash.
    pub fn clashes_within(&self, count: u32) -> bool
        requires { count ≤ length self.now.assumed }
        ensures { result ≡ clash (propagated (record self.now { assumed = take count self.now.assumed })) }
    {
        if (count as usize) < self.marks.len() {
            return false;
        }
        !self.state.is_rest()
    }

    /// The value that the closure gives the variable, if any.
    pub fn value(&self, var: u32) -> Option<bool>
        requires no_clash { IsFalse (clash (propagated self.now)) }
        requires variable { var < self.now.problem.variables }
        ensures { result ≡ value_of (propagated self.now) var }
    {
        self.trail.value(var)
    }

    /// What it is about.
    pub fn problem(&self) -> &'a Problem
        ensures problem { result.now ≡ self.now.problem }
        ensures lawful { IsProblem self.now.problem }
    {
        self.problem.about()
    }

    /// The literals that are assumed, in their order.
    pub fn assumed(&self) -> &[Lit]
        ensures { result.now ≡ self.now.assumed }
    {
        self.assumed.as_slice()
    }

    /// The learned clauses so far, in their order.
    pub fn learned(&self) -> &Clauses
        ensures { result.now ≡ self.now.learned }
    {
        &self.learned
    }

    /// The learned clauses, in their order.
    pub fn into_learned(self) -> Clauses
        ensures { result ≡ self.entry.learned }
    {
        self.learned
    }
}
