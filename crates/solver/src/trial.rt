//! Trying which decisions clash together.
ghost use Rattle.std.specs.Prelude.{◌≡◌, ◌<◌, ◌≤◌, ℕ, [], ◌∷◌, ◌++◌, Contains, IfOk, IsFalse, IsTrue, OnErr, OnOk, All, length, map, not, take};
ghost use Rattle.pref_sets.specs.Preferred.{IsWithin};
ghost use Rattle.clauses.specs.Clause.{literal_with};
ghost use Rattle.clauses.specs.Closure.{clash, closure};
ghost use Rattle.clauses.specs.Problem.{IsBelow, IsProblem};
ghost use Rattle.propagation.specs.Propagation.{value_of};
ghost use Rattle.solver.specs.inside.Trials.{Clashes, HasStarted, SameButTried, variables_in, with_tried};

use clauses::{Clauses, Lit, Problem};
use pref_sets::MonotoneTest;
use propagation::{Propagator, assume_roots};
use req_keys::Key;
use std::alloc::{AllocError, Global};
use std::marker::Model;

/// The literal that says that the variable has this value.
fn literal_with(value: bool, variable: u32) -> Lit
    ensures { result ≡ literal_with value variable }
{
    Lit {
        var: variable,
        positive: value,
    }
}

/// How many of the literals, from the first on, have variables that stand among the numbers in their order.
fn common(tried: &[Lit], numbers: &[u32]) -> usize
    ensures most { result ≤ length tried.now }
    ensures within { IsWithin (take result (map (λ literal. literal.var) tried.now)) numbers.now }
    ensures whole { result ≡ length numbers.now → numbers.now ≡ take result (map (λ literal. literal.var) tried.now) }
{
    let mut kept = 0;
    for number in numbers {
        if kept < tried.len() && tried[kept].var == *number {
            kept += 1;
        }
    }
    kept
}

/// A propagator whose first assumed literals stay; behind them variables are tried at the first value.
#[derive(Drop)]
pub(crate) struct Trial<'a> {
    /// What is searched.
    problem: &'a Problem,
    /// What is assumed and learned.
    propagator: Propagator<'a>,
    /// How many of the assumed literals stay.
    fixed: u32,
    /// The value at which variables are tried.
    first: bool,
}

impl<'a> Model for Trial<'a> {
    ghost use Rattle.std.specs.Prelude.{take};
    ghost use Rattle.solver.specs.inside.Trials.{IsTrial, Trying, tried_of};

    ghost Value = { Trying };

    ghost view = { λ a. record { problem = a.problem.now; learned = a.propagator.learned; fixed = take a.fixed a.propagator.assumed; tried = tried_of a.propagator a.fixed; first = a.first } };

    ghost invariant = { λ a. IsTrial a.problem.now a.first a.propagator a.fixed };
}

impl<'a> Trial<'a> {
    /// Nothing is assumed or learned.
    pub fn new(alloc: Global, problem: &'a Problem) -> Result<Trial<'a>, AllocError>
        ensures problem { IfOk result (λ made. made.problem ≡ problem.now) }
        ensures learned { IfOk result (λ made. made.learned ≡ []) }
    {
        let propagator = Propagator::new(alloc, problem)?;
        let lawful = propagator.problem();
        Ok(Trial {
            problem: lawful,
            propagator,
            fixed: 0,
            first: false,
        })
    }

    /// Begins anew: what is learned is forgotten, and the roots of the key are assumed and stay. False where they clash
    /// with the clauses.
    pub fn begin(&mut self, key: &Key, first: bool) -> Result<bool, AllocError>
        requires { key.now.n ≡ length self.old.problem.roots }
        ensures started { IfOk result (HasStarted self.old.problem key.now first self.new) }
        ensures problem { self.new.problem ≡ self.old.problem }
        ensures learned { self.new.learned ≡ [] }
    {
        self.first = first;
        self.fixed = 0;
        let fits = assume_roots(&mut self.propagator, key);
        if fits {
            self.fixed = key.len();
        }
        Ok(fits)
    }

    /// The problem that is searched.
    pub fn problem(&self) -> &'a Problem
        ensures problem { result.now ≡ self.now.problem }
        ensures lawful { IsProblem self.now.problem }
    {
        self.problem
    }

    /// The value at which variables are tried.
    pub fn first(&self) -> bool
        ensures { result ≡ self.now.first }
    {
        self.first
    }

    /// Whether what is tried clashes.
    pub fn clashes(&self) -> bool
        ensures { result ≡ clash (with_tried self.now self.now.tried) }
    {
        self.propagator.clashes()
    }

    /// What the closure says of the variable.
    pub fn value(&self, variable: u32) -> Option<bool>
        requires no_clash { IsFalse (clash (with_tried self.now self.now.tried)) }
        requires variable { variable < self.now.problem.variables }
        ensures { result ≡ value_of (with_tried self.now self.now.tried) variable }
    {
        self.propagator.value(variable)
    }

    /// Nothing is tried any more.
    pub fn reset(&mut self)
        ensures { self.new ≡ record self.old { tried = [] } }
    {
        self.propagator.back_to(self.fixed);
    }

    /// How many of the tried variables, from the first on, stand in the set in their order.
    fn common_with(&self, set: &[u32]) -> usize
        ensures most { result ≤ length self.now.tried }
        ensures within { IsWithin (take result self.now.tried) (variables_in self.now.problem set.now) }
        ensures whole { result ≡ length set.now → set.now ≡ take result self.now.tried }
    {
        let assumed = self.propagator.assumed();
        common(&assumed[self.fixed as usize..], set)
    }

    /// Whether the first `count` of the tried variables clash.
    fn clashes_with(&self, count: usize) -> bool
        requires { count ≤ length self.now.tried }
        ensures { result ≡ clash (with_tried self.now (take count self.now.tried)) }
    {
        self.propagator.clashes_within(self.fixed + count as u32)
    }

    /// Keeps the first `count` of the tried variables.
    fn keep(&mut self, count: usize)
        requires { count ≤ length self.old.tried }
        ensures { self.new ≡ record self.old { tried = take count self.old.tried } }
    {
        self.propagator.back_to(self.fixed + count as u32);
    }

    /// Appends the clause to the learned ones.
    pub fn learn(&mut self, clause: &[Lit]) -> Result<(), AllocError>
        requires { All (IsBelow self.old.problem.variables) clause.now }
        ensures ok { OnOk result (self.new ≡ record self.old { learned = self.old.learned ++ clause.now ∷ [] }) }
        ensures err { OnErr result (self.new ≡ self.old) }
    {
        self.propagator.learn(clause)?;
        Ok(())
    }

    /// Tries another variable, and answers whether nothing clashes.
    pub fn decide(&mut self, variable: u32) -> bool
        requires no_clash { IsFalse (clash (with_tried self.old self.old.tried)) }
        requires variable { variable < self.old.problem.variables }
        requires new { ¬ Contains self.old.tried variable }
        ensures tried { self.new ≡ record self.old { tried = self.old.tried ++ variable ∷ [] } }
        ensures no_clash { result ≡ not (clash (with_tried self.new self.new.tried)) }
    {
        self.propagator.assume(literal_with(self.first, variable))
    }

    /// Sees to it that the variable has the first value, and answers whether nothing clashes.
    fn is_valued_too(&mut self, variable: u32) -> bool
        requires no_clash { IsFalse (clash (with_tried self.old self.old.tried)) }
        requires variable { variable < self.old.problem.variables }
        ensures same { SameButTried self.old self.new }
        ensures within { IsWithin self.new.tried (self.old.tried ++ variable ∷ []) }
        ensures more { IsWithin self.old.tried self.new.tried }
        ensures valued { IsTrue result → Contains (closure (with_tried self.new self.new.tried)) (literal_with self.old.first variable) }
        ensures no_clash { IsTrue result → IsFalse (clash (with_tried self.new self.new.tried)) }
        ensures clash { IsFalse result → IsTrue (clash (with_tried self.old (self.old.tried ++ variable ∷ []))) }
    {
        self.propagator
            .make_true(literal_with(self.first, variable))
    }

    /// The same for any number; one that is no variable changes nothing.
    fn try_number(&mut self, number: u32) -> bool
        requires { IsFalse (clash (with_tried self.old self.old.tried)) }
        ensures same { SameButTried self.old self.new }
        ensures within { IsWithin self.new.tried (self.old.tried ++ variables_in self.old.problem (number ∷ [])) }
        ensures more { IsWithin self.old.tried self.new.tried }
        ensures valued { IsTrue result → (variable : ℕ) → Contains (variables_in self.old.problem (number ∷ [])) variable → Contains (closure (with_tried self.new self.new.tried)) (literal_with self.old.first variable) }
        ensures no_clash { IsTrue result → IsFalse (clash (with_tried self.new self.new.tried)) }
        ensures clash { IsFalse result → IsTrue (clash (with_tried self.old (self.old.tried ++ variables_in self.old.problem (number ∷ [])))) }
    {
        if number >= self.problem().variables {
            return true;
        }
        self.is_valued_too(number)
    }

    /// The learned clauses so far.
    pub fn learned(&self) -> &Clauses
        ensures { result.now ≡ self.now.learned }
    {
        self.propagator.learned()
    }

    /// Hands out the learned clauses, in their order. Nothing is assumed or learned any more.
    pub fn take_learned(&mut self) -> Clauses
        ensures handed { result ≡ self.old.learned }
        ensures problem { self.new.problem ≡ self.old.problem }
        ensures learned { self.new.learned ≡ [] }
    {
        self.fixed = 0;
        self.propagator.take_learned()
    }
}

impl MonotoneTest for Trial<'_> {
    ghost use Rattle.solver.specs.inside.TestLaws.{clashes-monotone, same-reflexive, same-transitive};

    ghost yes = { Clashes };

    ghost stays = { SameButTried };

    ghost monotone = { clashes-monotone };

    ghost reflexive = { same-reflexive };

    ghost transitive = { same-transitive };

    fn holds(&mut self, set: &[u32]) -> Result<bool, AllocError> {
        let kept = self.common_with(set);
        if self.clashes_with(kept) {
            return Ok(true);
        }
        if kept == set.len() {
            return Ok(false);
        }
        self.keep(kept);
        for number in set {
            if !self.try_number(*number) {
                return Ok(true);
            }
        }
        Ok(false)
    }
}
