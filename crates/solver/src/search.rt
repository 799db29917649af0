//! The turns of a search.
ghost use Rattle.std.specs.Prelude.{◌≡◌, ◌≢◌, ◌==◌, ◌↔◌, ◌<◌, ◌≤◌, [], ◌∷◌, ◌++◌, All, Contains, IfOk, IfSome, IsFalse, IsTrue, List, ℕ, OnErr, OnOk, length, map, not, reverse, Some, None};
ghost use Rattle.lists.specs.Distinct.{IsDistinct};
ghost use Rattle.pref_sets.specs.Preferred.{IsWithin};
ghost use Rattle.clauses.specs.Closure.{clash, closure};
ghost use Rattle.clauses.specs.Problem.{IsProblem};
ghost use Rattle.clauses.specs.Search.{Limit, cut_after, open_variables, some_without, values_of, verdict_of};
ghost use Rattle.solver.specs.Answers.{meaning};
ghost use Rattle.solver.specs.inside.Searching.{AreSettled, AreShown, HasBegun, IsShown, IsTurn, Searching, all_under, ended};
ghost use Rattle.solver.specs.inside.Trials.{with_tried};

use crate::answer::{Answer, Assignment};
use crate::trial::Trial;
use clauses::{Clause, Derivation, Lit, Problem};
use pref_sets::trim;
use req_keys::{Key, Verdict};
use std::alloc::{AllocError, Global};
use std::marker::Model;

/// How a search ends, without what comes with it.
#[derive(Clone, Copy, Debug, PartialEq, Eq)]
pub(crate) enum Ending {
    Sat,
    Unsat,
    Limit,
}

impl Ending {
    /// What the ending says of the requirements.
    pub fn verdict(self) -> Verdict
        ensures { (at : Searching) → result ≡ verdict_of (ended at self) }
    {
        match self {
            Ending::Sat => Verdict::Sat,
            Ending::Unsat => Verdict::Unsat,
            Ending::Limit => Verdict::Limit,
        }
    }

    /// Whether the search may learn no more.
    pub fn is_limit(self) -> bool
        ensures { (at : Searching) → IsTrue result ↔ (ended at self ≡ Limit) }
    {
        matches!(self, Ending::Limit)
    }
}

/// A search between two turns.
#[derive(Drop)]
pub(crate) struct Search<'a> {
    /// What is propagated.
    trial: Trial<'a>,
    /// The variables that are decided, in order. The trial has them up to the first that clashes.
    decisions: Vec<u32>,
    /// How many clauses may be learned.
    allowance: u64,
    /// No variable below this one is open, so the search for the lowest goes on from here.
    settled: u32,
    /// What was learned last, kept for its room.
    clause: Vec<Lit>,
}

impl<'a> Model for Search<'a> {
    ghost use Rattle.solver.specs.inside.Searching.{IsSearch, Searching};

    ghost Value = { Searching };

    ghost view = { λ a. record { trial = a.trial; decisions = a.decisions.items; allowance = a.allowance } };

    ghost invariant = { λ a. IsSearch a.trial a.decisions.items a.allowance a.settled };
}

impl<'a> Search<'a> {
    /// Nothing is learned or decided, and nothing may be learned.
    pub fn new(alloc: Global, problem: &'a Problem) -> Result<Search<'a>, AllocError>
        ensures { IfOk result (λ made. made.trial.problem ≡ problem.now) }
    {
        Ok(Search {
            trial: Trial::new(alloc, problem)?,
            decisions: Vec::new(alloc),
            allowance: 0,
            settled: 0,
            clause: Vec::new(alloc),
        })
    }

    /// Begins anew: nothing is learned or decided. False where the roots of the key clash with the clauses.
    pub fn begin(&mut self, key: &Key, first: bool, allowance: u64) -> Result<bool, AllocError>
        requires { key.now.n ≡ length self.old.trial.problem.roots }
        ensures begun { IfOk result (HasBegun self.old.trial.problem key.now first allowance self.new) }
        ensures problem { self.new.trial.problem ≡ self.old.trial.problem }
    {
        self.decisions.clear();
        self.allowance = allowance;
        self.settled = 0;
        self.trial.begin(key, first)
    }

    /// What is searched.
    pub fn problem(&self) -> &'a Problem
        ensures problem { result.now ≡ self.now.trial.problem }
        ensures lawful { IsProblem self.now.trial.problem }
    {
        self.trial.problem()
    }

    /// Where its memory comes from.
    pub fn allocator(&self) -> Global {
        *self.decisions.allocator()
    }

    /// Whether the turn that is due is one with a clash.
    pub fn clashes(&self) -> bool
        requires { IsShown self.now }
        ensures { result ≡ clash (all_under self.now) }
    {
        self.trial.clashes()
    }

    /// The lowest variable without a value.
    fn lowest_open(&self) -> Option<u32>
        requires shown { IsShown self.now }
        requires no_clash { IsFalse (clash (all_under self.now)) }
        ensures none { result ≡ None → open_variables self.now.trial.problem.variables (closure (all_under self.now)) ≡ [] }
        ensures some { IfSome result (λ lowest. (others : List ℕ) × (open_variables self.now.trial.problem.variables (closure (all_under self.now)) ≡ lowest ∷ others)) }
        ensures below { IfSome result (AreSettled self.now) }
    {
        for variable in self.settled..self.trial.problem().variables {
            if self.trial.value(variable).is_none() {
                return Some(variable);
            }
        }
        None
    }

    /// A turn without a clash: the lowest variable without a value is decided.
    pub fn turn_at_rest(&mut self) -> Result<Option<Ending>, AllocError>
        requires shown { IsShown self.old }
        requires no_clash { IsFalse (clash (all_under self.old)) }
        ensures turn { IfOk result (IsTurn self.old self.new) }
        ensures problem { self.new.trial.problem ≡ self.old.trial.problem }
    {
        match self.lowest_open() {
            None => Ok(Some(Ending::Sat)),
            Some(variable) => {
                self.decide(variable)?;
                Ok(None)
            }
        }
    }

    /// Decides the variable, at the first value.
    fn decide(&mut self, variable: u32) -> Result<(), AllocError>
        requires shown { IsShown self.old }
        requires no_clash { IsFalse (clash (all_under self.old)) }
        requires variable { variable < self.old.trial.problem.variables }
        requires new { ¬ Contains self.old.decisions variable }
        requires settled { AreSettled self.old variable }
        ensures trial { OnOk result (self.new.trial ≡ record self.old.trial { tried = self.old.decisions ++ variable ∷ [] }) }
        ensures decisions { OnOk result (self.new.decisions ≡ self.old.decisions ++ variable ∷ []) }
        ensures allowance { self.new.allowance ≡ self.old.allowance }
        ensures problem { self.new.trial.problem ≡ self.old.trial.problem }
    {
        self.decisions.push(variable)?;
        self.trial.decide(variable);
        self.settled = variable;
        Ok(())
    }

    /// Whether no more may be learned.
    fn is_spent(&self) -> bool
        ensures { result ≡ (length self.now.trial.learned == self.now.allowance) }
    {
        self.trial.learned().len() as u64 == self.allowance
    }

    /// A turn with a clash: something is learned from it, if there is a decision and more may be learned.
    pub fn turn_at_clash(&mut self, alloc: Global) -> Result<Option<Ending>, AllocError>
        requires shown { IsShown self.old }
        requires clash { IsTrue (clash (all_under self.old)) }
        ensures turn { IfOk result (IsTurn self.old self.new) }
        ensures problem { self.new.trial.problem ≡ self.old.trial.problem }
    {
        if self.decisions.is_empty() {
            return Ok(Some(Ending::Unsat));
        }
        if self.is_spent() {
            return Ok(Some(Ending::Limit));
        }
        let trimmed = trim(alloc, &mut self.trial, &self.decisions)?;
        self.learn(trimmed.as_slice())?;
        Ok(None)
    }

    /// Goes back to the last but one of these decisions, and learns last that they don't all have the first value.
    fn learn(&mut self, trimmed: &[u32]) -> Result<(), AllocError>
        requires part { IsWithin trimmed.now self.old.decisions }
        requires allowed { length self.old.trial.learned < self.old.allowance }
        ensures decisions { OnOk result (self.new.decisions ≡ cut_after self.old.decisions (reverse trimmed.now)) }
        ensures learned { OnOk result (self.new.trial.learned ≡ self.old.trial.learned ++ some_without self.old.trial.first trimmed.now ∷ []) }
        ensures problem { self.new.trial.problem ≡ self.old.trial.problem }
        ensures fixed { self.new.trial.fixed ≡ self.old.trial.fixed }
        ensures first { self.new.trial.first ≡ self.old.trial.first }
        ensures allowance { self.new.allowance ≡ self.old.allowance }
        ensures shown { OnOk result (IsShown self.new) }
    {
        cut(&mut self.decisions, trimmed);
        self.settled = 0;
        try_all(&mut self.trial, &self.decisions);
        some_without(&mut self.clause, self.trial.first(), trimmed)?;
        self.trial.learn(&self.clause)?;
        Ok(())
    }

    /// The answer of a search that ended so. What was learned goes into it.
    pub fn answer(&mut self, ending: Ending) -> Result<Answer, AllocError>
        requires shown { IsShown self.old }
        requires no_clash { ending ≡ Ending.Sat → IsFalse (clash (all_under self.old)) }
        ensures meaning { IfOk result (λ answer. meaning answer ≡ ended self.old ending) }
        ensures problem { self.new.trial.problem ≡ self.old.trial.problem }
    {
        match ending {
            Ending::Sat => Ok(Answer::Sat(self.values(self.allocator())?)),
            Ending::Limit => Ok(Answer::Limit),
            Ending::Unsat => Ok(Answer::Unsat(self.take_derivation()?)),
        }
    }

    /// Hands out what is learned, and the empty clause behind it.
    fn take_derivation(&mut self) -> Result<Derivation, AllocError>
        ensures lines { IfOk result (λ lines. lines ≡ self.old.trial.learned ++ [] ∷ []) }
        ensures problem { self.new.trial.problem ≡ self.old.trial.problem }
    {
        self.settled = 0;
        let mut lines = self.trial.take_learned();
        let empty = Clause::new(lines.allocator());
        lines.push(empty)?;
        Ok(lines)
    }

    /// The value of each variable, at rest.
    fn values(&self, alloc: Global) -> Result<Assignment, AllocError>
        requires shown { IsShown self.now }
        requires no_clash { IsFalse (clash (all_under self.now)) }
        ensures { IfOk result (λ values. values ≡ values_of self.now.trial.problem.variables (closure (all_under self.now))) }
    {
        let mut values = Assignment::new(alloc);
        for variable in 0..self.trial.problem().variables {
            values.push(self.trial.value(variable) == Some(true))?;
        }
        Ok(values)
    }
}

/// Writes the clause that says that one of the variables hasn't the value.
fn some_without(clause: &mut Vec<Lit>, value: bool, variables: &[u32]) -> Result<(), AllocError>
    ensures { OnOk result (clause.new.items ≡ some_without value variables.now) }
{
    clause.clear();
    for variable in variables {
        clause.push(Lit {
            var: *variable,
            positive: !value,
        })?;
    }
    Ok(())
}

/// Keeps the decisions up to the last of the trimmed ones but one, and none where there is no such one.
fn cut(decisions: &mut Vec<u32>, trimmed: &[u32])
    ensures { decisions.new.items ≡ cut_after decisions.old.items (reverse trimmed.now) }
{
    let count = trimmed.len();
    if count < 2 {
        decisions.clear();
        return;
    }
    let before = trimmed[count - 2];
    if let Some(place) = decisions.iter().position(|decision| *decision == before) {
        decisions.truncate(place + 1);
    }
}

/// Tries the decisions alone, up to the first that clashes.
fn try_all(trial: &mut Trial<'_>, decisions: &[u32])
    requires distinct { IsDistinct decisions.now }
    requires below { All (λ variable. variable < trial.old.problem.variables) decisions.now }
    ensures same { trial.new ≡ record trial.old { tried = trial.new.tried } }
    ensures shown { AreShown trial.new decisions.now }
{
    trial.reset();
    for variable in decisions {
        if trial.clashes() {
            return;
        }
        trial.decide(*variable);
    }
}
