//! What a search is about.
ghost use Rattle.std.specs.Prelude.{◌≡◌, ◌↔◌, IsTrue, All, Any, length};
ghost use Rattle.clauses.specs.Clause.{is_true_in, are_satisfied};
ghost use Rattle.clauses.specs.Problem.{IsProblem};

use crate::literal::{Clauses, Lits, are_all_satisfied};
use std::marker::Model;

/// Clauses over numbered variables, the roots of the requirements, and how many clauses a search may learn.
#[derive(Drop)]
pub struct Problem {
    /// At most 1,000,000; the variables are the numbers below.
    pub variables: u32,
    /// The variables below this number are the features of a model.
    pub features: u32,
    /// What is asserted.
    pub clauses: Clauses,
    /// A literal for each requirement, in order, at most 4,096. It isn't asserted.
    pub roots: Lits,
    /// How many clauses the first attempt of a search may learn, at most 2^40.
    pub allowance: u64,
    /// How many attempts may follow it, at most 4, each with ten times the allowance of the one before it.
    pub rungs: u8,
}

impl Model for Problem {
    ghost use Rattle.clauses.specs.Problem.{ClauseProblem, IsProblem};

    ghost Value = { ClauseProblem };

    ghost view = { λ a. record { variables = a.variables; features = a.features; clauses = a.clauses; roots = a.roots; allowance = a.allowance; rungs = a.rungs } };

    ghost invariant = { λ a. IsProblem (record { variables = a.variables; features = a.features; clauses = a.clauses; roots = a.roots; allowance = a.allowance; rungs = a.rungs }) };
}

impl Problem {
    /// The number of requirements.
    pub fn n(&self) -> u32
        ensures n { result ≡ length self.now.roots }
        ensures problem { IsProblem self.now }
    {
        self.roots.len() as u32
    }

    /// Whether the assignment, a value for each variable, makes a literal of each clause true.
    pub fn satisfies(&self, assignment: &[bool]) -> bool
        requires { length assignment.now ≡ self.now.variables }
        ensures tested { result ≡ are_satisfied assignment.now self.now.clauses }
        ensures each_clause { IsTrue result ↔ All (Any (λ literal. IsTrue (is_true_in assignment.now literal))) self.now.clauses }
    {
        are_all_satisfied(self.clauses.as_slice(), assignment)
    }
}
