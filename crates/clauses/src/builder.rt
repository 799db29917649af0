//! Making the variables and clauses of a problem.
ghost use Rattle.std.specs.Prelude.{◌≡◌, ◌+◌, ◌<◌, [], ◌∷◌, ◌++◌, OnOk, OnErr};
ghost use Rattle.clauses.specs.Clause.{positive_of};

use crate::literal::{Clause, Clauses, Lit};
use std::alloc::{AllocError, Global};
use std::marker::Model;

/// The clauses so far, and the lowest variable that isn't taken.
#[derive(Drop)]
pub struct ClauseBuilder {
    /// What `fresh` gives next.
    next: u32,
    /// In the order in which they were added.
    clauses: Clauses,
}

impl Model for ClauseBuilder {
    ghost use Rattle.clauses.specs.Problem.{Building};

    ghost Value = { Building };

    ghost view = { λ a. record { next_variable = a.next; clauses = a.clauses } };
}

impl ClauseBuilder {
    /// A builder without clauses, whose first fresh variable is `first`.
    pub fn new(alloc: Global, first: u32) -> ClauseBuilder
        ensures variable { result.next_variable ≡ first }
        ensures clauses { result.clauses ≡ [] }
    {
        ClauseBuilder {
            next: first,
            clauses: Clauses::new(alloc),
        }
    }

    /// The next variable, positive.
    pub fn fresh(&mut self) -> Lit
        requires { self.old.next_variable < 1000000 }
        ensures literal { result ≡ positive_of self.old.next_variable }
        ensures variable { self.new.next_variable ≡ self.old.next_variable + 1 }
        ensures clauses { self.new.clauses ≡ self.old.clauses }
    {
        let var = self.next;
        self.next += 1;
        Lit {
            var,
            positive: true,
        }
    }

    /// Appends the clause.
    pub fn add(&mut self, clause: &[Lit]) -> Result<(), AllocError>
        ensures ok { OnOk result (self.new.clauses ≡ self.old.clauses ++ clause.now ∷ []) }
        ensures err { OnErr result (self.new ≡ self.old) }
        ensures variable { self.new.next_variable ≡ self.old.next_variable }
    {
        let clause = Clause::from_slice(self.clauses.allocator(), clause)?;
        self.clauses.push(clause)?;
        Ok(())
    }

    /// The variable that `fresh` gives next.
    pub fn next_variable(&self) -> u32
        ensures { result ≡ self.now.next_variable }
    {
        self.next
    }

    /// The clauses, in the order in which they were added.
    pub fn into_clauses(self) -> Clauses
        ensures { result ≡ self.clauses }
    {
        self.clauses
    }
}
