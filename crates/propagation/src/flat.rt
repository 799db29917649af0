//! Clauses in one row, so that reading one clause after the other goes through memory in order.
ghost use Rattle.std.specs.Prelude.{◌≡◌, ◌<◌, ◌≤◌, ◌^◌, [], ◌∷◌, ◌++◌, All, IfOk, OnErr, OnOk, length, slice_index_or, vec_capacity, ◌+◌};
ghost use Rattle.clauses.specs.Problem.{IsBelow, IsProblem};

use crate::codes::Code;
use clauses::{Clause, Lit, Problem};
use std::alloc::{AllocError, Global};
use std::marker::Model;

/// Clauses, one behind the other.
#[derive(Drop)]
pub(crate) struct FlatClauses {
    /// Where each ends.
    ends: Vec<usize>,
    /// The literals of all.
    row: Vec<Code>,
}

impl Model for FlatClauses {
    ghost use Rattle.std.specs.Prelude.{List, length};
    ghost use Rattle.clauses.specs.declared.literal.Lit.{Lit};
    ghost use Rattle.propagation.specs.inside.Cutting.{AreEnds, cut_at};

    ghost Value = { List (List Lit) };

    ghost view = { λ a. cut_at 0 a.ends.items a.row.items };

    ghost invariant = { λ a. AreEnds 0 a.ends.items (length a.row.items) };
}

/// Appends the literals, for which there is room.
fn append(row: &mut Vec<Code>, clause: &[Lit])
    requires below { All (IsBelow 1000000) clause.now }
    requires room { length row.old.items + length clause.now ≤ vec_capacity row.old }
    ensures items { row.new.items ≡ row.old.items ++ clause.now }
    ensures room { vec_capacity row.new ≡ vec_capacity row.old }
{
    for literal in clause {
        row.push_reserved(Code::of(*literal));
    }
}

impl FlatClauses {
    /// No clause.
    pub fn new(alloc: Global) -> FlatClauses
        ensures { result ≡ [] }
    {
        FlatClauses {
            ends: Vec::new(alloc),
            row: Vec::new(alloc),
        }
    }

    pub fn len(&self) -> usize
        ensures { result ≡ length self.now }
    {
        self.ends.len()
    }

    /// The clause with this number.
    pub fn get(&self, number: usize) -> &[Code]
        requires { number < length self.now }
        ensures { result.now ≡ slice_index_or self.now number [] }
    {
        let end = self.ends[number];
        if number == 0 {
            &self.row[0..end]
        } else {
            &self.row[self.ends[number - 1]..end]
        }
    }

    /// Appends a clause. After want of memory the clauses are as they were.
    pub fn push(&mut self, clause: &[Lit]) -> Result<(), AllocError>
        requires { All (IsBelow 1000000) clause.now }
        ensures ok { OnOk result (self.new ≡ self.old ++ clause.now ∷ []) }
        ensures err { OnErr result (self.new ≡ self.old) }
    {
        self.ends.reserve(1)?;
        self.row.reserve(clause.len())?;
        append(&mut self.row, clause);
        self.ends.push_reserved(self.row.len());
        Ok(())
    }

    /// No clause any more. What was reserved stays so.
    pub fn clear(&mut self)
        ensures { self.new ≡ [] }
    {
        self.ends.clear();
        self.row.clear();
    }
}

/// The clauses in one row.
fn flat(alloc: Global, clauses: &[Clause]) -> Result<FlatClauses, AllocError>
    requires { All (All (IsBelow 1000000)) clauses.now }
    ensures { IfOk result (λ flat. flat ≡ clauses.now) }
{
    let mut flat = FlatClauses::new(alloc);
    for clause in clauses {
        flat.push(clause.as_slice())?;
    }
    Ok(flat)
}

/// A problem, with its clauses in one row.
#[derive(Drop)]
pub(crate) struct FlatProblem<'a> {
    about: &'a Problem,
    clauses: FlatClauses,
}

impl<'a> Model for FlatProblem<'a> {
    ghost use Rattle.std.specs.Prelude.{◌≡◌};
    ghost use Rattle.clauses.specs.Problem.{ClauseProblem};

    ghost Value = { ClauseProblem };

    ghost view = { λ a. a.about.now };

    ghost invariant = { λ a. a.clauses ≡ a.about.now.clauses };
}

impl<'a> FlatProblem<'a> {
    /// The problem, with a copy of its clauses.
    pub fn new(alloc: Global, problem: &'a Problem) -> Result<FlatProblem<'a>, AllocError>
        ensures { IfOk result (λ made. made ≡ problem.now) }
    {
        let _ = &problem.variables;
        let clauses = flat(alloc, problem.clauses.as_slice())?;
        Ok(FlatProblem {
            about: problem,
            clauses,
        })
    }

    /// What it is about.
    pub fn about(&self) -> &'a Problem
        ensures { result.now ≡ self.now }
    {
        self.about
    }

    /// What is asserted.
    pub fn clauses(&self) -> &FlatClauses
        ensures clauses { result.now ≡ self.now.clauses }
        ensures lawful { IsProblem self.now }
    {
        let about = self.about;
        prove!(0 <= about.n());
        &self.clauses
    }
}
