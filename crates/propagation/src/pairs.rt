//! Clauses of two literals, apart from the others: where one is false the other is forced, and nothing else of them is read.
ghost use Rattle.std.specs.Prelude.{◌≡◌, ◌≤◌, [], All};
ghost use Rattle.clauses.specs.Problem.{IsBelow};
ghost use Rattle.propagation.specs.inside.Pairing.{AreRows, IsBrought, row_of};

use crate::codes::Code;
use crate::trail::Trail;
use std::alloc::Global;
use std::marker::Model;

/// By the number of a literal, a row: the other literals of the clauses that have it and one more.
#[derive(Drop)]
pub(crate) struct Pairs {
    /// Where each row begins, and where the last one ends. Empty where no clause is apart.
    pub starts: Vec<usize>,
    /// The rows, one behind the other.
    pub others: Vec<Code>,
}

impl Model for Pairs {
    ghost use Rattle.propagation.specs.inside.Pairing.{AreRows, Pairing};

    ghost Value = { Pairing };

    ghost view = { λ a. record { starts = a.starts.items; others = a.others.items } };

    ghost invariant = { λ a. AreRows (record { starts = a.starts.items; others = a.others.items }) };
}

impl Pairs {
    /// No clause is apart.
    pub fn none(alloc: Global) -> Pairs
        ensures { result ≡ record { starts = []; others = [] } }
    {
        Pairs {
            starts: Vec::new(alloc),
            others: Vec::new(alloc),
        }
    }

    /// The row of this number.
    pub fn row(&self, slot: usize) -> &[Code]
        ensures { result.now ≡ row_of self.now slot }
    {
        if slot < self.starts.len() && slot + 1 < self.starts.len() {
            &self.others[self.starts[slot]..self.starts[slot + 1]]
        } else {
            &self.others[0..0]
        }
    }
}

/// Makes the literals of the row true, up to one that is false, and answers whether there is none.
pub(crate) fn bring_row(row: &[Code], trail: &mut Trail) -> bool
    requires { All (IsBelow trail.old.variables) row.now }
    ensures { IsBrought row.now trail.old trail.new result }
{
    for literal in row {
        if trail.is_true(*literal) {
            continue;
        }
        if trail.is_false(*literal) {
            return false;
        }
        trail.put(*literal);
    }
    true
}
