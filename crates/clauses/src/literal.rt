//! Literals, and lists of them.
ghost use Rattle.std.specs.Prelude.{◌≡◌, length, All};
ghost use Rattle.clauses.specs.Clause.{are_satisfied, is_satisfied, is_true_in, negation};
ghost use Rattle.clauses.specs.Problem.{IsBelow};

use lists::Row;

/// A variable, or its negation.
#[derive(Clone, Copy, Debug, PartialEq, Eq)]
pub struct Lit {
    pub var: u32,
    pub positive: bool,
}

impl Lit {
    /// The same variable with the other sign.
    pub fn negated(self) -> Lit
        ensures { result ≡ negation self }
    {
        Lit {
            var: self.var,
            positive: !self.positive,
        }
    }

    /// Whether the assignment makes the literal true.
    fn is_true_in(self, assignment: &[bool]) -> bool
        requires { IsBelow (length assignment.now) self }
        ensures { result ≡ is_true_in assignment.now self }
    {
        assignment[self.var as usize] == self.positive
    }
}

/// A clause, read as the set of its literals.
pub type Clause = Row<Lit>;

/// A list of clauses.
pub type Clauses = Row<Clause>;

/// A list of literals, as the roots of the requirements.
pub type Lits = Row<Lit>;

/// Clauses as lines, each of which follows from those before it. A search ends with the learned clauses in order, and
/// then the empty clause.
pub type Derivation = Clauses;

/// Whether the assignment makes a literal of the clause true.
fn is_clause_satisfied(clause: &Clause, assignment: &[bool]) -> bool
    requires { All (IsBelow (length assignment.now)) clause.now }
    ensures { result ≡ is_satisfied assignment.now clause.now }
{
    for literal in clause.as_slice().iter() {
        if literal.is_true_in(assignment) {
            return true;
        }
    }
    false
}

/// Whether the assignment makes a literal of each clause true.
pub(crate) fn are_all_satisfied(clauses: &[Clause], assignment: &[bool]) -> bool
    requires { All (All (IsBelow (length assignment.now))) clauses.now }
    ensures { result ≡ are_satisfied assignment.now clauses.now }
{
    for clause in clauses.iter() {
        if !is_clause_satisfied(clause, assignment) {
            return false;
        }
    }
    true
}
