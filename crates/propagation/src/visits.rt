//! What becomes of a clause when a literal that it watches is false.
ghost use Rattle.std.specs.Prelude.{◌≡◌, ◌<◌, ◌↔◌, All, Contains, IsTrue};
ghost use Rattle.clauses.specs.Clause.{negation};
ghost use Rattle.clauses.specs.Problem.{IsBelow};
ghost use Rattle.propagation.specs.inside.Visits.{IsReplacement, IsVisit};

use crate::codes::Code;
use crate::trail::Trail;

/// What becomes of it.
#[derive(Clone, Copy)]
pub(crate) enum Visit {
    /// The other watched literal is true, so it may be watched as before.
    Stays,
    /// This literal is to be watched.
    Moves(Code),
    /// All its literals are false.
    Refuted,
}

/// Whether the literals are one.
fn is_same(a: Code, b: Code) -> bool
    ensures { IsTrue result ↔ (a ≡ b) }
{
    a == b
}

/// A literal of the clause that isn't false, and isn't the other watched one.
fn replacement(clause: &[Code], other: Code, trail: &Trail) -> Option<Code>
    requires { All (IsBelow trail.now.variables) clause.now }
    ensures { IsReplacement trail.now.literals clause.now other result }
{
    for literal in clause {
        if is_same(*literal, other) || trail.is_false(*literal) {
            continue;
        }
        return Some(*literal);
    }
    None
}

/// Looks at the clause, of which this literal is false and the other one is watched too, and brings in the other one where it
/// is forced.
pub(crate) fn look_at(clause: &[Code], literal: Code, other: Code, trail: &mut Trail) -> Visit
    requires clause { All (IsBelow trail.old.variables) clause.now }
    requires literal_in { Contains clause.now literal }
    requires other_in { Contains clause.now other }
    requires is_false { Contains trail.old.literals (negation literal) }
    ensures { IsVisit trail.old trail.new clause.now other result }
{
    if trail.is_true(other) {
        return Visit::Stays;
    }
    let falls = trail.is_false(other);
    // a clause of two has no third literal, so its literals needn't be read
    if clause.len() == 2 && !falls {
        trail.put(other);
        return Visit::Stays;
    }
    if let Some(found) = replacement(clause, other, trail) {
        return Visit::Moves(found);
    }
    if falls {
        return Visit::Refuted;
    }
    trail.put(other);
    Visit::Stays
}
