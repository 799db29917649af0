//! Bringing in all that is forced.
ghost use Rattle.std.specs.Prelude.{◌++◌, ◌≤◌, IsTrue, length, take};
ghost use Rattle.propagation.specs.inside.Levels.{AreParts, HasPropagated};
ghost use Rattle.propagation.specs.inside.Watching.{AreCovered};

use crate::flat::{FlatClauses, FlatProblem};
use crate::trail::Trail;
use crate::watches::Watches;

/// Brings in what the literals of the trail force from this place on. False where a clause is refuted.
pub(crate) fn propagate(
    problem: &FlatProblem<'_>,
    learned: &FlatClauses,
    own: &mut Watches,
    more: &mut Watches,
    trail: &mut Trail,
    start: usize,
) -> bool
    requires parts { AreParts problem.now learned.now trail.old own.old more.old }
    requires start { start ≤ length trail.old.literals }
    requires own_covered { AreCovered (take start trail.old.literals) trail.old.literals own.old.watched }
    requires more_covered { AreCovered (take start trail.old.literals) trail.old.literals more.old.watched }
    ensures parts { AreParts problem.now learned.now trail.new own.new more.new }
    ensures done { HasPropagated (problem.now.clauses ++ learned.now) trail.old trail.new own.old own.new more.old more.new result }
{
    let mut head = start;
    while head < trail.len() {
        let literal = trail.get(head).negated();
        if !own.spread(problem.clauses(), literal, trail) {
            return false;
        }
        if !more.spread(learned, literal, trail) {
            return false;
        }
        head += 1;
    }
    true
}
