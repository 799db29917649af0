//! Watching the clauses of a problem.
ghost use Rattle.std.specs.Prelude.{◌≡◌, [], All, IfOk, length};
ghost use Rattle.clauses.specs.Problem.{IsBelow};
ghost use Rattle.propagation.specs.inside.Building.{AreAllWatched, IsWatched};
ghost use Rattle.propagation.specs.inside.Levels.{HasState};

use crate::codes::Code;
use crate::flat::{FlatClauses, FlatProblem};
use crate::placing::{Place, place_of};
use crate::propagating::propagate;
use crate::state::State;
use crate::trail::Trail;
use crate::watches::Watches;
use std::alloc::AllocError;

/// Watches two literals of the clause, or makes its only one true. False where it has none, or that is false.
fn watch_clause(clause: &[Code], own: &mut Watches, trail: &mut Trail) -> Result<bool, AllocError>
    requires variables { trail.old.variables ≡ own.old.variables }
    requires below { All (IsBelow own.old.variables) clause.now }
    ensures { IfOk result (IsWatched clause.now own.old own.new trail.old trail.new) }
{
    own.reserve()?;
    match place_of(clause, trail, 0, 0) {
        Place::Open(one, other) => {
            own.attach(one, other);
            Ok(true)
        }
        Place::Forced(one, other) => {
            own.attach(one, other);
            Ok(true)
        }
        Place::Alone(one) => {
            own.attach(one, one);
            if trail.is_false(one) {
                return Ok(false);
            }
            trail.take_in(one);
            Ok(true)
        }
        Place::Refuted => Ok(false),
    }
}

/// Watches each clause of the problem. False where they clash already.
fn watch_all(
    problem: &FlatProblem<'_>,
    own: &mut Watches,
    trail: &mut Trail,
) -> Result<bool, AllocError>
    requires own_of { own.old.variables ≡ problem.now.variables }
    requires trail_of { trail.old.variables ≡ problem.now.variables }
    requires own_empty { own.old.watched ≡ [] }
    requires own_plain { own.old.pairs.others ≡ [] }
    requires trail_empty { trail.old.literals ≡ [] }
    ensures { IfOk result (AreAllWatched problem.now own.new trail.new) }
{
    let clauses = problem.clauses();
    for number in 0..clauses.len() {
        if !watch_clause(clauses.get(number), own, trail)? {
            return Ok(false);
        }
    }
    Ok(true)
}

/// Watches each clause of the problem, and brings in what they force.
pub(crate) fn begin(
    problem: &FlatProblem<'_>,
    learned: &FlatClauses,
    own: &mut Watches,
    more: &mut Watches,
    trail: &mut Trail,
) -> Result<State, AllocError>
    requires own_of { own.old.variables ≡ problem.now.variables }
    requires more_of { more.old.variables ≡ problem.now.variables }
    requires trail_of { trail.old.variables ≡ problem.now.variables }
    requires own_empty { own.old.watched ≡ [] }
    requires own_plain { own.old.pairs.others ≡ [] }
    requires more_empty { more.old.watched ≡ [] }
    requires more_plain { more.old.pairs.others ≡ [] }
    requires trail_empty { trail.old.literals ≡ [] }
    requires learned_empty { learned.now ≡ [] }
    ensures { IfOk result (HasState problem.now [] [] trail.new own.new more.new [] (length trail.new.literals)) }
{
    if !watch_all(problem, own, trail)? {
        return Ok(State::Dead);
    }
    own.set_apart(problem.clauses())?;
    let fits = propagate(problem, learned, own, more, trail, 0);
    prove!(0 <= trail.len());
    if fits {
        Ok(State::Rests)
    } else {
        Ok(State::Dead)
    }
}
