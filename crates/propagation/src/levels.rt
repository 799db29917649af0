//! Levels of a trail: one for each assumed literal that was brought in.
ghost use Rattle.std.specs.Prelude.{◌≡◌, ◌+◌, ◌<◌, ◌≤◌, ◌++◌, ◌∷◌, [], All, Contains, IsFalse, IsTrue, false, length, take, vec_capacity};
ghost use Rattle.clauses.specs.Problem.{IsBelow};
ghost use Rattle.propagation.specs.inside.Levels.{AreParts, HasEntered, HasForced, HasState, IsHighest, IsStanding, IsTop, IsTopOrClashing, front, last};
ghost use Rattle.propagation.specs.inside.Places.{HasPlace, IsUnit, is_found, start_at};
ghost use Rattle.propagation.specs.inside.Trails.{IsOneSigned};
ghost use Rattle.propagation.specs.inside.Watching.{AreCovered};

use crate::codes::Code;
use crate::flat::{FlatClauses, FlatProblem};
use crate::placing::{Place, end_of, level_for};
use crate::propagating::propagate;
use crate::state::State;
use crate::trail::Trail;
use crate::watches::Watches;
use clauses::Lit;

/// Brings in the next assumed literal and all that it forces. False where they clash.
fn bring_in(
    problem: &FlatProblem<'_>,
    learned: &FlatClauses,
    own: &mut Watches,
    more: &mut Watches,
    trail: &mut Trail,
    marks: &mut Vec<usize>,
    assumed: &[Lit],
    base: usize,
) -> bool
    requires standing { IsStanding problem.now learned.now assumed.now trail.old own.old more.old marks.old.items base }
    requires top { IsTop problem.now learned.now assumed.now trail.old own.old more.old marks.old.items }
    requires next { length marks.old.items < length assumed.now }
    requires room { length assumed.now ≤ vec_capacity marks.old }
    requires below { All (IsBelow problem.now.variables) assumed.now }
    ensures standing { IsStanding problem.now learned.now assumed.now trail.new own.new more.new marks.new.items base }
    ensures one_more { length marks.new.items ≡ length marks.old.items + 1 }
    ensures top { IsTopOrClashing problem.now learned.now assumed.now trail.new own.new more.new marks.new.items result }
    ensures room { vec_capacity marks.new ≡ vec_capacity marks.old }
{
    let start = trail.len();
    let literal = Code::of(assumed[marks.len()]);
    marks.push_reserved(start);
    if trail.is_false(literal) {
        return false;
    }
    trail.take_in(literal);
    let fits = propagate(problem, learned, own, more, trail, start);
    prove!(start <= trail.len());
    fits
}

/// Brings in the assumed literals that wait. False where they clash.
pub(crate) fn bring_all(
    problem: &FlatProblem<'_>,
    learned: &FlatClauses,
    own: &mut Watches,
    more: &mut Watches,
    trail: &mut Trail,
    marks: &mut Vec<usize>,
    assumed: &[Lit],
    base: usize,
) -> bool
    requires standing { IsStanding problem.now learned.now assumed.now trail.old own.old more.old marks.old.items base }
    requires top { IsTop problem.now learned.now assumed.now trail.old own.old more.old marks.old.items }
    requires room { length assumed.now ≤ vec_capacity marks.old }
    requires below { All (IsBelow problem.now.variables) assumed.now }
    ensures standing { IsStanding problem.now learned.now assumed.now trail.new own.new more.new marks.new.items base }
    ensures top { IsTopOrClashing problem.now learned.now assumed.now trail.new own.new more.new marks.new.items result }
    ensures all { IsTrue result → length marks.new.items ≡ length assumed.now }
    ensures some { IsFalse result → 0 < length marks.new.items }
    ensures room { vec_capacity marks.new ≡ vec_capacity marks.old }
{
    while marks.len() < assumed.len() {
        if !bring_in(problem, learned, own, more, trail, marks, assumed, base) {
            return false;
        }
    }
    true
}

/// Watches the two literals of the clause that was learned last, makes the first of them true, and brings in all that it
/// forces. False where a clause is refuted.
fn force(
    problem: &FlatProblem<'_>,
    learned: &FlatClauses,
    own: &mut Watches,
    more: &mut Watches,
    trail: &mut Trail,
    one: Code,
    other: Code,
) -> bool
    requires parts { AreParts problem.now (front learned.now) trail.old own.old more.old }
    requires learned { learned.now ≡ front learned.now ++ last learned.now ∷ [] }
    requires clause { All (IsBelow problem.now.variables) (last learned.now) }
    requires room { length more.old.watched + 2 ≤ more.old.room }
    requires unit { IsUnit trail.old.literals (last learned.now) one }
    requires other { Contains (last learned.now) other }
    requires own_covered { AreCovered trail.old.literals trail.old.literals own.old.watched }
    requires more_covered { AreCovered trail.old.literals trail.old.literals more.old.watched }
    ensures parts { AreParts problem.now learned.now trail.new own.new more.new }
    ensures one_signed { IsOneSigned trail.new.literals }
    ensures forced { HasForced problem.now learned.now trail.old trail.new own.old own.new more.old more.new one other result }
{
    more.attach(one, other);
    let start = trail.len();
    trail.take_in(one);
    let fits = propagate(problem, learned, own, more, trail, start);
    prove!(start <= trail.len());
    fits
}

/// How a propagator stands after a learned clause was brought in at this level, and maybe clashed.
fn state_after(fits: bool, level: usize) -> State
    ensures rests { IsTrue fits → result ≡ State.Rests }
    ensures lost { IsFalse fits → level ≡ 0 → result ≡ State.Lost }
    ensures clashes { IsFalse fits → 0 < level → result ≡ State.Clashes }
{
    if fits {
        State::Rests
    } else if level == 0 {
        State::Lost
    } else {
        State::Clashes
    }
}

/// Watches the clause that was learned last, which has this place at the top, and brings in what it forces.
fn enter(
    problem: &FlatProblem<'_>,
    learned: &FlatClauses,
    own: &mut Watches,
    more: &mut Watches,
    trail: &mut Trail,
    marks: &[usize],
    assumed: &[Lit],
    base: usize,
    place: Place,
) -> State
    requires standing { IsStanding problem.now (front learned.now) assumed.now trail.old own.old more.old marks.now base }
    requires top { IsTop problem.now (front learned.now) assumed.now trail.old own.old more.old marks.now }
    requires learned { learned.now ≡ front learned.now ++ last learned.now ∷ [] }
    requires clause { All (IsBelow problem.now.variables) (last learned.now) }
    requires room { length more.old.watched + 2 ≤ more.old.room }
    requires place { HasPlace trail.old.literals (take (start_at marks.now (length marks.now)) trail.old.literals) (last learned.now) place }
    requires lowest { is_found place ≡ false → length marks.now ≡ 0 }
    ensures { HasEntered problem.now learned.now assumed.now trail.new own.new more.new marks.now base result }
{
    match place {
        Place::Open(one, other) => {
            more.attach(one, other);
            State::Rests
        }
        Place::Forced(one, other) => {
            let fits = force(problem, learned, own, more, trail, one, other);
            state_after(fits, marks.len())
        }
        Place::Alone(one) => {
            let fits = force(problem, learned, own, more, trail, one, one);
            state_after(fits, marks.len())
        }
        Place::Refuted => State::Lost,
    }
}

/// From which level on a learned clause may be watched; none where nothing that is learned makes a difference.
fn highest(state: State, marks: &[usize]) -> Option<usize>
    ensures { IsHighest state marks.now result }
{
    match state {
        State::Rests => Some(marks.len()),
        State::Clashes => Some(marks.len().saturating_sub(1)),
        State::Lost | State::Dead => None,
    }
}

/// Goes back to the highest level, up to this one, at which the clause that was learned last can be watched, watches it
/// there, and brings in the assumed literals again.
fn learn_at(
    problem: &FlatProblem<'_>,
    learned: &FlatClauses,
    own: &mut Watches,
    more: &mut Watches,
    trail: &mut Trail,
    marks: &mut Vec<usize>,
    assumed: &[Lit],
    base: usize,
    clause: &[Code],
    most: usize,
) -> State
    requires standing { IsStanding problem.now (front learned.now) assumed.now trail.old own.old more.old marks.old.items base }
    requires most { most ≤ length marks.old.items }
    requires top { most ≡ length marks.old.items → IsTop problem.now (front learned.now) assumed.now trail.old own.old more.old marks.old.items }
    requires learned { learned.now ≡ front learned.now ++ last learned.now ∷ [] }
    requires clause { clause.now ≡ last learned.now }
    requires below { All (IsBelow problem.now.variables) clause.now }
    requires room { length more.old.watched + 2 ≤ more.old.room }
    requires marks_room { length assumed.now ≤ vec_capacity marks.old }
    requires assumed_below { All (IsBelow problem.now.variables) assumed.now }
    ensures state { HasState problem.now learned.now assumed.now trail.new own.new more.new marks.new.items base result }
    ensures room { vec_capacity marks.new ≡ vec_capacity marks.old }
{
    let (level, place) = level_for(clause, trail, marks, most);
    let end = end_of(marks, trail.len(), level);
    trail.cut(end);
    marks.truncate(level);
    match enter(
        problem, learned, own, more, trail, marks, assumed, base, place,
    ) {
        State::Rests => {
            if bring_all(problem, learned, own, more, trail, marks, assumed, base) {
                State::Rests
            } else {
                State::Clashes
            }
        }
        other => other,
    }
}

/// Watches the clause that was learned last, if that makes a difference, and brings in what it forces.
pub(crate) fn learn_in(
    problem: &FlatProblem<'_>,
    learned: &FlatClauses,
    own: &mut Watches,
    more: &mut Watches,
    trail: &mut Trail,
    marks: &mut Vec<usize>,
    assumed: &[Lit],
    base: usize,
    clause: &[Code],
    state: State,
) -> State
    requires state { HasState problem.now (front learned.now) assumed.now trail.old own.old more.old marks.old.items base state }
    requires learned { learned.now ≡ front learned.now ++ last learned.now ∷ [] }
    requires clause { clause.now ≡ last learned.now }
    requires below { All (IsBelow problem.now.variables) clause.now }
    requires room { length more.old.watched + 2 ≤ more.old.room }
    requires marks_room { length assumed.now ≤ vec_capacity marks.old }
    requires assumed_below { All (IsBelow problem.now.variables) assumed.now }
    ensures state { HasState problem.now learned.now assumed.now trail.new own.new more.new marks.new.items base result }
    ensures room { vec_capacity marks.new ≡ vec_capacity marks.old }
{
    match highest(state, marks) {
        None => state,
        Some(most) => learn_at(
            problem, learned, own, more, trail, marks, assumed, base, clause, most,
        ),
    }
}
