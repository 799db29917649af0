//! Where a clause stands on a trail.
ghost use Rattle.std.specs.Prelude.{◌≡◌, ◌≤◌, ◌↔◌, All, IsTrue, Some, false, length, take};
ghost use Rattle.clauses.specs.Problem.{IsBelow};
ghost use Rattle.propagation.specs.inside.Places.{HasPlace, IsLate, IsOpenBeside, end_at, is_found, start_at};

use crate::codes::Code;
use crate::trail::Trail;

/// Where it stands.
#[derive(Clone, Copy)]
pub(crate) enum Place {
    /// Two of its literals aren't false.
    Open(Code, Code),
    /// Only the first isn't false, and the second became so at this level.
    Forced(Code, Code),
    /// Only this literal isn't false, and the others were so below.
    Alone(Code),
    /// All its literals are false.
    Refuted,
}

impl Place {
    /// Whether it can be watched at two literals that weren't false below.
    fn is_found(&self) -> bool
        ensures { result ≡ is_found self.now }
    {
        match self {
            Place::Open(_, _) | Place::Forced(_, _) => true,
            Place::Alone(_) | Place::Refuted => false,
        }
    }
}

/// Whether it is there and is this literal.
fn is_the_one(only: &Option<Code>, literal: Code) -> bool
    ensures { IsTrue result ↔ (only.now ≡ Some literal) }
{
    *only == Some(literal)
}

/// A literal of the clause that the first so many of the trail don't make false, and that isn't the given one.
fn open_beside(clause: &[Code], trail: &Trail, end: usize, but: Option<Code>) -> Option<Code>
    requires { All (IsBelow trail.now.variables) clause.now }
    ensures { IsOpenBeside (take end trail.now.literals) clause.now but result }
{
    for literal in clause {
        if is_the_one(&but, *literal) || trail.was_false(*literal, end) {
            continue;
        }
        return Some(*literal);
    }
    None
}

/// A literal of the clause that became false between these places.
fn late_in(clause: &[Code], trail: &Trail, end: usize, start: usize) -> Option<Code>
    requires { All (IsBelow trail.now.variables) clause.now }
    ensures { IsLate (take end trail.now.literals) (take start trail.now.literals) clause.now result }
{
    for literal in clause {
        if !trail.was_false(*literal, end) || trail.was_false(*literal, start) {
            continue;
        }
        return Some(*literal);
    }
    None
}

/// Where the clause stands between these places.
pub(crate) fn place_of(clause: &[Code], trail: &Trail, end: usize, start: usize) -> Place
    requires { All (IsBelow trail.now.variables) clause.now }
    ensures { HasPlace (take end trail.now.literals) (take start trail.now.literals) clause.now result }
{
    let Some(one) = open_beside(clause, trail, end, None) else {
        return Place::Refuted;
    };
    if let Some(other) = open_beside(clause, trail, end, Some(one)) {
        return Place::Open(one, other);
    }
    match late_in(clause, trail, end, start) {
        Some(other) => Place::Forced(one, other),
        None => Place::Alone(one),
    }
}

/// Where the level ends on a trail of this length.
pub(crate) fn end_of(marks: &[usize], length_of_trail: usize, level: usize) -> usize
    ensures { result ≡ end_at marks.now length_of_trail level }
{
    if level < marks.len() {
        marks[level]
    } else {
        length_of_trail
    }
}

/// Where the level begins.
fn start_of(marks: &[usize], level: usize) -> usize
    requires { level ≤ length marks.now }
    ensures { result ≡ start_at marks.now level }
{
    if level == 0 { 0 } else { marks[level - 1] }
}

/// The highest level, up to this one, at which the clause can be watched, or the lowest.
pub(crate) fn level_for(
    clause: &[Code],
    trail: &Trail,
    marks: &[usize],
    most: usize,
) -> (usize, Place)
    requires clause { All (IsBelow trail.now.variables) clause.now }
    requires most { most ≤ length marks.now }
    ensures most { result.0 ≤ most }
    ensures place { HasPlace (take (end_at marks.now (length trail.now.literals) result.0) trail.now.literals) (take (start_at marks.now result.0) trail.now.literals) clause.now result.1 }
    ensures lowest { is_found result.1 ≡ false → result.0 ≡ 0 }
{
    let mut level = most;
    loop {
        let end = end_of(marks, trail.len(), level);
        let place = place_of(clause, trail, end, start_of(marks, level));
        let found = place.is_found();
        if level == 0 || found {
            return (level, place);
        }
        level -= 1;
    }
}
