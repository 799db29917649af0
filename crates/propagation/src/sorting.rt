//! Setting the clauses of two literals apart.
ghost use Rattle.std.specs.Prelude.{◌≡◌, ◌≢◌, ◌↔◌, ◌+◌, ◌*◌, ◌/◌, ◌<◌, ◌≤◌, ◌++◌, ◌∷◌, [], All, IsFalse, IsTrue, length, slice_index_or, vec_capacity};
ghost use Rattle.clauses.specs.Problem.{IsBelow};
ghost use Rattle.propagation.specs.inside.Sorting.{HasRow, IsPair, IsSent, IsSorted};
ghost use Rattle.propagation.specs.inside.Watching.{AreInside, partner, watched_at};

use crate::codes::Code;
use crate::flat::FlatClauses;
use crate::watches::{NOTHING, partner, shift};

/// Whether the literals are two.
fn is_other(a: Code, b: Code) -> bool
    ensures { IsTrue result ↔ (a ≢ b) }
{
    a != b
}

/// Whether the clause of the entry has two literals, and both are watched.
fn is_pair(clauses: &FlatClauses, watched: &[Code], entry: usize) -> bool
    requires inside { AreInside clauses.now watched.now }
    requires entry { entry < length watched.now }
    ensures { IsTrue result ↔ IsPair clauses.now watched.now entry }
{
    let two = clauses.get(entry / 2).len() == 2;
    two && is_other(watched[entry], watched[partner(entry)])
}

/// The chain to which the entry goes: the last one where its clause has two literals, and the other literal is appended; else the spare
/// one.
fn chain_for(
    clauses: &FlatClauses,
    watched: &[Code],
    entry: usize,
    spare: usize,
    others: &mut Vec<Code>,
) -> usize
    requires inside { AreInside clauses.now watched.now }
    requires entry { entry < length watched.now }
    requires room { length others.old.items < vec_capacity others.old }
    requires spare { spare ≤ 2000000 }
    ensures room { vec_capacity others.new ≡ vec_capacity others.old }
    ensures chain { IsSent clauses.now watched.now entry spare others.old.items others.new.items result }
{
    if !is_pair(clauses, watched, entry) {
        return spare;
    }
    others.push_reserved(watched[partner(entry)]);
    spare + 1
}

/// Appends the row of the slot, and leaves in its chain the entries of clauses that aren't of two literals.
pub(crate) fn sort_chain(
    clauses: &FlatClauses,
    watched: &[Code],
    heads: &mut [usize],
    next: &mut [usize],
    slot: usize,
    variables: usize,
    others: &mut Vec<Code>,
)
    requires inside { AreInside clauses.now watched.now }
    requires sorted { IsSorted clauses.now variables watched.now slot (length others.old.items) heads.old next.old }
    requires below { All (IsBelow variables) watched.now }
    requires slot { slot < 2 * variables }
    requires few { variables ≤ 1000000 }
    requires room { length watched.now ≤ vec_capacity others.old }
    ensures room { vec_capacity others.new ≡ vec_capacity others.old }
    ensures sorted { IsSorted clauses.now variables watched.now (slot + 1) (length others.new.items) heads.new next.new }
    ensures row { HasRow clauses.now watched.now slot others.old.items others.new.items }
{
    let spare = 2 * variables;
    while heads[slot] != NOTHING {
        let entry = heads[slot];
        let to = chain_for(clauses, watched, entry, spare, others);
        shift(heads, next, slot, to);
    }
    heads[slot] = heads[spare];
    heads[spare] = NOTHING;
}
