//! What is still to do: a range of places whose background is asked, and the halves that wait behind it.
ghost use Rattle.std.specs.Prelude.{◌≡◌, ℕ, ◌+◌, ◌-◌, ◌<◌, ◌≤◌, ◌++◌, ◌∷◌, [], true, false, length, reverse, IfOk, MatchOption};
ghost use Rattle.pref_sets.specs.Plan.{after_answer};
ghost use Rattle.req_keys.specs.Key.{IsKey};
ghost use Rattle.quick_xplain.specs.inside.Remaining.{AsksRange, IsPart, IsRange, StandsAt, left_of, part_plan, remaining, waiting, with_waiting};

use crate::among::Among;
use lists::Row;
use req_keys::Key;
use std::alloc::{AllocError, Global};

/// A lower half that waits until its upper half is done.
#[derive(Clone, Copy)]
pub(crate) struct Half {
    pub before: u32,
    pub length: u32,
    /// How many positions the conflict had when the upper half was begun.
    pub found: u32,
}

/// The background of a range of places is asked: the positions below the range, and the conflict so far, which is above
/// it. Halves wait, the next one last.
#[derive(Drop)]
pub(crate) struct Asking {
    pub conflict: Key,
    pub asked: Key,
    pub before: u32,
    pub length: u32,
    pub halves: Row<Half>,
}

/// A background is asked, or all is done and this is the conflict.
#[derive(Drop)]
pub(crate) enum Part {
    Asks(Asking),
    Done(Key),
}

impl Part {
    /// The whole of the start set, which is known to be Unsat.
    pub fn start(alloc: Global, among: &Among) -> Result<Part, AllocError>
        requires { 0 < length among.now.members }
        ensures key { IsKey among.now }
        ensures parts { IfOk result (IsPart among.now) }
        ensures plan { IfOk result (λ part. remaining among.now.members part ≡ part_plan [] among.now.members [] false) }
    {
        let conflict = Key::empty(alloc, among.n())?;
        descend(alloc, among, conflict, 0, among.len(), Row::new(alloc))
    }

    /// An equal part.
    pub fn copy(&self, alloc: Global) -> Result<Part, AllocError>
        ensures { IfOk result (λ part. part ≡ self.now) }
    {
        match self {
            Part::Asks(asking) => Ok(Part::Asks(asking.copy(alloc)?)),
            Part::Done(conflict) => Ok(Part::Done(conflict.copy()?)),
        }
    }
}

impl Asking {
    /// What is still to do after the answer to the asked key.
    pub fn after(&self, alloc: Global, among: &Among, sat: bool) -> Result<Part, AllocError>
        requires { AsksRange among.now self.now }
        ensures parts { IfOk result (IsPart among.now) }
        ensures plan { IfOk result (λ part. remaining among.now.members part ≡ after_answer sat (left_of among.now.members self.now)) }
    {
        let conflict = self.conflict.copy()?;
        let halves = with_room(alloc, self.halves.as_slice())?;
        if sat {
            return descend(alloc, among, conflict, self.before, self.length, halves);
        }
        settle(alloc, among, conflict, halves)
    }

    /// The same range, with the same background.
    pub fn copy(&self, alloc: Global) -> Result<Asking, AllocError>
        ensures { IfOk result (λ asking. asking ≡ self.now) }
    {
        Ok(Asking {
            conflict: self.conflict.copy()?,
            asked: self.asked.copy()?,
            before: self.before,
            length: self.length,
            halves: Row::from_slice(alloc, self.halves.as_slice())?,
        })
    }
}

/// The items, with room for one more.
pub(crate) fn with_room<T: Copy>(alloc: Global, items: &[T]) -> Result<Row<T>, AllocError>
    ensures { IfOk result (λ row. row ≡ items.now) }
{
    let mut all = Vec::with_capacity(alloc, items.len().saturating_add(1))?;
    all.extend_from_slice(items)?;
    Ok(Row::from_vec(all))
}

/// The background of the range is asked.
fn ask(
    alloc: Global,
    among: &Among,
    conflict: Key,
    before: u32,
    length: u32,
    halves: Row<Half>,
) -> Result<Part, AllocError>
    requires { IsRange among.now conflict before length halves }
    ensures parts { IfOk result (IsPart among.now) }
    ensures plan { IfOk result (λ part. remaining among.now.members part ≡ with_waiting among.now.members before length conflict.members true halves) }
{
    let below = among.below(alloc, before)?;
    let asked = below.union(&conflict)?;
    Ok(Part::Asks(Asking {
        conflict,
        asked,
        before,
        length,
        halves,
    }))
}

/// The background of the range isn't Unsat by itself. A single position belongs to the conflict. Of more, the upper half
/// is asked behind the lower one, and the lower one waits.
fn descend(
    alloc: Global,
    among: &Among,
    conflict: Key,
    before: u32,
    length: u32,
    mut halves: Row<Half>,
) -> Result<Part, AllocError>
    requires { IsRange among.now conflict before length halves }
    ensures parts { IfOk result (IsPart among.now) }
    ensures plan { IfOk result (λ part. remaining among.now.members part ≡ with_waiting among.now.members before length conflict.members false halves) }
{
    if length == 1 {
        let more = conflict.with(among.at(before))?;
        return resume(alloc, among, more, halves);
    }
    let half = length / 2;
    halves.push(Half {
        before,
        length: half,
        found: conflict.len(),
    })?;
    ask(alloc, among, conflict, before + half, length - half, halves)
}

/// The next half, which no longer waits.
fn take_next(halves: &mut Row<Half>) -> Option<Half>
    ensures { MatchOption result (halves.old ≡ []) (λ half. halves.old ≡ halves.new ++ half ∷ []) }
{
    if halves.is_empty() {
        return None;
    }
    let last = halves.len() - 1;
    let half = *halves.get(last);
    halves.truncate(last);
    Some(half)
}

/// A position was found since each of the halves began to wait: the next is asked.
fn resume(
    alloc: Global,
    among: &Among,
    conflict: Key,
    mut halves: Row<Half>,
) -> Result<Part, AllocError>
    requires some { 0 < length conflict.members }
    requires place { StandsAt among.now conflict (length conflict.members - 1) halves }
    ensures parts { IfOk result (IsPart among.now) }
    ensures plan { IfOk result (λ part. remaining among.now.members part ≡ waiting among.now.members (reverse halves) conflict.members) }
{
    match take_next(&mut halves) {
        None => Ok(Part::Done(conflict)),
        Some(half) => ask(alloc, among, conflict, half.before, half.length, halves),
    }
}

/// A range is done, and the next half is begun. It is asked if something of its upper half was found.
fn settle(
    alloc: Global,
    among: &Among,
    conflict: Key,
    mut halves: Row<Half>,
) -> Result<Part, AllocError>
    requires { StandsAt among.now conflict (length conflict.members) halves }
    ensures parts { IfOk result (IsPart among.now) }
    ensures plan { IfOk result (λ part. remaining among.now.members part ≡ waiting among.now.members (reverse halves) conflict.members) }
{
    match take_next(&mut halves) {
        None => Ok(Part::Done(conflict)),
        Some(half) => {
            if conflict.len() == half.found {
                descend(alloc, among, conflict, half.before, half.length, halves)
            } else {
                ask(alloc, among, conflict, half.before, half.length, halves)
            }
        }
    }
}
