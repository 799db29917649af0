//! What is still to do: a range of positions that is asked, and the halves that wait behind it.
ghost use Rattle.std.specs.Prelude.{◌≡◌, ℕ, ◌+◌, ◌<◌, ◌≤◌, ◌++◌, [], true, false, reverse, IfOk};
ghost use Rattle.pref_sets.specs.Plan.{after_answer};
ghost use Rattle.pref_sets.specs.Positions.{range};
ghost use Rattle.req_keys.specs.Key.{empty_key};
ghost use Rattle.req_keys.specs.Positions.{RiseWithin};
ghost use Rattle.req_keys.specs.Wanting.{key_over};
ghost use Rattle.fast_diag.specs.inside.Remaining.{AsksRange, IsPart, StandsAt, left_of, part_plan, remaining, waiting, with_waiting};
ghost use Rattle.fast_diag.specs.inside.Turns.{IsTurn};

use lists::Row;
use req_keys::Key;
use std::alloc::{AllocError, Global};

/// An upper half that waits until its lower half is done.
#[derive(Clone, Copy)]
pub(crate) struct Half {
    pub before: u32,
    pub length: u32,
    /// How many positions are kept then if all of the lower half are. The upper half can't be Sat with them.
    pub whole: u32,
}

/// A range of positions that is asked behind what is kept, and the halves that wait, the next one last.
#[derive(Drop)]
pub(crate) struct Asking {
    pub kept: Key,
    /// What is kept and the range.
    pub asked: Key,
    pub before: u32,
    pub length: u32,
    pub halves: Row<Half>,
}

/// A range is asked, or all is done and this is kept.
#[derive(Drop)]
pub(crate) enum Part {
    Asks(Asking),
    Done(Key),
}

/// A half whose turn it is, and whether it is known to be Unsat.
#[derive(Clone, Copy)]
pub(crate) struct Turn {
    pub before: u32,
    pub length: u32,
    pub known: bool,
}

impl Part {
    /// The whole of n positions, which is known to be Unsat.
    pub fn start(alloc: Global, n: u32) -> Result<Part, AllocError>
        requires some { 1 ≤ n }
        requires most { n ≤ 4096 }
        ensures parts { IfOk result (IsPart n) }
        ensures plan { IfOk result (λ part. remaining part ≡ part_plan [] 0 n true) }
    {
        let kept = Key::empty(alloc, n)?;
        if n == 1 {
            return Ok(Part::Done(kept));
        }
        divide(alloc, kept, 0, n, Row::new(alloc))
    }

    /// An equal part.
    pub fn copy(&self, alloc: Global) -> Result<Part, AllocError>
        ensures { IfOk result (λ part. part ≡ self.now) }
    {
        match self {
            Part::Asks(asking) => Ok(Part::Asks(asking.copy(alloc)?)),
            Part::Done(kept) => Ok(Part::Done(kept.copy()?)),
        }
    }
}

impl Asking {
    /// What is still to do after the answer to the asked key.
    pub fn after(&self, alloc: Global, sat: bool) -> Result<Part, AllocError>
        requires { AsksRange self.now.kept.n self.now }
        ensures parts { IfOk result (IsPart self.now.kept.n) }
        ensures plan { IfOk result (λ part. remaining part ≡ after_answer sat (left_of self.now)) }
    {
        let at = self.before + self.length;
        let halves = with_room(alloc, self.halves.as_slice())?;
        if sat {
            let all = self.asked.copy()?;
            return settle(alloc, all, at, halves);
        }
        let kept = self.kept.copy()?;
        if self.length == 1 {
            return settle(alloc, kept, at, halves);
        }
        divide(alloc, kept, self.before, self.length, halves)
    }

    /// The same range, asked behind the same keys.
    pub fn copy(&self, alloc: Global) -> Result<Asking, AllocError>
        ensures { IfOk result (λ asking. asking ≡ self.now) }
    {
        Ok(Asking {
            kept: self.kept.copy()?,
            asked: self.asked.copy()?,
            before: self.before,
            length: self.length,
            halves: Row::from_slice(alloc, self.halves.as_slice())?,
        })
    }
}

/// The items, with room for one more.
pub(crate) fn with_room<T: Copy>(alloc: Global, items: &[T]) -> Result<Row<T>, AllocError>
    ensures { IfOk result (λ row. row ≡ items.now) }
{
    let mut all = Vec::with_capacity(alloc, items.len().saturating_add(1))?;
    all.extend_from_slice(items)?;
    Ok(Row::from_vec(all))
}

/// The key and the range of positions above its members.
fn with_range(alloc: Global, kept: &Key, before: u32, length: u32) -> Result<Key, AllocError>
    requires most { kept.now.n ≤ 4096 }
    requires within { before + length ≤ kept.now.n }
    requires below { RiseWithin 0 before kept.now.members }
    ensures { IfOk result (λ key. key ≡ key_over kept.now.n (kept.now.members ++ range before length)) }
{
    let range = Key::range(alloc, kept.n(), before, length)?;
    kept.union(&range)
}

/// The range is asked.
fn ask(
    alloc: Global,
    kept: Key,
    before: u32,
    length: u32,
    halves: Row<Half>,
) -> Result<Part, AllocError>
    requires some { 0 < length }
    requires below { RiseWithin 0 before kept.members }
    requires place { StandsAt kept.n (before + length) kept halves }
    ensures parts { IfOk result (IsPart kept.n) }
    ensures plan { IfOk result (λ part. remaining part ≡ with_waiting kept.members before length false halves) }
{
    let asked = with_range(alloc, &kept, before, length)?;
    Ok(Part::Asks(Asking {
        kept,
        asked,
        before,
        length,
        halves,
    }))
}

/// The range is known to be Unsat: its lower half is asked, and its upper half waits.
fn divide(
    alloc: Global,
    kept: Key,
    before: u32,
    length: u32,
    mut halves: Row<Half>,
) -> Result<Part, AllocError>
    requires some { 2 ≤ length }
    requires below { RiseWithin 0 before kept.members }
    requires place { StandsAt kept.n (before + length) kept halves }
    ensures parts { IfOk result (IsPart kept.n) }
    ensures plan { IfOk result (λ part. remaining part ≡ with_waiting kept.members before length true halves) }
{
    let half = length / 2;
    let asked = with_range(alloc, &kept, before, half)?;
    halves.push(Half {
        before: before + half,
        length: length - half,
        whole: kept.len() + half,
    })?;
    Ok(Part::Asks(Asking {
        kept,
        asked,
        before,
        length: half,
        halves,
    }))
}

/// The next half that isn't done at once. A single position that is known to be Unsat is: it isn't kept.
fn next_turn(kept: &Key, halves: &mut Row<Half>, at: u32) -> Option<Turn>
    requires place { StandsAt kept.now.n at kept.now halves.old }
    ensures { IsTurn kept.now at halves.old halves.new result }
{
    while !halves.is_empty() {
        let last = halves.len() - 1;
        let half = *halves.get(last);
        halves.truncate(last);
        let known = kept.len() == half.whole;
        if !known || half.length > 1 {
            return Some(Turn {
                before: half.before,
                length: half.length,
                known,
            });
        }
    }
    None
}

/// A range is done, up to position `at`: the halves that wait are next.
fn settle(alloc: Global, kept: Key, at: u32, mut halves: Row<Half>) -> Result<Part, AllocError>
    requires place { StandsAt kept.n at kept halves }
    ensures parts { IfOk result (IsPart kept.n) }
    ensures plan { IfOk result (λ part. remaining part ≡ waiting (reverse halves) kept.members) }
{
    match next_turn(&kept, &mut halves, at) {
        None => Ok(Part::Done(kept)),
        Some(turn) => {
            if turn.known {
                divide(alloc, kept, turn.before, turn.length, halves)
            } else {
                ask(alloc, kept, turn.before, turn.length, halves)
            }
        }
    }
}
