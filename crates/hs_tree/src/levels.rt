//! The levels: the sets of one, one after the other, and the next one.
ghost use Rattle.std.specs.Prelude.{◌≡◌, ◌+◌, ◌<◌, ◌≤◌, ◌-◌, List, [], ℕ, Some, length, IfOk, OnOk};
ghost use Rattle.pref_sets.specs.Answers.{Answer};
ghost use Rattle.req_keys.specs.Key.{IsKey};
ghost use Rattle.hs_tree.specs.Tree.{levels, with_children};
ghost use Rattle.hs_tree.specs.inside.Left.{IsHere, IsIn, IsOnlyLast, from_place, left, level_left, next_at, place_at, standing_at};
ghost use Rattle.hs_tree.specs.inside.Places.{sets_of};
ghost use Rattle.hs_tree.specs.inside.Steps.{Grows, standing, with_label};
ghost use Rattle.hs_tree.specs.inside.Told.{AreOver, AreToldOver, HasAll, IsOver, answers_of};

use crate::found::{Found, copied};
use crate::sets::{Asking, one_set};
use crate::told::Told;
use lists::Row;
use req_keys::{Key, Keys};
use std::alloc::{AllocError, Global};
use std::collections::BTreeSet;

/// A level. Its sets stand in order.
#[derive(Drop)]
pub(crate) struct Level {
    /// The number of positions.
    pub n: u32,
    pub sets: Keys,
    /// How many sets the levels above it have.
    pub before: usize,
    /// How many levels there may be behind it.
    pub left: u32,
}

impl Level {
    pub fn copy(&self, alloc: Global) -> Result<Level, AllocError>
        ensures { IfOk result (λ copy. copy ≡ self.now) }
    {
        let sets = copied(alloc, &self.sets)?;
        Ok(Level {
            n: self.n,
            sets,
            before: self.before,
            left: self.left,
        })
    }
}

/// The sets that come from one: with each position of its label.
fn add_children(next: &mut BTreeSet<Key>, set: &Key, label: &Key) -> Result<(), AllocError>
    requires next { AreOver set.now.n next.old.keys }
    requires set { IsKey set.now }
    requires label { IsOver set.now.n label.now }
    ensures over { OnOk result (AreOver set.now.n next.new.keys) }
    ensures sets { OnOk result (sets_of next.new.keys ≡ with_children set.now.members label.now.members (sets_of next.old.keys)) }
{
    let positions = label.positions()?;
    for position in positions.as_slice() {
        let child = set.with(*position)?;
        next.insert(child)?;
    }
    Ok(())
}

/// The sets that come from one that is done, where it has a label.
fn add_done(
    next: &mut BTreeSet<Key>,
    set: &Key,
    label: Option<usize>,
    conflicts: &Keys,
) -> Result<(), AllocError>
    requires next { AreOver set.now.n next.old.keys }
    requires set { IsKey set.now }
    requires label { (place : ℕ) → label ≡ Some place → place < length conflicts.now }
    requires conflicts { AreOver set.now.n conflicts.now }
    ensures over { OnOk result (AreOver set.now.n next.new.keys) }
    ensures sets { OnOk result (sets_of next.new.keys ≡ with_label (sets_of conflicts.now) set.now.members label (sets_of next.old.keys)) }
{
    match label {
        Some(place) => add_children(next, set, conflicts.get(place)),
        None => Ok(()),
    }
}

/// The keys as a list.
fn in_order(alloc: Global, mut sets: BTreeSet<Key>) -> Result<Keys, AllocError>
    ensures { IfOk result (λ keys. keys ≡ sets.keys) }
{
    let mut keys = Row::new(alloc);
    while let Some(key) = sets.pop_first() {
        keys.push(key)?;
    }
    Ok(keys)
}

/// The sets of the next level, when all sets of this one are done.
fn children(alloc: Global, level: &Level, found: &Found) -> Result<Keys, AllocError>
    requires inside { IsIn level.now found.now }
    requires done { length found.now.labels ≡ level.now.before + length level.now.sets }
    ensures sets { IfOk result (λ keys. sets_of keys ≡ next_at level.now found.now) }
    ensures over { IfOk result (AreOver level.now.n) }
{
    let mut next = BTreeSet::new(alloc);
    for place in level.before..found.labels.len() {
        let set = level.sets.get(place - level.before);
        let label = *found.labels.get(place);
        add_done(&mut next, set, label, &found.conflicts)?;
    }
    let keys = in_order(alloc, next)?;
    Ok(keys)
}

/// The sets of the level that aren't done, until one asks.
pub(crate) fn one_level(
    alloc: Global,
    told: &Told,
    found: &mut Found,
    level: &Level,
) -> Result<Option<Asking>, AllocError>
    requires inside { IsIn level.now found.old }
    requires told { AreToldOver level.now.n told.now }
    ensures grows { Grows found.old found.new }
    ensures inside { OnOk result (IsIn level.now found.new) }
    ensures here { IfOk result (IsHere (answers_of told.now) level.now found.new) }
    ensures goes { IfOk result (λ asking. (table : List Answer) → HasAll (answers_of told.now) table →
        from_place table level.now (place_at level.now found.old) (standing_at level.now found.old) ≡ level_left table level.now found.new asking) }
{
    for place in found.labels.len() - level.before..level.sets.len() {
        let set = level.sets.get(place);
        match one_set(alloc, told, found, level.left == 0, set)? {
            Some(asking) => return Ok(Some(asking)),
            None => {}
        }
    }
    Ok(None)
}

/// Where the tree stands: in a level, with a set that asks, or all is done.
#[derive(Drop)]
pub(crate) struct Place {
    pub level: Level,
    pub asking: Option<Asking>,
}

/// The level behind one that is done.
pub(crate) fn next_level(alloc: Global, found: &Found, level: &Level) -> Result<Level, AllocError>
    requires inside { IsIn level.now found.now }
    requires done { length found.now.labels ≡ level.now.before + length level.now.sets }
    requires more { 0 < level.now.left }
    ensures sets { IfOk result (λ next. sets_of next.sets ≡ next_at level.now found.now) }
    ensures inside { IfOk result (λ next. IsIn next found.now) }
    ensures before { IfOk result (λ next. next.before ≡ length found.now.labels) }
    ensures left { IfOk result (λ next. next.left + 1 ≡ level.now.left) }
    ensures n { IfOk result (λ next. next.n ≡ level.now.n) }
{
    let sets = children(alloc, level, found)?;
    Ok(Level {
        n: level.n,
        sets,
        before: found.labels.len(),
        left: level.left - 1,
    })
}

/// The level and those behind it, until a set asks.
pub(crate) fn from_level(
    alloc: Global,
    told: &Told,
    found: &mut Found,
    level: Level,
) -> Result<Place, AllocError>
    requires inside { IsIn level found.old }
    requires start { level.before ≡ length found.old.labels }
    requires told { AreToldOver level.n told.now }
    ensures grows { Grows found.old found.new }
    ensures inside { IfOk result (λ place. IsIn place.level found.new) }
    ensures here { IfOk result (λ place. IsHere (answers_of told.now) place.level found.new place.asking) }
    ensures n { IfOk result (λ place. place.level.n ≡ level.n) }
    ensures last { IfOk result (λ place. IsOnlyLast place.level place.asking) }
    ensures goes { IfOk result (λ place. (table : List Answer) → HasAll (answers_of told.now) table →
        levels level.n table level.left (sets_of level.sets) (standing found.old []) ≡ left table place.level found.new place.asking) }
{
    let mut level = level;
    let mut asking = one_level(alloc, told, found, &level)?;
    'levels: while asking.is_none() && level.left > 0 {
        level = next_level(alloc, found, &level)?;
        asking = one_level(alloc, told, found, &level)?;
    }
    Ok(Place { level, asking })
}
