//! What was found so far: diagnoses, conflicts, and which conflict is whose label.
ghost use Rattle.std.specs.Prelude.{◌≡◌, ◌<◌, Some, None, length, IfOk, MatchOption};
ghost use Rattle.std.specs.List.{list_any};
ghost use Rattle.hs_tree.specs.Tree.{is_within, known_label};
ghost use Rattle.hs_tree.specs.inside.Places.{at_place, sets_of};
ghost use Rattle.hs_tree.specs.inside.Told.{AreOver};

use lists::Row;
use req_keys::{Key, Keys};
use std::alloc::{AllocError, Global};

/// What was found so far, each in the order of finding.
#[derive(Drop)]
pub(crate) struct Found {
    pub diagnoses: Keys,
    /// The known conflicts. The first is the one that was known from the start.
    pub conflicts: Keys,
    /// For each set that is done, of all levels so far, the place of the conflict that is its label.
    pub labels: Row<Option<usize>>,
}

/// Whether one of the diagnoses is within the set.
pub(crate) fn has_part(diagnoses: &[Key], set: &Key) -> bool
    requires { AreOver set.now.n diagnoses.now }
    ensures { result ≡ list_any (λ diagnosis. is_within diagnosis set.now.members) (sets_of diagnoses.now) }
{
    for diagnosis in diagnoses {
        if diagnosis.is_subset(set) {
            return true;
        }
    }
    false
}

/// The place of the first conflict that shares nothing with the set.
pub(crate) fn first_apart(conflicts: &[Key], set: &Key) -> Option<usize>
    requires { AreOver set.now.n conflicts.now }
    ensures { MatchOption result (known_label (sets_of conflicts.now) set.now.members ≡ None) (λ place.
        (place < length conflicts.now) × (known_label (sets_of conflicts.now) set.now.members ≡ Some (at_place (sets_of conflicts.now) place))) }
{
    for place in 0..conflicts.len() {
        if conflicts[place].is_disjoint(set) {
            return Some(place);
        }
    }
    None
}

/// A copy of the keys.
pub(crate) fn copied(alloc: Global, keys: &Keys) -> Result<Keys, AllocError>
    ensures { IfOk result (λ copy. copy ≡ keys.now) }
{
    let mut copy = Row::new(alloc);
    for key in keys.as_slice() {
        copy.push(key.copy()?)?;
    }
    Ok(copy)
}

impl Found {
    pub fn copy(&self, alloc: Global) -> Result<Found, AllocError>
        ensures { IfOk result (λ copy. copy ≡ self.now) }
    {
        let diagnoses = copied(alloc, &self.diagnoses)?;
        let conflicts = copied(alloc, &self.conflicts)?;
        let labels = Row::from_slice(alloc, self.labels.as_slice())?;
        Ok(Found {
            diagnoses,
            conflicts,
            labels,
        })
    }
}
