//! What the two greedy sets are, in the words of sets.
ghost use Rattle.std.specs.Prelude.{◌≡◌, List, [], ℕ, Bool, Contains, IsTrue};
ghost use Rattle.pref_sets.specs.Kept.{IsKept, kept_of};
ghost use Rattle.pref_sets.specs.Preferred.{AgreeOn, IsWithin, IsDistinct, IsPreferredTo, IsPreferredConflictTo};
ghost use Rattle.pref_sets.specs.Properties.{PassesToFewer, PassesToMore};
ghost use Rattle.pref_sets.specs.Trimmed.{IsTrimmed, trimmed_of};

use std::marker::Brand;

/// A property of sets of items: any fact, computed or not. It may speak of a value, as 'consistent with this model' does.
pub trait Property {
    ghost holds: { Self → List ℕ → Type 0 };
}

/// For this type every set has the property.
impl Property for Brand {
    ghost holds = { λ _ _. Unit {0} };
}

/// There is at most one kept set.
pub fn kept_set_is_unique<P: Property>()
    ensures { (about : P) (items a b : List ℕ) → IsKept (P.holds about) items a → IsKept (P.holds about) items b → a ≡ b }
{}

/// There is at most one trimmed set.
pub fn trimmed_set_is_unique<P: Property>()
    ensures { (about : P) (items a b : List ℕ) → IsTrimmed (P.holds about) items a → IsTrimmed (P.holds about) items b → a ≡ b }
{}

/// For a test the kept set is computed.
pub fn kept_set_of_a_test()
    ensures { (test : List ℕ → Bool) (items : List ℕ) → IsKept (λ set. IsTrue (test set)) items (kept_of test items) }
{}

/// For a test the trimmed set is computed.
pub fn trimmed_set_of_a_test()
    ensures { (test : List ℕ → Bool) (items : List ℕ) → IsTrimmed (λ set. IsTrue (test set)) items (trimmed_of test items) }
{}

/// The kept set for a property that passes to fewer members, as 'consistent'. It has the property where the empty set
/// has it, and no item can be added to it: a set with the property that has all of it has no other of the items. No set with the property is
/// lexicographically preferred to it, and it alone has that: it is the preferred relaxation (Junker 2004).
pub fn kept_set_is_maximal<P: Property>()
    ensures holds { (about : P) (items kept : List ℕ) → P.holds about [] →
        IsKept (P.holds about) items kept → P.holds about kept }
    ensures preferred { (about : P) (items kept : List ℕ) → PassesToFewer (P.holds about) →
        IsKept (P.holds about) items kept →
        (other : List ℕ) → P.holds about other → ¬ IsPreferredTo items other kept }
    ensures only { (about : P) (items kept : List ℕ) → PassesToFewer (P.holds about) → P.holds about [] →
        IsKept (P.holds about) items kept →
        (other : List ℕ) → P.holds about other →
        ((third : List ℕ) → P.holds about third → ¬ IsPreferredTo items third other) → AgreeOn items other kept }
    ensures maximal { (about : P) (items kept : List ℕ) → PassesToFewer (P.holds about) →
        IsKept (P.holds about) items kept →
        (other : List ℕ) → P.holds about other → IsWithin kept other →
        (item : ℕ) → Contains items item → Contains other item → Contains kept item }
{}

/// The trimmed set for a property that passes to more members, as 'not consistent'. Of items with the property it has
/// it, and nothing can leave: a part of it with the property is all of it. No other of the items with the property are
/// preferred to it as a conflict, and it alone has that: it is the preferred conflict (Junker 2004).
pub fn trimmed_set_is_minimal<P: Property>()
    ensures holds { (about : P) (items left : List ℕ) → PassesToMore (P.holds about) → IsDistinct items →
        P.holds about items → IsTrimmed (P.holds about) items left → P.holds about left }
    ensures preferred { (about : P) (items left : List ℕ) → PassesToMore (P.holds about) → IsDistinct items →
        IsTrimmed (P.holds about) items left →
        (other : List ℕ) → P.holds about other → IsWithin other items → ¬ IsPreferredConflictTo items other left }
    ensures only { (about : P) (items left : List ℕ) → PassesToMore (P.holds about) → IsDistinct items →
        P.holds about items → IsTrimmed (P.holds about) items left →
        (other : List ℕ) → P.holds about other → IsWithin other items →
        ((third : List ℕ) → P.holds about third → IsWithin third items → ¬ IsPreferredConflictTo items third other) →
        AgreeOn items other left }
    ensures minimal { (about : P) (items left : List ℕ) → PassesToMore (P.holds about) → IsDistinct items →
        IsTrimmed (P.holds about) items left →
        (other : List ℕ) → IsWithin other left → P.holds about other → IsWithin left other }
{}
