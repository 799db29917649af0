//! Trimming by divide and conquer, after QuickXplain (Junker 2004).
ghost use Rattle.std.specs.Prelude.{◌≡◌, ◌↔◌, ℕ, List, ◌++◌, IsTrue, IsFalse, IfOk, OnOk};
ghost use Rattle.pref_sets.specs.Preferred.{IsWithin, IsDistinct};
ghost use Rattle.pref_sets.specs.Trimmed.{IsTrimmed};
ghost use Rattle.pref_sets.specs.inside.TrimmedBehind.{IsTrimmedBehind};

use lists::Numbers;
use std::alloc::{AllocError, Global};

/// A test of sets of items that keeps holding when a set gets more members.
pub trait MonotoneTest {
    /// Whether a set meets the test. A set is the list of its members.
    ghost yes: { Self → List ℕ → Type 0 };

    /// What an earlier and a later state have in common, whatever was asked in between.
    ghost stays: { Self → Self → Type 0 };

    fn holds(&mut self, set: &[u32]) -> Result<bool, AllocError>
        ensures answer { IfOk result (λ answer. IsTrue answer ↔ yes self.old set.now) }
        ensures yes { (set : List ℕ) → yes self.new set ↔ yes self.old set }
        ensures stays { stays self.old self.new };

    ghost monotone: { (test : Self) (a b : List ℕ) → IsWithin a b → yes test a → yes test b };

    ghost reflexive: { (test : Self) → stays test test };

    ghost transitive: { (a b c : Self) → stays a b → stays b c → stays a c };
}

/// The trimmed set of the items: from the last item to the first, an item leaves where the test still holds of the
/// rest. It is meant to ask on the order of r * (1 + log2(m / r)) times for m items of which r stay; a test shows that.
pub fn trim<T: MonotoneTest>(
    alloc: Global,
    test: &mut T,
    items: &[u32],
) -> Result<Numbers, AllocError>
    requires distinct { IsDistinct items.now }
    requires yes { T.yes test.old items.now }
    ensures trimmed { IfOk result (λ left. IsTrimmed (T.yes test.old) items.now left) }
    ensures yes { (set : List ℕ) → T.yes test.new set ↔ T.yes test.old set }
    ensures stays { T.stays test.old test.new }
{
    let mut background = Vec::new(alloc);
    let left = trim_behind(alloc, test, &mut background, true, items)?;
    Ok(Numbers::from_vec(left))
}

/// Whether the test holds of the set. Where that it fails is known, which is not `unsure`, nothing is asked.
fn meets<T: MonotoneTest>(test: &mut T, set: &[u32], unsure: bool) -> Result<bool, AllocError>
    requires sure { IsFalse unsure → ¬ T.yes test.old set.now }
    ensures answer { IfOk result (λ answer. IsTrue answer ↔ T.yes test.old set.now) }
    ensures yes { (set : List ℕ) → T.yes test.new set ↔ T.yes test.old set }
    ensures stays { T.stays test.old test.new }
{
    if unsure { test.holds(set) } else { Ok(false) }
}

/// What stays of the items behind a background. Where it isn't known that the test fails of the background alone,
/// `unsure`, that is asked first.
fn trim_behind<T: MonotoneTest>(
    alloc: Global,
    test: &mut T,
    background: &mut Vec<u32>,
    unsure: bool,
    items: &[u32],
) -> Result<Vec<u32>, AllocError>
    requires yes { T.yes test.old (background.old.items ++ items.now) }
    requires sure { IsFalse unsure → ¬ T.yes test.old background.old.items }
    ensures left { IfOk result (λ left. IsTrimmedBehind (T.yes test.old) background.old.items items.now left.items) }
    ensures background { OnOk result (background.new.items ≡ background.old.items) }
    ensures yes { (set : List ℕ) → T.yes test.new set ↔ T.yes test.old set }
    ensures stays { T.stays test.old test.new }
{
    if meets(test, background, unsure)? {
        return Ok(Vec::new(alloc));
    }
    if items.len() < 2 {
        let mut left = Vec::new(alloc);
        left.extend_from_slice(items)?;
        return Ok(left);
    }
    let (first, second) = items.split_at(items.len() / 2);
    let mark = background.len();
    background.extend_from_slice(first)?;
    let late = trim_behind(alloc, test, background, true, second)?;
    background.truncate(mark);
    background.extend_from_slice(&late)?;
    let mut left = trim_behind(alloc, test, background, !late.is_empty(), first)?;
    background.truncate(mark);
    left.extend_from_slice(&late)?;
    Ok(left)
}
