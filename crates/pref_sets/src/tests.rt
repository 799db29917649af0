//! A test of sets that holds a `&mut`, as a caller's may, and counts how often it is asked.
ghost use Rattle.std.specs.Prelude.{◌≡◌, ◌↔◌, ◌⊎◌, ◌≤◌, ℕ, List, [], ◌∷◌, ◌++◌, length, true, false, None, All, Contains, IsTrue, IfOk};
ghost use Rattle.std.proofs.Common.{refl, sym, ◌∙◌, inl, inr, ⊎_elim};
ghost use Rattle.std.proofs.lemmas.List.Elements.{All-weaker};
ghost use Rattle.std.specs.List.Sorted.{IsStrictlyIncreasing};
ghost use Rattle.pref_sets.specs.Answers.{Answer, AgreesWith, IsToldInTurn, Ask, Done, answer_to};
ghost use Rattle.pref_sets.specs.FastDiag.{fd, fd_behind};
ghost use Rattle.pref_sets.specs.Kept.{IsKept};
ghost use Rattle.pref_sets.specs.Preferred.{IsDistinct, IsPreferredConflictTo, IsWithin};
ghost use Rattle.pref_sets.specs.QuickXplain.{qx};
ghost use Rattle.pref_sets.specs.Trimmed.{IsTrimmed};

use crate::laws::{Property, kept_set_is_maximal, trimmed_set_is_minimal};
use crate::recursions::{
    answers_in_turn, fd_asks_new_sets, fd_behind_asks_new_sets, fd_behind_ends, fd_goes_by_places,
    fd_is_kept, fd_over_more_answers, qx_asks_new_sets, qx_is_trimmed, qx_over_more_answers,
    right_answers_agree,
};
use crate::trimming::{MonotoneTest, trim};
use lists::Numbers;
use std::alloc::{AllocError, Global};
use std::process::Abort;

/// Whether the set has all of `first`, or all of `second`.
#[derive(Drop)]
struct EitherOf<'a> {
    first: &'a [u32],
    second: &'a [u32],
    asks: &'a mut u64,
}

impl MonotoneTest for EitherOf<'_> {
    ghost yes = { λ test set. All (Contains set) test.first.now ⊎ All (Contains set) test.second.now };

    ghost stays = { λ before after. after.asks.ghost_name ≡ before.asks.ghost_name };

    ghost monotone = { λ test a b more holds.
        ⊎_elim
        (λ (first : All (Contains a) test.first.now). inl (All-weaker (Contains a) (Contains b) more test.first.now first))
        (λ (second : All (Contains a) test.second.now). inr (All-weaker (Contains a) (Contains b) more test.second.now second))
        holds };

    ghost reflexive = { λ test. refl };

    ghost transitive = { λ a b c first second. second ∙ first };

    fn holds(&mut self, set: &[u32]) -> Result<bool, AllocError> {
        *self.asks = self.asks.saturating_add(1);
        Ok(has_all(self.first, set) || has_all(self.second, set))
    }
}

fn has_all(needed: &[u32], set: &[u32]) -> bool
    ensures { IsTrue result ↔ All (Contains set.now) needed.now }
{
    for item in needed {
        if !set.contains(item) {
            return false;
        }
    }
    true
}

/// The numbers 1, 2, .., n.
fn numbers_to(alloc: Global, n: u32) -> Result<Vec<u32>, AllocError>
    requires { n ≤ 4096 }
    ensures { IfOk result (λ numbers. IsDistinct numbers.items) }
{
    let mut numbers = Vec::new(alloc);
    for i in 0..n {
        numbers.push(i + 1)?;
    }
    Ok(numbers)
}

/// Trims 1, .., n, among which all of `first` are, by the test, and compares what stays, and the number of asks with its bound.
fn check_trim(
    rt: &impl Abort,
    alloc: Global,
    n: u32,
    first: &[u32],
    second: &[u32],
    stays: &[u32],
    most: u64,
) -> Result<(), AllocError>
    requires { n ≤ 4096 }
{
    let items = numbers_to(alloc, n)?;
    let numbers = items.as_slice();
    if !has_all(first, numbers) {
        return Err(AllocError);
    }
    let mut asks = 0u64;
    let mut test = EitherOf {
        first,
        second,
        asks: &mut asks,
    };
    let left = trim(alloc, &mut test, numbers)?;
    assert!(rt; left.as_slice() == stays, "of {n}");
    assert!(rt; asks <= most, "{asks} asks of {n}");
    Ok(())
}

#[test]
fn trims_as_by_hand(rt: HostRuntime) -> Result<(), AllocError> {
    check_trim(&rt, rt.alloc(), 3, &[1], &[2, 3], &[1], 6)?;
    check_trim(&rt, rt.alloc(), 3, &[3], &[3], &[3], 6)?;
    check_trim(&rt, rt.alloc(), 3, &[], &[2], &[], 1)?;
    check_trim(&rt, rt.alloc(), 4, &[1, 3], &[2, 4], &[1, 3], 8)?;
    // Three of 1,024 stay: twice 3 * (1 + log2(1024 / 3)) is 57, and one by one it would be 1,024.
    check_trim(
        &rt,
        rt.alloc(),
        1024,
        &[10, 500, 1000],
        &[10, 500, 1000],
        &[10, 500, 1000],
        57,
    )
}

#[test]
fn lists_grow(rt: HostRuntime) -> Result<(), AllocError> {
    let mut numbers = Numbers::new(rt.alloc());
    assert!(rt; numbers.is_empty());
    numbers.push(7)?;
    numbers.push(9)?;
    assert!(rt; numbers.len() == 2);
    assert!(rt; *numbers.get(1) == 9);
    Ok(())
}

/// Two positions that don't go together.
struct Apart {
    first: u32,
    second: u32,
}

impl Property for Apart {
    ghost holds = { λ about set. ¬ (Contains set about.first × Contains set about.second) };
}

/// The laws as a caller has them, for a property that a value gives.
fn recursions_of(apart: &Apart)
    ensures kept { (kept : List ℕ) (table : List Answer) →
        IsStrictlyIncreasing (apart.now.first ∷ apart.now.second ∷ []) →
        AgreesWith (λ set. ¬ (Contains set apart.now.first × Contains set apart.now.second)) table →
        fd (apart.now.first ∷ apart.now.second ∷ []) table ≡ Done kept →
        IsKept (λ set. ¬ (Contains set apart.now.first × Contains set apart.now.second)) (apart.now.first ∷ apart.now.second ∷ []) kept }
    ensures trimmed { (left : List ℕ) (table : List Answer) →
        IsStrictlyIncreasing (apart.now.first ∷ apart.now.second ∷ []) →
        ¬ (Contains [] apart.now.first × Contains [] apart.now.second) →
        AgreesWith (λ set. ¬ (Contains set apart.now.first × Contains set apart.now.second)) table →
        qx (apart.now.first ∷ apart.now.second ∷ []) table ≡ Done left →
        IsTrimmed (λ set. ¬ (¬ (Contains set apart.now.first × Contains set apart.now.second))) (apart.now.first ∷ apart.now.second ∷ []) left }
    ensures told { AgreesWith (λ set. ¬ (Contains set apart.now.first × Contains set apart.now.second)) [] }
    ensures lacks { (kept : List ℕ) (table : List Answer) →
        IsStrictlyIncreasing (apart.now.first ∷ apart.now.second ∷ []) →
        AgreesWith (λ set. ¬ (Contains set apart.now.first × Contains set apart.now.second)) table →
        fd (apart.now.first ∷ apart.now.second ∷ []) table ≡ Done kept →
        ¬ (Contains kept apart.now.first × Contains kept apart.now.second) }
    ensures preferred { (left other : List ℕ) (table : List Answer) →
        IsStrictlyIncreasing (apart.now.first ∷ apart.now.second ∷ []) →
        AgreesWith (λ set. ¬ (Contains set apart.now.first × Contains set apart.now.second)) table →
        qx (apart.now.first ∷ apart.now.second ∷ []) table ≡ Done left →
        Contains other apart.now.first × Contains other apart.now.second →
        IsWithin other (apart.now.first ∷ apart.now.second ∷ []) →
        ¬ IsPreferredConflictTo (apart.now.first ∷ apart.now.second ∷ []) other left }
{
    fd_is_kept::<Apart>();
    qx_is_trimmed::<Apart>();
    right_answers_agree::<Apart>();
}

/// Answers that other parts are told don't change what a recursion asks: neither ever asks what is known at its start,
/// and one that asks goes on asking the same.
fn asks_beside_others()
    ensures fd { (positions asked : List ℕ) (told more : List Answer) → fd positions told ≡ Ask asked →
        answer_to (told ++ more) asked ≡ None → fd positions (told ++ more) ≡ Ask asked }
    ensures qx { (positions left : List ℕ) (told more : List Answer) → qx positions told ≡ Done left →
        qx positions (told ++ more) ≡ Done left }
    ensures never { (positions : List ℕ) (table : List Answer) → IsStrictlyIncreasing positions →
        (¬ fd positions table ≡ Ask []) × (¬ qx positions table ≡ Ask positions) }
{
    fd_over_more_answers();
    qx_over_more_answers();
    fd_asks_new_sets();
    qx_asks_new_sets();
}

/// FastDiag asks the same where the answers on all positions and on the empty set were told before its own.
fn asks_after_the_first_two()
    ensures { (positions asked : List ℕ) (told : List Answer) → IsStrictlyIncreasing positions →
        IsToldInTurn (fd positions) [] told → fd positions told ≡ Ask asked →
        fd positions (record { set = positions; sat = false } ∷ record { set = []; sat = true } ∷ told) ≡ Ask asked }
{
    answers_in_turn();
    fd_over_more_answers();
    fd_asks_new_sets();
}

/// FastDiag of the positions 3 and 5 behind 4: it asks 3 with 4 first, and at most two sets, each with 3 or 5.
fn asks_behind_four()
    ensures first { (table : List Answer) → answer_to table (3 ∷ 4 ∷ []) ≡ None →
        fd_behind table (3 ∷ 5 ∷ []) (4 ∷ []) true ≡ Ask (3 ∷ 4 ∷ []) }
    ensures two { (start told : List Answer) →
        IsToldInTurn (λ table. fd_behind table (3 ∷ 5 ∷ []) (4 ∷ []) true) start told → length told ≤ 2 }
    ensures some { (table : List Answer) → ¬ fd_behind table (3 ∷ 5 ∷ []) (4 ∷ []) true ≡ Ask (4 ∷ []) }
{
    fd_goes_by_places();
    fd_behind_ends();
    fd_behind_asks_new_sets();
}

/// The kept set of items that don't go together lacks one of them, and a set that lacks one and has all of it has no
/// other of the items.
fn relaxation_of(apart: &Apart)
    ensures lacks { (items kept : List ℕ) →
        IsKept (λ set. ¬ (Contains set apart.now.first × Contains set apart.now.second)) items kept →
        ¬ (Contains kept apart.now.first × Contains kept apart.now.second) }
    ensures maximal { (items kept other : List ℕ) →
        IsKept (λ set. ¬ (Contains set apart.now.first × Contains set apart.now.second)) items kept →
        ¬ (Contains other apart.now.first × Contains other apart.now.second) → IsWithin kept other →
        (item : ℕ) → Contains items item → Contains other item → Contains kept item }
{
    kept_set_is_maximal::<Apart>();
}

/// Two items that make a conflict together.
struct Together {
    first: u32,
    second: u32,
}

impl Property for Together {
    ghost holds = { λ about set. Contains set about.first × Contains set about.second };
}

/// The trimmed set of items among which both are has both, and each part of it with both is all of it.
fn conflict_of(together: &Together)
    ensures has_both { (items left : List ℕ) → IsDistinct items →
        Contains items together.now.first × Contains items together.now.second →
        IsTrimmed (λ set. Contains set together.now.first × Contains set together.now.second) items left →
        Contains left together.now.first × Contains left together.now.second }
    ensures minimal { (items left other : List ℕ) → IsDistinct items →
        IsTrimmed (λ set. Contains set together.now.first × Contains set together.now.second) items left →
        IsWithin other left → Contains other together.now.first × Contains other together.now.second →
        IsWithin left other }
{
    trimmed_set_is_minimal::<Together>();
}
