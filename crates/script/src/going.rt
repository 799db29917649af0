//! A recursion that goes on over what was told to the whole job, as far as that answers it.
ghost use Rattle.std.specs.Prelude.{◌≡◌, ◌<◌, ◌++◌, [], ◌∷◌, ℕ, List, None, IfOk, OnOk, MatchOption};
ghost use Rattle.pref_sets.specs.Answers.{Answer, Next, Ask, IsAsking, answer_to};
ghost use Rattle.pref_sets.specs.AskedKey.{asked_key};
ghost use Rattle.req_keys.specs.Key.{PositionSet};
ghost use Rattle.req_keys.specs.Wanting.{key_over, wanted_key};
ghost use Rattle.script.specs.Job.{answers_of, verdict_in};
ghost use Rattle.script.specs.inside.Going.{HasAll, IsHalted, IsSaid, IsTable, lacking, told_beside};

use crate::beside::Beside;
use req_keys::{Key, Verdict, Want};
use std::alloc::AllocError;

/// A recursion as a state that is told answers one by one.
pub(crate) trait Recursion: Drop + Sized {
    /// What the recursion began with: a set of its positions, and the greatest size of a diagnosis.
    ghost start: { Self → PositionSet × ℕ };

    /// What the recursion asks or finds over a table.
    ghost next: { Self → List Answer → Next };

    /// The told answers.
    ghost answers: { Self → List Answer };

    /// The key whose verdict is wanted.
    fn asks(&self) -> Want<'_>
        ensures asks { wanted_key result ≡ asked_key (start self.now).0.n (next self.now (answers self.now)) }
        ensures new { (set : List ℕ) → next self.now (answers self.now) ≡ Ask set → answer_to (answers self.now) set ≡ None };

    /// Appends the answer to the asked key.
    fn go_on(&mut self, sat: bool) -> Result<(), AllocError>
        requires { IsAsking (next self.old (answers self.old)) }
        ensures answers { (set : List ℕ) → next self.old (answers self.old) ≡ Ask set →
            OnOk result (answers self.new ≡ answers self.old ++ record { set = set; sat = sat } ∷ []) }
        ensures start { OnOk result (start self.new ≡ start self.old) };

    /// The recursion with the answer to the asked key more, which goes on by itself.
    fn after(&self, sat: bool) -> Result<Self, AllocError>
        requires { IsAsking (next self.now (answers self.now)) }
        ensures answers { (set : List ℕ) → next self.now (answers self.now) ≡ Ask set →
            IfOk result (λ state. answers state ≡ answers self.now ++ record { set = set; sat = sat } ∷ []) }
        ensures start { IfOk result (λ state. start state ≡ start self.now) };

    /// An equal recursion, which goes on by itself.
    fn again(&self) -> Result<Self, AllocError>
        ensures { IfOk result (λ state. state ≡ self.now) };
}

/// Why a recursion goes no further.
#[derive(Drop)]
pub(crate) enum Halt {
    /// Nothing was told of what it asks.
    Waits,
    /// The search for this key, which it asks, spent its allowance.
    Limit(Key),
    /// It is done.
    Ends,
}

/// What the pairs say to a recursion: why it goes no further, or the answer to what it asks.
#[derive(Drop)]
pub(crate) enum Said {
    Halts(Halt),
    Answers(bool),
}

/// What the pairs say to the recursion.
fn look_up<R: Recursion>(told: &Beside<'_>, state: &R) -> Result<Said, AllocError>
    ensures { IfOk result (IsSaid (R.start state.now).0.n (told_beside told.now) (R.next state.now (R.answers state.now))) }
{
    match state.asks() {
        Want::Done => Ok(Said::Halts(Halt::Ends)),
        Want::Ask(key) => match told.verdict_of(key) {
            None => Ok(Said::Halts(Halt::Waits)),
            Some(Verdict::Limit) => {
                let key = key.copy()?;
                Ok(Said::Halts(Halt::Limit(key)))
            }
            Some(Verdict::Sat) => Ok(Said::Answers(true)),
            Some(Verdict::Unsat) => Ok(Said::Answers(false)),
        },
    }
}

/// What the recursion asks has no answer yet.
fn asks_new<R: Recursion>(state: &R)
    ensures { (set : List ℕ) → R.next state.now (R.answers state.now) ≡ Ask set → answer_to (R.answers state.now) set ≡ None }
{
    state.asks();
}

/// One answer more, if the pairs have it.
fn step<R: Recursion>(told: &Beside<'_>, state: &mut R) -> Result<Option<Halt>, AllocError>
    requires table { IsTable (R.start state.old).0.n (told_beside told.now) }
    requires has { HasAll (R.answers state.old) (answers_of (told_beside told.now)) }
    ensures start { OnOk result (R.start state.new ≡ R.start state.old) }
    ensures has { OnOk result (HasAll (R.answers state.new) (answers_of (told_beside told.now))) }
    ensures goes { IfOk result (λ halt. MatchOption halt
        (lacking (R.answers state.new) (told_beside told.now) < lacking (R.answers state.old) (told_beside told.now))
        (IsHalted (R.start state.new).0.n (told_beside told.now) (R.next state.new (R.answers state.new)))) }
{
    match look_up(told, state)? {
        Said::Halts(halt) => Ok(Some(halt)),
        Said::Answers(sat) => {
            asks_new(state);
            state.go_on(sat)?;
            Ok(None)
        }
    }
}

/// The recursion with the verdict of the key beside the pairs, which it asks. A Limit answers nothing.
pub(crate) fn advance<R: Recursion>(told: &Beside<'_>, state: &R) -> Result<R, AllocError>
    requires asks { (set : List ℕ) × (R.next state.now (R.answers state.now) ≡ Ask set) × (told.now.key.now ≡ key_over (R.start state.now).0.n set) }
    requires new { verdict_in told.now.used.now told.now.key.now ≡ None }
    requires table { IsTable (R.start state.now).0.n (told_beside told.now) }
    requires has { HasAll (R.answers state.now) (answers_of (told_beside told.now)) }
    ensures start { IfOk result (λ next. R.start next ≡ R.start state.now) }
    ensures has { IfOk result (λ next. HasAll (R.answers next) (answers_of (told_beside told.now))) }
{
    match told.verdict {
        Verdict::Sat => {
            let next = state.after(true)?;
            Ok(next)
        }
        Verdict::Unsat => {
            let next = state.after(false)?;
            Ok(next)
        }
        Verdict::Limit => {
            let next = state.again()?;
            Ok(next)
        }
    }
}

/// The recursion as far as the pairs answer it.
pub(crate) fn run_on<R: Recursion>(told: &Beside<'_>, state: &mut R) -> Result<Halt, AllocError>
    requires table { IsTable (R.start state.old).0.n (told_beside told.now) }
    requires has { HasAll (R.answers state.old) (answers_of (told_beside told.now)) }
    ensures start { OnOk result (R.start state.new ≡ R.start state.old) }
    ensures has { OnOk result (HasAll (R.answers state.new) (answers_of (told_beside told.now))) }
    ensures halted { IfOk result (IsHalted (R.start state.new).0.n (told_beside told.now) (R.next state.new (R.answers state.new))) }
{
    loop {
        if let Some(halt) = step(told, state)? {
            return Ok(halt);
        }
    }
}
