//! What the state keeps, and how it goes on by an answer.
ghost use Rattle.std.specs.Prelude.{◌≡◌, ◌+◌, ◌<◌, List, ℕ, Some, [], ◌∷◌, ◌++◌, length, take, IfOk, OnOk, OnErr, MatchOption, IsSome};
ghost use Rattle.pref_sets.specs.Answers.{Answer};
ghost use Rattle.hs_tree.specs.inside.Left.{IsHere, IsIn, IsOnlyLast, left, level_left, place_at, is_last};
ghost use Rattle.hs_tree.specs.inside.Places.{at_place, sets_of};
ghost use Rattle.hs_tree.specs.inside.Standing.{AsksSet, IsSound, IsWaitingFor, level_after};
ghost use Rattle.hs_tree.specs.inside.Steps.{Grows, IsFound, IsSetDone, IsSetWaiting, from_waiting};
ghost use Rattle.hs_tree.specs.inside.Told.{AreToldOver, HasAll, answers_of};
ghost use Rattle.hs_tree.specs.declared.sets.Asking.{Asking};

use crate::found::Found;
use crate::levels::{Level, from_level, next_level, one_level};
use crate::sets::{Asking, by_label, by_rest};
use crate::told::{Told, ToldAnswer, copied};
use req_keys::{Key, Want};
use std::alloc::{AllocError, Global};

/// The told answers, what was found, and where the tree stands: in a level, with a set that asks, or all is done.
#[derive(Drop)]
pub(crate) struct State {
    pub told: Told,
    pub found: Found,
    pub level: Level,
    pub asking: Option<Asking>,
}

impl State {
    pub fn copy(&self) -> Result<State, AllocError>
        ensures { IfOk result (λ copy. copy ≡ self.now) }
    {
        let alloc = self.told.allocator();
        let told = copied(alloc, &self.told)?;
        let found = self.found.copy(alloc)?;
        let level = self.level.copy(alloc)?;
        let asking = match &self.asking {
            Some(asking) => Some(asking.copy()?),
            None => None,
        };
        Ok(State {
            told,
            found,
            level,
            asking,
        })
    }
}

/// The key that is asked, with the answer to it.
fn told_answer(asking: &Asking, sat: bool) -> Result<ToldAnswer, AllocError>
    requires { (set : List ℕ) × AsksSet asking.now set }
    ensures sat { IfOk result (λ answer. answer.sat ≡ sat) }
    ensures set { (set : List ℕ) → AsksSet asking.now set → IfOk result (λ answer. answer.key.members ≡ set) }
    ensures n { (n : ℕ) (told : List Answer) → IsWaitingFor n told asking.now → IfOk result (λ answer. answer.key.n ≡ n) }
{
    match asking {
        Asking::Rest(rest) => {
            let key = rest.copy()?;
            Ok(ToldAnswer { key, sat })
        }
        Asking::Label(label) => {
            let Want::Ask(asked) = label.want() else {
                unreachable!()
            };
            let key = asked.copy()?;
            Ok(ToldAnswer { key, sat })
        }
    }
}

/// The set that waited, from where it waited.
fn again(
    alloc: Global,
    told: &Told,
    found: &mut Found,
    level: &Level,
    asking: &Asking,
) -> Result<Option<Asking>, AllocError>
    requires inside { IsIn level.now found.old }
    requires told { AreToldOver level.now.n told.now }
    requires waits { IsWaitingFor level.now.n (answers_of told.now) asking.now }
    requires within { length found.old.labels < level.now.before + length level.now.sets }
    ensures grows { Grows found.old found.new }
    ensures found { OnOk result (IsFound level.now.n found.new) }
    ensures goes { let set = at_place (sets_of level.now.sets) (place_at level.now found.old) in let last = is_last level.now.left in
        IfOk result (λ further. MatchOption further
        (IsSetDone (answers_of told.now) found.old found.new set (from_waiting last set asking.now))
        (IsSetWaiting level.now.n (answers_of told.now) last found.old found.new set (from_waiting last set asking.now))) }
{
    match asking {
        Asking::Rest(rest) => {
            let set = level.sets.get(found.labels.len() - level.before);
            let rest = rest.copy()?;
            let further = by_rest(alloc, told, found, level.left == 0, set, rest)?;
            Ok(further)
        }
        Asking::Label(label) => {
            let label = label.copy()?;
            let further = by_label(told, found, label)?;
            Ok(further)
        }
    }
}

/// The level from the set that waited on, until a set asks.
fn this_level(
    alloc: Global,
    told: &Told,
    found: &mut Found,
    level: &Level,
    asking: &Asking,
) -> Result<Option<Asking>, AllocError>
    requires inside { IsIn level.now found.old }
    requires told { AreToldOver level.now.n told.now }
    requires waits { IsWaitingFor level.now.n (answers_of told.now) asking.now }
    requires within { length found.old.labels < level.now.before + length level.now.sets }
    ensures grows { Grows found.old found.new }
    ensures inside { OnOk result (IsIn level.now found.new) }
    ensures here { IfOk result (IsHere (answers_of told.now) level.now found.new) }
    ensures goes { IfOk result (λ further. (table : List Answer) → HasAll (answers_of told.now) table →
        level_left table level.now found.old (Some asking.now) ≡ level_left table level.now found.new further) }
{
    match again(alloc, told, found, level, asking)? {
        Some(asking) => Ok(Some(asking)),
        None => {
            let further = one_level(alloc, told, found, level)?;
            Ok(further)
        }
    }
}

/// A step: the level, where it is another, and the set that asks.
#[derive(Drop)]
struct Step {
    deeper: Option<Level>,
    asking: Option<Asking>,
}

/// The tree from the set that waited on, until a set asks.
fn resume(
    alloc: Global,
    told: &Told,
    found: &mut Found,
    level: &Level,
    asking: &Asking,
) -> Result<Step, AllocError>
    requires inside { IsIn level.now found.old }
    requires told { AreToldOver level.now.n told.now }
    requires waits { IsWaitingFor level.now.n (answers_of told.now) asking.now }
    requires within { length found.old.labels < level.now.before + length level.now.sets }
    ensures grows { Grows found.old found.new }
    ensures inside { IfOk result (λ step. IsIn (level_after level.now step.deeper) found.new) }
    ensures here { IfOk result (λ step. IsHere (answers_of told.now) (level_after level.now step.deeper) found.new step.asking) }
    ensures last { IfOk result (λ step. IsOnlyLast (level_after level.now step.deeper) step.asking) }
    ensures n { IfOk result (λ step. (level_after level.now step.deeper).n ≡ level.now.n) }
    ensures goes { IfOk result (λ step. (table : List Answer) → HasAll (answers_of told.now) table →
        left table level.now found.old (Some asking.now) ≡ left table (level_after level.now step.deeper) found.new step.asking) }
{
    match this_level(alloc, told, found, level, asking)? {
        Some(asking) => Ok(Step {
            deeper: None,
            asking: Some(asking),
        }),
        None => {
            if level.left == 0 {
                return Ok(Step {
                    deeper: None,
                    asking: None,
                });
            }
            let next = next_level(alloc, found, level)?;
            let place = from_level(alloc, told, found, next)?;
            Ok(Step {
                deeper: Some(place.level),
                asking: place.asking,
            })
        }
    }
}

/// Takes back what was found since there were so many.
fn take_back(found: &mut Found, diagnoses: usize, conflicts: usize, labels: usize)
    ensures diagnoses { found.new.diagnoses ≡ take diagnoses found.old.diagnoses }
    ensures conflicts { found.new.conflicts ≡ take conflicts found.old.conflicts }
    ensures labels { found.new.labels ≡ take labels found.old.labels }
{
    found.diagnoses.truncate(diagnoses);
    found.conflicts.truncate(conflicts);
    found.labels.truncate(labels);
}

/// The step of `resume`, or after want of memory nothing.
fn step_or_none(
    alloc: Global,
    told: &Told,
    found: &mut Found,
    level: &Level,
    asking: &Asking,
) -> Result<Step, AllocError>
    requires inside { IsIn level.now found.old }
    requires told { AreToldOver level.now.n told.now }
    requires waits { IsWaitingFor level.now.n (answers_of told.now) asking.now }
    requires within { length found.old.labels < level.now.before + length level.now.sets }
    ensures err { OnErr result (found.new ≡ found.old) }
    ensures inside { IfOk result (λ step. IsIn (level_after level.now step.deeper) found.new) }
    ensures here { IfOk result (λ step. IsHere (answers_of told.now) (level_after level.now step.deeper) found.new step.asking) }
    ensures last { IfOk result (λ step. IsOnlyLast (level_after level.now step.deeper) step.asking) }
    ensures n { IfOk result (λ step. (level_after level.now step.deeper).n ≡ level.now.n) }
    ensures goes { IfOk result (λ step. (table : List Answer) → HasAll (answers_of told.now) table →
        left table level.now found.old (Some asking.now) ≡ left table (level_after level.now step.deeper) found.new step.asking) }
{
    let diagnoses = found.diagnoses.len();
    let conflicts = found.conflicts.len();
    let labels = found.labels.len();
    match resume(alloc, told, found, level, asking) {
        Ok(step) => Ok(step),
        Err(error) => {
            take_back(found, diagnoses, conflicts, labels);
            Err(error)
        }
    }
}

/// The state after a step.
fn settle(state: &mut State, step: Step)
    ensures told { state.new.told ≡ state.old.told }
    ensures found { state.new.found ≡ state.old.found }
    ensures level { state.new.level ≡ level_after state.old.level step.deeper }
    ensures asking { state.new.asking ≡ step.asking }
{
    let Step { deeper, asking } = step;
    state.asking = asking;
    match deeper {
        Some(level) => state.level = level,
        None => {}
    }
}

/// The state goes on by the answer to the key that is asked. After want of memory it is as it was.
pub(crate) fn go_on(state: &mut State, sat: bool) -> Result<(), AllocError>
    requires sound { IsSound state.old }
    requires asks { IsSome state.old.asking }
    ensures sound { OnOk result (IsSound state.new) }
    ensures told { (asking : Asking) (set : List ℕ) → state.old.asking ≡ Some asking → AsksSet asking set →
        OnOk result (answers_of state.new.told ≡ answers_of state.old.told ++ record { set = set; sat = sat } ∷ []) }
    ensures n { OnOk result (state.new.level.n ≡ state.old.level.n) }
    ensures goes { OnOk result ((table : List Answer) → HasAll (answers_of state.new.told) table →
        left table state.old.level state.old.found state.old.asking ≡ left table state.new.level state.new.found state.new.asking) }
    ensures err { OnErr result (state.new ≡ state.old) }
{
    let alloc = state.told.allocator();
    let Some(asking) = &state.asking else {
        unreachable!()
    };
    let answer = told_answer(asking, sat)?;
    let before = state.told.len();
    state.told.push(answer)?;
    match step_or_none(alloc, &state.told, &mut state.found, &state.level, asking) {
        Ok(step) => {
            settle(state, step);
            Ok(())
        }
        Err(error) => {
            state.told.truncate(before);
            Err(error)
        }
    }
}
