//! Where a run of a job stands, and how it goes on with one pair more.
ghost use Rattle.std.specs.Prelude.{◌≡◌, ◌≤◌, ◌<◌, ℕ, List, None, Some, IfOk, IfSome, map, length};
ghost use Rattle.req_keys.specs.Key.{empty_key, full_key, PositionSet};
ghost use Rattle.req_keys.specs.declared.verdict.Verdict.TheVariants as verdict;
ghost use Rattle.req_keys.specs.Wanting.{wanted_key};
ghost use Rattle.script.specs.declared.job.JobPlan.{JobPlan as Plan};
ghost use Rattle.script.specs.Job.{Told, asks, ends, verdict_in, want};
ghost use Rattle.script.specs.Running.{key_in};
ghost use Rattle.script.specs.inside.Going.{IsTable, told_beside};
ghost use Rattle.script.specs.inside.Stages.{HasConflict, HasKept, IsAt, IsBeyond, IsExplaining, IsKeeping, IsListing};

use crate::beside::Beside;
use crate::going::{Halt, run_on};
use crate::job::{JobPlan, Outcome, Part, Parts, copy_keys};
use fast_diag::FastDiag;
use hs_tree::HsTree;
use quick_xplain::QuickXplain;
use req_keys::{Key, Verdict, Want};
use std::alloc::{AllocError, Global};

/// The part that asks, with what was found before it, or how the job has ended.
#[derive(Drop)]
pub(crate) enum Stage {
    /// All positions are asked.
    All(Key),
    /// The empty set is asked.
    Background(Key),
    Kept(FastDiag),
    Conflict {
        kept: Key,
        state: QuickXplain,
    },
    Listing {
        kept: Key,
        conflict: Key,
        state: HsTree,
    },
    Done(Outcome),
}

impl Stage {
    /// The key whose verdict is wanted.
    pub fn want(&self) -> Want<'_>
        ensures { (plan : Plan) (told : Told) → IsAt plan told self.now → wanted_key result ≡ key_in (want plan told) }
    {
        match self {
            Stage::All(key) | Stage::Background(key) => Want::Ask(key),
            Stage::Kept(state) => state.want(),
            Stage::Conflict { kept: _, state } => state.want(),
            Stage::Listing {
                kept: _,
                conflict: _,
                state,
            } => state.want(),
            Stage::Done(_) => Want::Done,
        }
    }

    /// A copy of the key whose verdict is wanted.
    pub fn asked(&self) -> Result<Option<Key>, AllocError>
        ensures { (plan : Plan) (told : Told) → IsAt plan told self.now → IfOk result (λ key. key ≡ key_in (want plan told)) }
    {
        match self.want() {
            Want::Ask(key) => {
                let key = key.copy()?;
                Ok(Some(key))
            }
            Want::Done => Ok(None),
        }
    }

    /// The same stage.
    pub fn copy(&self, alloc: Global) -> Result<Stage, AllocError>
        ensures { IfOk result (λ stage. stage ≡ self.now) }
    {
        match self {
            Stage::All(key) => Ok(Stage::All(key.copy()?)),
            Stage::Background(key) => Ok(Stage::Background(key.copy()?)),
            Stage::Kept(state) => Ok(Stage::Kept(state.copy()?)),
            Stage::Conflict { kept, state } => Ok(Stage::Conflict {
                kept: kept.copy()?,
                state: state.copy()?,
            }),
            Stage::Listing {
                kept,
                conflict,
                state,
            } => Ok(Stage::Listing {
                kept: kept.copy()?,
                conflict: conflict.copy()?,
                state: state.copy()?,
            }),
            Stage::Done(outcome) => Ok(Stage::Done(outcome.copy(alloc)?)),
        }
    }
}

/// A part asked a key whose search spent its allowance.
fn limit_at(part: Part, key: Key, before: Parts) -> Stage
    ensures { result ≡ Stage.Done (Outcome.LimitAt part key before) }
{
    Stage::Done(Outcome::LimitAt { part, key, before })
}

/// Nothing is found.
fn no_parts() -> Parts
    ensures { result ≡ record { kept = None; conflict = None; listing = None } }
{
    Parts {
        kept: None,
        conflict: None,
        listing: None,
    }
}

/// The job from its beginning over the pairs.
pub(crate) fn begin(alloc: Global, plan: JobPlan, told: &Beside<'_>) -> Result<Stage, AllocError>
    requires most { plan.requirements ≤ 4096 }
    requires list { IfSome plan.list (λ size. size ≤ 4096) }
    requires table { IsTable plan.requirements (told_beside told.now) }
    ensures { IfOk result (IsAt plan (told_beside told.now)) }
{
    let full = Key::full(alloc, plan.requirements)?;
    match told.verdict_of(&full) {
        None => Ok(Stage::All(full)),
        Some(Verdict::Sat) => Ok(Stage::Done(Outcome::Consistent)),
        Some(Verdict::Unsat) => background(alloc, plan, told),
        Some(Verdict::Limit) => Ok(limit_at(Part::All, full, no_parts())),
    }
}

/// The job from the background on: all positions together are Unsat.
fn background(alloc: Global, plan: JobPlan, told: &Beside<'_>) -> Result<Stage, AllocError>
    requires most { plan.requirements ≤ 4096 }
    requires list { IfSome plan.list (λ size. size ≤ 4096) }
    requires table { IsTable plan.requirements (told_beside told.now) }
    requires all { verdict_in (told_beside told.now) (full_key plan.requirements) ≡ Some verdict.Unsat }
    ensures { IfOk result (IsAt plan (told_beside told.now)) }
{
    let empty = Key::empty(alloc, plan.requirements)?;
    match told.verdict_of(&empty) {
        None => Ok(Stage::Background(empty)),
        Some(Verdict::Unsat) => Ok(Stage::Done(Outcome::Background)),
        Some(Verdict::Sat) => {
            let state = FastDiag::new(alloc, plan.requirements)?;
            keep(alloc, plan, told, state)
        }
        Some(Verdict::Limit) => Ok(limit_at(Part::Background, empty, no_parts())),
    }
}

/// The job from FastDiag on.
pub(crate) fn keep(
    alloc: Global,
    plan: JobPlan,
    told: &Beside<'_>,
    mut state: FastDiag,
) -> Result<Stage, AllocError>
    requires most { plan.requirements ≤ 4096 }
    requires list { IfSome plan.list (λ size. size ≤ 4096) }
    requires table { IsTable plan.requirements (told_beside told.now) }
    requires stands { IsKeeping plan.requirements (told_beside told.now) state }
    ensures { IfOk result (IsAt plan (told_beside told.now)) }
{
    match run_on(told, &mut state)? {
        Halt::Waits => Ok(Stage::Kept(state)),
        Halt::Limit(key) => Ok(limit_at(Part::Kept, key, no_parts())),
        Halt::Ends => {
            let kept = state.kept().copy()?;
            let full = Key::full(alloc, plan.requirements)?;
            let state = QuickXplain::new(alloc, &full)?;
            explain(alloc, plan, told, kept, state)
        }
    }
}

/// The job from QuickXplain on.
pub(crate) fn explain(
    alloc: Global,
    plan: JobPlan,
    told: &Beside<'_>,
    kept: Key,
    mut state: QuickXplain,
) -> Result<Stage, AllocError>
    requires most { plan.requirements ≤ 4096 }
    requires list { IfSome plan.list (λ size. size ≤ 4096) }
    requires table { IsTable plan.requirements (told_beside told.now) }
    requires stands { IsExplaining plan.requirements (told_beside told.now) kept state }
    ensures { IfOk result (IsAt plan (told_beside told.now)) }
{
    match run_on(told, &mut state)? {
        Halt::Waits => Ok(Stage::Conflict { kept, state }),
        Halt::Limit(key) => {
            let before = Parts {
                kept: Some(kept),
                conflict: None,
                listing: None,
            };
            Ok(limit_at(Part::Conflict, key, before))
        }
        Halt::Ends => {
            let conflict = state.conflict().copy()?;
            list_or_end(alloc, plan, told, kept, conflict)
        }
    }
}

/// The job when the conflict is found: the listing, if it is asked for.
fn list_or_end(
    alloc: Global,
    plan: JobPlan,
    told: &Beside<'_>,
    kept: Key,
    conflict: Key,
) -> Result<Stage, AllocError>
    requires list { IfSome plan.list (λ size. size ≤ 4096) }
    requires table { IsTable plan.requirements (told_beside told.now) }
    requires stands { HasConflict plan.requirements (told_beside told.now) kept conflict }
    ensures { IfOk result (IsAt plan (told_beside told.now)) }
{
    match plan.list {
        None => Ok(Stage::Done(Outcome::Explained(Parts {
            kept: Some(kept),
            conflict: Some(conflict),
            listing: None,
        }))),
        Some(most) => {
            let state = HsTree::new(alloc, &conflict, most)?;
            list(alloc, plan, told, kept, conflict, state)
        }
    }
}

/// The job from the tree on.
pub(crate) fn list(
    alloc: Global,
    plan: JobPlan,
    told: &Beside<'_>,
    kept: Key,
    conflict: Key,
    mut state: HsTree,
) -> Result<Stage, AllocError>
    requires table { IsTable plan.requirements (told_beside told.now) }
    requires stands { IsListing plan (told_beside told.now) kept conflict state }
    ensures { IfOk result (IsAt plan (told_beside told.now)) }
{
    match run_on(told, &mut state)? {
        Halt::Waits => Ok(Stage::Listing {
            kept,
            conflict,
            state,
        }),
        Halt::Limit(key) => {
            let before = Parts {
                kept: Some(kept),
                conflict: Some(conflict),
                listing: None,
            };
            Ok(limit_at(Part::Listing, key, before))
        }
        Halt::Ends => {
            let listing = copy_keys(alloc, state.found())?;
            Ok(Stage::Done(Outcome::Explained(Parts {
                kept: Some(kept),
                conflict: Some(conflict),
                listing: Some(listing),
            })))
        }
    }
}
