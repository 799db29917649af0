//! A job that runs: it names the key whose verdict it wants, and goes on by the verdict.
ghost use Rattle.std.specs.Prelude.{◌≡◌, ◌≤◌, ◌++◌, [], ◌∷◌, None, IfOk, IfSome, OnErr, OnOk};
ghost use Rattle.req_keys.specs.Key.{PositionSet};
ghost use Rattle.req_keys.specs.Wanting.{wanted_key};
ghost use Rattle.script.specs.declared.job.Outcome.{Outcome};
ghost use Rattle.script.specs.declared.job.Part.{Part};
ghost use Rattle.script.specs.Job.{asks, ends, verdict_in, want};
ghost use Rattle.script.specs.Running.{Running, IsAsking, IsEnded, key_in, want_after};
ghost use Rattle.script.specs.inside.Going.{IsTable, told_beside};
ghost use Rattle.script.specs.inside.Stages.{IsAt, IsPlan, Stands};

use crate::beside::Beside;
use crate::going::advance;
use crate::job::{JobPlan, Outcome};
use crate::stage::{Stage, begin, explain, keep, list};
use crate::used::Used;
use req_keys::{Key, Keys, Verdict, Want};
use std::alloc::{AllocError, Global};
use std::marker::Model;

/// A job that runs over the pairs that it was told.
#[derive(Drop)]
pub struct Run {
    plan: JobPlan,
    used: Used,
    stage: Stage,
}

impl Model for Run {
    ghost use Rattle.script.specs.Running.{Running};
    ghost use Rattle.script.specs.inside.Stages.{Stands};

    ghost Value = { Running };

    ghost view = { λ a. record { plan = a.plan; told = a.used } };

    ghost invariant = { λ a. Stands a.plan a.used a.stage };
}

/// What a job came to, beside what was posted ahead of it.
#[derive(Drop)]
pub struct Finished {
    pub plan: JobPlan,
    pub outcome: Outcome,
    pub used: Used,
    /// The keys that were posted, in order.
    pub posted: Keys,
    /// How many of them were never settled.
    pub wasted: u64,
}

/// Where the run stands with one pair more.
fn after(
    alloc: Global,
    plan: JobPlan,
    stage: &Stage,
    told: &Beside<'_>,
) -> Result<Stage, AllocError>
    requires plan { IsPlan plan }
    requires table { IsTable plan.requirements (told_beside told.now) }
    requires at { IsAt plan told.now.used.now stage.now }
    requires asks { (part : Part) × (want_after (record { plan = plan; told = told.now.used.now }) ≡ asks part told.now.key.now) }
    ensures { IfOk result (IsAt plan (told_beside told.now)) }
{
    match stage {
        Stage::All(_) | Stage::Background(_) => begin(alloc, plan, told),
        Stage::Kept(state) => {
            let state = advance(told, state)?;
            keep(alloc, plan, told, state)
        }
        Stage::Conflict { kept, state } => {
            let kept = kept.copy()?;
            let state = advance(told, state)?;
            explain(alloc, plan, told, kept, state)
        }
        Stage::Listing {
            kept,
            conflict,
            state,
        } => {
            let kept = kept.copy()?;
            let conflict = conflict.copy()?;
            let state = advance(told, state)?;
            list(alloc, plan, told, kept, conflict, state)
        }
        Stage::Done(_) => unreachable!(),
    }
}

impl Run {
    /// The run to which nothing is told yet.
    pub fn new(alloc: Global, plan: JobPlan) -> Result<Run, AllocError>
        requires requirements { plan.requirements ≤ 4096 }
        requires list { IfSome plan.list (λ most. most ≤ 4096) }
        ensures { IfOk result (λ run. run ≡ record { plan = plan; told = [] }) }
    {
        let full = Key::full(alloc, plan.requirements)?;
        Ok(Run {
            plan,
            used: Used::new(alloc)?,
            stage: Stage::All(full),
        })
    }

    /// The key whose verdict is wanted.
    pub fn want(&self) -> Want<'_>
        ensures { wanted_key result ≡ key_in (want_after self.now) }
    {
        self.stage.want()
    }

    /// A copy of the asked key.
    fn asked(&self) -> Result<Key, AllocError>
        requires { IsAsking (want_after self.now) }
        ensures { (part : Part) (key : PositionSet) → want_after self.now ≡ asks part key → IfOk result (λ copy. copy ≡ key) }
    {
        let Want::Ask(key) = self.want() else {
            unreachable!()
        };
        key.copy()
    }

    /// Where the run stands with the verdict of the key.
    fn next(&self, key: &Key, verdict: Verdict) -> Result<Stage, AllocError>
        requires { (part : Part) × (want_after self.now ≡ asks part key.now) }
        ensures { IfOk result (Stands self.now.plan (self.now.told ++ (key.now, verdict) ∷ [])) }
    {
        let told = Beside {
            used: &self.used,
            key,
            verdict,
        };
        let stage = after(self.used.allocator(), self.plan, &self.stage, &told)?;
        Ok(stage)
    }

    /// Appends the pair of the asked key and its verdict. After want of memory the run is as it was.
    pub fn tell(&mut self, verdict: Verdict) -> Result<(), AllocError>
        requires { IsAsking (want_after self.old) }
        ensures ok { (part : Part) (key : PositionSet) → want_after self.old ≡ asks part key →
            OnOk result (self.new ≡ record { plan = self.old.plan; told = self.old.told ++ (key, verdict) ∷ [] }) }
        ensures err { OnErr result (self.new ≡ self.old) }
    {
        let key = self.asked()?;
        let stage = self.next(&key, verdict)?;
        self.used.tell(key, verdict)?;
        self.stage = stage;
        Ok(())
    }

    /// The run with the pair of the asked key and its verdict more. It shares the told pairs, and makes its state beside this one.
    pub fn after(&self, verdict: Verdict) -> Result<Run, AllocError>
        requires { IsAsking (want_after self.now) }
        ensures { (part : Part) (key : PositionSet) → want_after self.now ≡ asks part key →
            IfOk result (λ run. run ≡ record { plan = self.now.plan; told = self.now.told ++ (key, verdict) ∷ [] }) }
    {
        let key = self.asked()?;
        let stage = self.next(&key, verdict)?;
        let mut used = self.used.copy()?;
        used.tell(key, verdict)?;
        Ok(Run {
            plan: self.plan,
            used,
            stage,
        })
    }

    /// The key that would be asked with the verdict of the asked key. No run is made for it.
    pub fn asks_after(&self, verdict: Verdict) -> Result<Option<Key>, AllocError>
        requires { IsAsking (want_after self.now) }
        ensures { (part : Part) (key : PositionSet) → want_after self.now ≡ asks part key →
            IfOk result (λ asks. asks ≡ key_in (want self.now.plan (self.now.told ++ (key, verdict) ∷ []))) }
    {
        let key = self.asked()?;
        let stage = self.next(&key, verdict)?;
        let asks = stage.asked()?;
        Ok(asks)
    }

    /// An equal run, which goes on by itself. It shares the told pairs.
    pub fn copy(&self) -> Result<Run, AllocError>
        ensures { IfOk result (λ run. run ≡ self.now) }
    {
        let used = self.used.copy()?;
        let stage = self.stage.copy(self.used.allocator())?;
        Ok(Run {
            plan: self.plan,
            used,
            stage,
        })
    }

    /// How the job ended.
    pub fn outcome(&self) -> &Outcome
        requires { IsEnded (want_after self.now) }
        ensures { want_after self.now ≡ ends result.now }
    {
        let Stage::Done(outcome) = &self.stage else {
            unreachable!()
        };
        outcome
    }

    /// What was told.
    pub fn used(&self) -> &Used
        ensures { result.now ≡ self.now.told }
    {
        &self.used
    }

    /// The plan, the outcome and the told pairs, with what was posted ahead.
    pub fn finish(self, posted: Keys, wasted: u64) -> Finished
        requires { IsEnded (want_after self) }
        ensures plan { result.plan ≡ self.plan }
        ensures outcome { want_after self ≡ ends result.outcome }
        ensures used { result.used ≡ self.told }
        ensures posted { result.posted ≡ posted }
        ensures wasted { result.wasted ≡ wasted }
    {
        let Run { plan, used, stage } = self;
        let Stage::Done(outcome) = stage else {
            unreachable!()
        };
        Finished {
            plan,
            outcome,
            used,
            posted,
            wasted,
        }
    }
}
