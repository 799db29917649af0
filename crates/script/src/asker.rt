//! Who asks for verdicts, one key after the other.
ghost use Rattle.std.specs.Prelude.{◌≡◌, ◌++◌, [], ◌∷◌, ℕ, IfOk, IsSome, None, OnErr, OnOk, Option, Some};
ghost use Rattle.req_keys.specs.Key.{PositionSet};
ghost use Rattle.req_keys.specs.Wanting.{wanted_key};
ghost use Rattle.script.specs.Job.{Told, verdict_in};

use crate::job_asks_new_keys;
use crate::run::Run;
use req_keys::{Key, Verdict, Want};
use std::alloc::AllocError;

/// A state that names the key whose verdict it wants, and goes on by the verdict. What it wants is a definition of how it
/// began and of the told pairs.
pub trait Asker: Drop + Sized {
    /// Over how many positions the asked keys are.
    ghost n: { Self → ℕ };

    /// The told pairs.
    ghost told: { Self → Told };

    /// The key that is wanted over told pairs, from where this state began.
    ghost wants: { Self → Told → Option PositionSet };

    /// The key whose verdict is wanted. It was not told.
    fn want(&self) -> Want<'_>
        ensures asks { wanted_key result ≡ wants self.now (told self.now) }
        ensures new { (key : PositionSet) → wants self.now (told self.now) ≡ Some key → verdict_in (told self.now) key ≡ None }
        ensures n { (key : PositionSet) → wants self.now (told self.now) ≡ Some key → key.n ≡ n self.now };

    /// Appends the pair of the asked key and its verdict. After want of memory the state is as it was.
    fn tell(&mut self, verdict: Verdict) -> Result<(), AllocError>
        requires { IsSome (wants self.old (told self.old)) }
        ensures told { (key : PositionSet) → wants self.old (told self.old) ≡ Some key →
            OnOk result (told self.new ≡ told self.old ++ (key, verdict) ∷ []) }
        ensures wants { OnOk result (wants self.new ≡ wants self.old) }
        ensures n { OnOk result (n self.new ≡ n self.old) }
        ensures err { OnErr result (self.new ≡ self.old) };

    /// The state after one verdict more, which goes on by itself: what a copy is that is told the verdict.
    fn after(&self, verdict: Verdict) -> Result<Self, AllocError>
        requires { IsSome (wants self.now (told self.now)) }
        ensures told { (key : PositionSet) → wants self.now (told self.now) ≡ Some key →
            IfOk result (λ next. told next ≡ told self.now ++ (key, verdict) ∷ []) }
        ensures wants { IfOk result (λ next. wants next ≡ wants self.now) }
        ensures n { IfOk result (λ next. n next ≡ n self.now) };

    /// The key that it would ask after one verdict more.
    fn asks_after(&self, verdict: Verdict) -> Result<Option<Key>, AllocError>
        requires { IsSome (wants self.now (told self.now)) }
        ensures { (key : PositionSet) → wants self.now (told self.now) ≡ Some key →
            IfOk result (λ asks. asks ≡ wants self.now (told self.now ++ (key, verdict) ∷ [])) };

    /// An equal state, which goes on by itself.
    fn copy(&self) -> Result<Self, AllocError>
        ensures { IfOk result (λ copy. copy ≡ self.now) };
}

impl Asker for Run {
    ghost use Rattle.script.specs.Job.{want};
    ghost use Rattle.script.specs.Running.{key_in};

    ghost n = { λ run. run.plan.requirements };

    ghost told = { λ run. run.told };

    ghost wants = { λ run told. key_in (want run.plan told) };

    fn want(&self) -> Want<'_> {
        job_asks_new_keys();
        Run::want(self)
    }

    fn tell(&mut self, verdict: Verdict) -> Result<(), AllocError> {
        Run::tell(self, verdict)?;
        Ok(())
    }

    fn after(&self, verdict: Verdict) -> Result<Run, AllocError> {
        let next = Run::after(self, verdict)?;
        Ok(next)
    }

    fn asks_after(&self, verdict: Verdict) -> Result<Option<Key>, AllocError> {
        let asks = Run::asks_after(self, verdict)?;
        Ok(asks)
    }

    fn copy(&self) -> Result<Run, AllocError> {
        let copy = Run::copy(self)?;
        Ok(copy)
    }
}
