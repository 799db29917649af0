//! Answering the asked key.
ghost use Rattle.std.specs.Prelude.{◌≡◌, ◌++◌, [], ◌∷◌, ℕ, IfOk, IfSome, MatchOption, None, OnErr, OnOk, Some, length};
ghost use Rattle.req_keys.specs.Key.{PositionSet};
ghost use Rattle.script.specs.Running.{IsAsking, key_in, want_after};
ghost use Rattle.script.specs.Sequential.{verdicts_of};
ghost use Rattle.look_ahead.specs.Posting.{live_entry, settled_by};
ghost use Rattle.check_table.specs.Seats.{IsMainOf};
ghost use Rattle.serving.specs.Entries.{IsCancelled, StandsUnder};
ghost use Rattle.serving.specs.Met.{IsMet};
ghost use Rattle.serving.specs.Rounds.{IsHeld};
ghost use Rattle.serving.specs.inside.Staying.{Keeps, LeavesOthers};

use check_table::{CheckTable, MainSeat, Took};
use look_ahead::Posting;
use req_keys::{Key, Verdict, Want};
use script::Run;
use solver::{NoStop, Searcher, SolveError};
use std::alloc::AllocError;
use std::sync::Wait;
use workers::{Gate, Patience};

/// Answers the key that the run asks.
pub(crate) fn answer_asked<R: Wait, G: Gate>(
    rt: &R,
    searcher: &mut Searcher<'_>,
    table: &CheckTable,
    main: &mut MainSeat,
    run: &mut Run,
    posting: &mut Posting,
    gate: &G,
) -> Result<(), AllocError>
    requires searcher { searcher.old ≡ table.now.problem }
    requires plan { run.old.plan.requirements ≡ length table.now.problem.roots }
    requires own { IsMainOf table.now main.old }
    requires asks { IsAsking (want_after run.old) }
    requires held { IsHeld main.old.sees posting.old }
    ensures held { OnOk result (IsHeld main.new.sees posting.new) }
    ensures marks { (number : ℕ) → IsCancelled main.old.sees.entries number → IsCancelled main.new.sees.entries number }
    ensures told { (key : PositionSet) → key_in (want_after run.old) ≡ Some key →
        OnOk result (run.new ≡ record { plan = run.old.plan; told = run.old.told ++ (key, verdicts_of table.now.problem key) ∷ [] }) }
    ensures settled { (key : PositionSet) → key_in (want_after run.old) ≡ Some key →
        OnOk result (posting.new ≡ settled_by key posting.old) }
    ensures met { (key : PositionSet) (number : ℕ) → key_in (want_after run.old) ≡ Some key → live_entry posting.old.live key ≡ Some number →
        OnOk result (IsMet table.now.problem main.old.sees main.new.sees number) }
    ensures err { OnErr result ((run.new ≡ run.old) × (posting.new ≡ posting.old)) }
    ensures searcher { searcher.new ≡ searcher.old }
    ensures own { IsMainOf table.now main.new }
    ensures keeps { Keeps main.old.sees main.new.sees }
{
    let key = asked_key(run)?;
    let entry = posting.entry_of(&key);
    let verdict = verdict_of(rt, searcher, table, main, entry, &key, gate)?;
    tell(run, posting, &key, verdict)
}

/// Tells the run the verdict of the key that it asks, and settles that key.
fn tell(run: &mut Run, posting: &mut Posting, key: &Key, verdict: Verdict) -> Result<(), AllocError>
    requires { key_in (want_after run.old) ≡ Some key.now }
    ensures told { OnOk result (run.new ≡ record { plan = run.old.plan; told = run.old.told ++ (key.now, verdict) ∷ [] }) }
    ensures settled { OnOk result (posting.new ≡ settled_by key.now posting.old) }
    ensures err { OnErr result ((run.new ≡ run.old) × (posting.new ≡ posting.old)) }
{
    run.tell(verdict)?;
    posting.settle(key);
    Ok(())
}

/// A copy of the key that the run asks.
fn asked_key(run: &Run) -> Result<Key, AllocError>
    requires { IsAsking (want_after run.now) }
    ensures asked { IfOk result (λ copy. key_in (want_after run.now) ≡ Some copy) }
    ensures positions { IfOk result (λ copy. copy.n ≡ run.now.plan.requirements) }
{
    let Want::Ask(key) = run.want() else {
        unreachable!()
    };
    key.copy()
}

/// The verdict of the key: that of its live entry, if it has one, or that of a search.
fn verdict_of<R: Wait, G: Gate>(
    rt: &R,
    searcher: &mut Searcher<'_>,
    table: &CheckTable,
    main: &mut MainSeat,
    entry: Option<u32>,
    key: &Key,
    gate: &G,
) -> Result<Verdict, AllocError>
    requires searcher { searcher.old ≡ table.now.problem }
    requires own { IsMainOf table.now main.old }
    requires key { key.now.n ≡ length table.now.problem.roots }
    requires stands { IfSome entry (λ number. StandsUnder main.old.sees.entries number key.now) }
    ensures verdict { IfOk result (λ verdict. verdict ≡ verdicts_of table.now.problem key.now) }
    ensures entries { MatchOption entry (main.new.sees.entries ≡ main.old.sees.entries) (λ number. LeavesOthers number main.old.sees.entries main.new.sees.entries) }
    ensures met { IfSome entry (IsMet table.now.problem main.old.sees main.new.sees) }
    ensures searcher { searcher.new ≡ searcher.old }
    ensures own { IsMainOf table.now main.new }
    ensures keeps { Keeps main.old.sees main.new.sees }
{
    let Some(number) = entry else {
        return search(searcher, key);
    };
    gate.before(number);
    match answer_of(rt, table, main, number, key) {
        Some(verdict) => Ok(verdict),
        None => search(searcher, key),
    }
}

/// The answer of the key's entry, once there is one. None where the main thread is to search: it has taken the entry, or a worker gave
/// it up.
fn answer_of<R: Wait>(
    rt: &R,
    table: &CheckTable,
    main: &mut MainSeat,
    number: u32,
    key: &Key,
) -> Option<Verdict>
    requires own { IsMainOf table.now main.old }
    requires stands { StandsUnder main.old.sees.entries number key.now }
    ensures verdict { IfSome result (λ verdict. verdict ≡ verdicts_of table.now.problem key.now) }
    ensures entries { LeavesOthers number main.old.sees.entries main.new.sees.entries }
    ensures met { IsMet table.now.problem main.old.sees main.new.sees number }
    ensures own { IsMainOf table.now main.new }
    ensures keeps { Keeps main.old.sees main.new.sees }
{
    let mut patience = Patience::new();
    'takes: for _ in rt.forever() {
        match table.take(main, number) {
            Took::Answered(verdict) => return Some(verdict),
            Took::Mine | Took::GivenUp => return None,
            Took::Running => patience.pause(rt),
        }
    }
    unreachable!()
}

/// The verdict of the key, by a search.
fn search(searcher: &mut Searcher<'_>, key: &Key) -> Result<Verdict, AllocError>
    requires { key.now.n ≡ length searcher.old.roots }
    ensures verdict { IfOk result (λ verdict. verdict ≡ verdicts_of searcher.old key.now) }
    ensures searcher { searcher.new ≡ searcher.old }
{
    match searcher.verdict(key, &mut NoStop) {
        Ok(verdict) => Ok(verdict),
        // Nobody stops the search, so this is want of memory.
        Err(SolveError::Memory | SolveError::Stopped) => Err(AllocError),
    }
}
