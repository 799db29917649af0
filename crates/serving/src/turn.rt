//! A turn.
ghost use Rattle.std.specs.Prelude.{◌≡◌, ◌++◌, [], ◌∷◌, ℕ, All, OnErr, OnOk, Some, false, length};
ghost use Rattle.req_keys.specs.Key.{PositionSet};
ghost use Rattle.script.specs.Running.{IsAsking, key_in, want_after};
ghost use Rattle.script.specs.Sequential.{verdicts_of};
ghost use Rattle.look_ahead.specs.Posting.{live_entry, settled_by};
ghost use Rattle.check_table.specs.Seats.{IsMainOf};
ghost use Rattle.serving.specs.Entries.{IsCancelled};
ghost use Rattle.serving.specs.Met.{IsMet};
ghost use Rattle.serving.specs.Rounds.{AreReady, IsHeld};

use crate::answering::answer_asked;
use crate::carrying::carry_out;
use check_table::{CheckTable, MainSeat};
use look_ahead::{Orders, Posting};
use script::Run;
use solver::Searcher;
use std::alloc::AllocError;
use std::sync::Wait;
use workers::Gate;

/// Carries out the orders of a turn, which is entered in the posting, and tells the run the verdict of the key that it asks. The
/// gate is asked before that key's live entry is first taken. After want of memory some of the orders may have been carried out:
/// the table is then only to be stopped and closed.
pub fn serve<R: Wait, G: Gate>(
    rt: &R,
    searcher: &mut Searcher<'_>,
    table: &CheckTable,
    main: &mut MainSeat,
    run: &mut Run,
    posting: &mut Posting,
    orders: &Orders,
    gate: &G,
) -> Result<(), AllocError>
    requires searcher { searcher.old ≡ table.now.problem }
    requires plan { run.old.plan.requirements ≡ length table.now.problem.roots }
    requires own { IsMainOf table.now main.old }
    requires running { main.old.sees.stopped ≡ false }
    requires asks { IsAsking (want_after run.old) }
    requires ready { AreReady main.old.sees posting.old orders.now }
    ensures held { OnOk result (IsHeld main.new.sees posting.new) }
    ensures cancelled { orders.now.new_round ≡ false → OnOk result (All (IsCancelled main.new.sees.entries) orders.now.cancel) }
    ensures told { (key : PositionSet) → key_in (want_after run.old) ≡ Some key →
        OnOk result (run.new ≡ record { plan = run.old.plan; told = run.old.told ++ (key, verdicts_of table.now.problem key) ∷ [] }) }
    ensures settled { (key : PositionSet) → key_in (want_after run.old) ≡ Some key →
        OnOk result (posting.new ≡ settled_by key posting.old) }
    ensures met { (key : PositionSet) (number : ℕ) → key_in (want_after run.old) ≡ Some key → live_entry posting.old.live key ≡ Some number →
        OnOk result (IsMet table.now.problem main.old.sees main.new.sees number) }
    ensures err { OnErr result ((run.new ≡ run.old) × (posting.new ≡ posting.old)) }
    ensures searcher { searcher.new ≡ searcher.old }
    ensures own { IsMainOf table.now main.new }
    ensures running { main.new.sees.stopped ≡ false }
    ensures seats { (main.new.sees.made ≡ main.old.sees.made) × (main.new.sees.left ≡ main.old.sees.left) }
{
    carry_out(table, main, orders);
    answer_asked(rt, searcher, table, main, run, posting, gate)
}
