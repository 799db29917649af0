//! One worker.
ghost use Rattle.std.specs.Prelude.{◌≡◌, ℕ, IsFalse, IsTrue, Ok, Err, true, false};
ghost use Rattle.req_keys.specs.declared.verdict.Verdict.{Verdict as Answer};
ghost use Rattle.check_table.specs.Found.{IsHolding, IsIdle, IsRunning, IsVerdict, MayGiveUp};
ghost use Rattle.check_table.specs.Seats.{IsWorkerOf};
ghost use Rattle.check_table.specs.declared.found.GaveUp.TheVariants as GaveUp;
ghost use Rattle.workers.specs.Ending.{HasEnded};
ghost use Rattle.workers.specs.inside.Tickets.{SameRest, SameSeat};

use crate::gate::Gate;
use crate::searching::KeptSearcher;
use crate::stopping::SeatStop;
use crate::waiting::Patience;
use check_table::{CheckTable, Claimed, Drawn, GaveUp, Left, WorkerSeat};
use clauses::Problem;
use req_keys::Verdict;
use solver::SolveError;
use std::alloc::Global;
use std::sync::Wait;

/// Draws tickets and answers for their entries, until there are no more tickets or the table is stopped. A ticket whose
/// entry isn't posted yet is kept until it is, so a worker runs as long as nobody posts or stops. Where it finds no memory
/// for a search it gives the entry up. What the searches need is made once, at the first.
pub fn worker<R: Wait + Sync, G: Gate>(
    rt: &R,
    alloc: Global,
    problem: &Problem,
    table: &CheckTable,
    seat: WorkerSeat,
    gate: &G,
) -> WorkerSeat
    requires own { IsWorkerOf table.now seat }
    requires problem { table.now.problem ≡ problem.now }
    requires idle { IsIdle seat.sees }
    requires more { seat.sees.done ≡ false }
    ensures own { IsWorkerOf table.now result }
    ensures rests { IsRunning result.sees → ⊥ }
    ensures end { HasEnded result.sees }
    ensures number { result.sees.number ≡ seat.sees.number }
{
    let mut searcher = KeptSearcher::new(alloc, problem);
    serve_tickets(rt, table, seat, gate, &mut searcher)
}

/// The same with the searcher that is kept.
fn serve_tickets<R: Wait + Sync, G: Gate>(
    rt: &R,
    table: &CheckTable,
    seat: WorkerSeat,
    gate: &G,
    searcher: &mut KeptSearcher<'_>,
) -> WorkerSeat
    requires own { IsWorkerOf table.now seat }
    requires problem { table.now.problem ≡ searcher.old }
    requires idle { IsIdle seat.sees }
    requires more { seat.sees.done ≡ false }
    ensures own { IsWorkerOf table.now result }
    ensures rests { IsRunning result.sees → ⊥ }
    ensures end { HasEnded result.sees }
    ensures number { result.sees.number ≡ seat.sees.number }
{
    let mut w = seat;
    for _ in rt.forever() {
        if is_stopped(table, &mut w) {
            return w;
        }
        match table.draw(&mut w) {
            Drawn::NoMore => return w,
            Drawn::Ticket(entry) => {
                let (back, served) = serve_ticket(rt, table, w, gate, entry, searcher);
                w = back;
                if !served {
                    return w;
                }
            }
        }
    }
    unreachable!()
}

/// Whether the table is stopped, for a seat that runs nothing.
fn is_stopped(table: &CheckTable, w: &mut WorkerSeat) -> bool
    requires own { IsWorkerOf table.now w.old }
    requires rests { IsRunning w.old.sees → ⊥ }
    ensures own { IsWorkerOf table.now w.new }
    ensures same { SameRest w.old.sees w.new.sees }
    ensures saw { IsTrue result → w.new.sees.saw_stop ≡ true }
{
    table.stopped(w)
}

/// Answers for the entry of the ticket, as soon as it is posted. False where the stop was seen before.
fn serve_ticket<R: Wait + Sync, G: Gate>(
    rt: &R,
    table: &CheckTable,
    seat: WorkerSeat,
    gate: &G,
    entry: u32,
    searcher: &mut KeptSearcher<'_>,
) -> (WorkerSeat, bool)
    requires own { IsWorkerOf table.now seat }
    requires problem { table.now.problem ≡ searcher.old }
    requires holding { IsHolding seat.sees }
    ensures own { IsWorkerOf table.now result.0 }
    ensures same { SameSeat seat.sees result.0.sees }
    ensures served { IsTrue result.1 → IsIdle result.0.sees }
    ensures holds { IsFalse result.1 → IsHolding result.0.sees }
    ensures stopped { IsFalse result.1 → result.0.sees.saw_stop ≡ true }
    ensures problem { searcher.new ≡ searcher.old }
{
    let mut w = seat;
    gate.before(entry);
    let mut patience = Patience::new();
    for _ in rt.forever() {
        match table.claim(&mut w) {
            Claimed::Taken => {
                let (w, kept) = run_entry(table, w, searcher);
                if kept {
                    gate.answered(entry);
                }
                return (w, true);
            }
            Claimed::Gone => return (w, true),
            Claimed::NotYet => {
                if is_stopped(table, &mut w) {
                    return (w, false);
                }
                patience.pause(rt);
            }
        }
    }
    unreachable!()
}

/// Answers for the entry that the seat runs, or gives it up. Whether the answer stands in the table.
fn run_entry(
    table: &CheckTable,
    seat: WorkerSeat,
    searcher: &mut KeptSearcher<'_>,
) -> (WorkerSeat, bool)
    requires own { IsWorkerOf table.now seat }
    requires problem { table.now.problem ≡ searcher.old }
    requires running { IsRunning seat.sees }
    ensures own { IsWorkerOf table.now result.0 }
    ensures same { SameSeat seat.sees result.0.sees }
    ensures idle { IsIdle result.0.sees }
    ensures problem { searcher.new ≡ searcher.old }
{
    let mut w = seat;
    let Ok(key) = searcher.read(table, &mut w) else {
        table.give_up(&mut w, GaveUp::Memory);
        return (w, false);
    };
    let mut stop = SeatStop::new(table, w);
    let found = searcher.verdict(&key, &mut stop);
    let mut w = stop.into_seat();
    let kept = leave_entry(table, &mut w, found);
    (w, kept)
}

/// Answers for the entry with what was found, or gives it up. Whether the answer stands in the table.
fn leave_entry(table: &CheckTable, w: &mut WorkerSeat, found: Result<Verdict, SolveError>) -> bool
    requires own { IsWorkerOf table.now w.old }
    requires running { IsRunning w.old.sees }
    requires right { (verdict : Answer) → found ≡ Ok verdict → IsVerdict w.old.sees verdict }
    requires cause { found ≡ Err SolveError.Stopped → MayGiveUp GaveUp.Stopped w.old.sees }
    ensures own { IsWorkerOf table.now w.new }
    ensures same { SameSeat w.old.sees w.new.sees }
    ensures idle { IsIdle w.new.sees }
{
    match found {
        Ok(verdict) => table.answer(w, verdict) == Left::Kept,
        Err(SolveError::Stopped) => {
            table.give_up(w, GaveUp::Stopped);
            false
        }
        Err(SolveError::Memory) => {
            table.give_up(w, GaveUp::Memory);
            false
        }
    }
}
