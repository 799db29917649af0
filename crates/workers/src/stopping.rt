//! A worker's seat as the stop of its search.
ghost use Rattle.std.specs.Prelude.{◌≡◌, ◌<◌, ◌≤◌, ◌||◌, IsTrue, true};
ghost use Rattle.lists.specs.Rising.{Rises};
ghost use Rattle.check_table.specs.Laws.{Looked};
ghost use Rattle.check_table.specs.Seats.{IsWorkerOf};
ghost use Rattle.workers.specs.Stopping.{counted};
ghost use Rattle.workers.specs.inside.Staying.{SeatStays};
ghost use Rattle.workers.specs.inside.StayLaws.{stays-reflexive, stays-transitive};

use check_table::{CheckTable, WorkerSeat};
use solver::Stop;
use std::marker::Model;

/// The `Stop` of a worker's search. It holds the worker's seat while the search runs: the search is to stop where the table
/// is stopped, or where the entry that the seat runs is cancelled.
#[derive(Drop)]
pub struct SeatStop<'a> {
    table: &'a CheckTable,
    seat: WorkerSeat,
    /// How often the search was told to stop.
    raised: u64,
}

impl<'a> Model for SeatStop<'a> {
    ghost use Rattle.std.specs.Prelude.{◌≡◌, ◌<◌, ◌||◌, true};
    ghost use Rattle.check_table.specs.Seats.{IsWorkerOf};
    ghost use Rattle.workers.specs.Stopping.{Stopping};

    ghost Value = { Stopping };

    ghost view = { λ a. record { table = a.table.now; seat = a.seat; raised = a.raised } };

    ghost invariant = { λ a. IsWorkerOf a.table.now a.seat × (0 < a.raised → (a.seat.sees.saw_stop || a.seat.sees.saw_mark) ≡ true) };
}

impl<'a> SeatStop<'a> {
    /// Nobody was told to stop yet.
    pub fn new(table: &'a CheckTable, seat: WorkerSeat) -> SeatStop<'a>
        requires { IsWorkerOf table.now seat }
        ensures table { result.table ≡ table.now }
        ensures seat { result.seat ≡ seat }
        ensures raised { result.raised ≡ 0 }
    {
        SeatStop {
            table,
            seat,
            raised: 0,
        }
    }

    /// Hands the seat back.
    pub fn into_seat(self) -> WorkerSeat
        ensures seat { result ≡ self.entry.seat }
        ensures own { IsWorkerOf self.entry.table result }
        ensures saw { 0 < self.entry.raised → (result.sees.saw_stop || result.sees.saw_mark) ≡ true }
    {
        let SeatStop { seat, .. } = self;
        seat
    }
}

impl<'a> Stop for SeatStop<'a> {
    ghost raised = { λ stop. stop.raised };

    ghost stays = { SeatStays };

    ghost reflexive = { stays-reflexive };

    ghost transitive = { stays-transitive };

    fn asked(&mut self) -> bool
        ensures stopped { IsTrue result → Rises self.old.raised self.new.raised }
        ensures never_falls { self.old.raised ≤ self.new.raised }
        ensures stays { SeatStays self.old self.new }
        ensures looks { Looked self.old.seat.sees self.new.seat.sees result }
        ensures counts { self.new.raised ≡ counted result self.old.raised }
    {
        let stopped = self.table.stopped(&mut self.seat);
        if stopped {
            self.raised = self.raised.saturating_add(1);
        }
        stopped
    }
}
