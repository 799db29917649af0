//! The two kinds of seat.
use crate::view::View;
use atomic_table::Seat;
use std::marker::Model;

/// What the main thread acts with: it posts, takes, looks, cancels and stops, and lets workers in and out.
#[derive(Drop)]
pub struct MainSeat {
    pub(crate) seat: Seat<(), View>,
    pub(crate) posted: u32,
    pub(crate) made: u32,
}

impl Model for MainSeat {
    ghost use Rattle.check_table.specs.Seats.{MainSees};
    ghost use Rattle.check_table.specs.inside.Seated.{main_of, MainKept};

    ghost Value = { MainSees };

    ghost view = { λ a. record { table = a.seat.table_id; sees = main_of a.seat.me.0 } };

    ghost invariant = { λ a. MainKept a.seat.id a.seat.me a.posted a.made (main_of a.seat.me.0) };
}

/// What a worker acts with: it draws tickets, claims their entries, reads their keys and answers.
#[derive(Drop)]
pub struct WorkerSeat {
    pub(crate) seat: Seat<(), View>,
    pub(crate) number: u64,
    pub(crate) ticket: u32,
    pub(crate) running: bool,
}

impl Model for WorkerSeat {
    ghost use Rattle.std.specs.Prelude.{◌≡◌, ◌≤◌, []};
    ghost use Rattle.check_table.specs.Seats.{WorkerSees};
    ghost use Rattle.check_table.specs.inside.Seated.{worker_of, TicketIs, RunningIs};
    ghost use Rattle.check_table.specs.declared.view.View.TheVariants.{Worker};

    ghost Value = { WorkerSees };

    ghost view = { λ a. record { table = a.seat.table_id; sees = worker_of a.seat.me.0 } };

    ghost invariant = { λ a. (a.seat.me ≡ (Worker (worker_of a.seat.me.0), [])) × ((worker_of a.seat.me.0).number ≡ a.number) × (a.number ≤ 64) × TicketIs a.ticket (worker_of a.seat.me.0).size (worker_of a.seat.me.0).stage × RunningIs a.running (worker_of a.seat.me.0).stage };
}
