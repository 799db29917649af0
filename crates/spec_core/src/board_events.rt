//! The events on a board. Each call makes its event where it is enabled, and answers whether it was.
ghost use Rattle.std.specs.Prelude.{◌≡◌, ◌≤◌, ◌<◌, ◌-◌, IfNone, IfOk, IfSome, IsTrue, None, OnErr, Some, length, slice_get, slice_set, true};
ghost use Rattle.board.specs.Board.{is_mine, is_posted, is_run_by, some_ticket, tickets_of};
ghost use Rattle.board.specs.Events as events;
ghost use Rattle.board.specs.declared.state.Entry.{Entry};
ghost use Rattle.req_keys.specs.Key.{PositionSet};
ghost use Rattle.req_keys.specs.declared.verdict.Cell.{Cell};
ghost use Rattle.spec_core.specs.Rounds.{run_at};
ghost use Rattle.spec_core.specs.inside.Making.{IsMade, change_of};

use crate::event::Event;
use board::{Board, Entry};
use lists::Row;
use req_keys::{Cell, Key};
use std::alloc::AllocError;

/// The worker's ticket, where there is such a worker.
fn ticket_of(tickets: &[Option<u32>], worker: u32) -> Option<Option<u32>>
    ensures { result ≡ tickets_of worker tickets.now }
{
    if worker == 0 {
        return None;
    }
    tickets.get(worker as usize - 1).copied()
}

/// The worker has this ticket from now on, or none.
fn set_ticket(tickets: &mut Row<Option<u32>>, worker: u32, ticket: Option<u32>)
    requires counted { 1 ≤ worker }
    requires within { worker ≤ length tickets.old }
    ensures { tickets.new ≡ slice_set tickets.old (worker - 1) ticket }
{
    let place = tickets.get_mut(worker as usize - 1);
    *place = ticket;
}

/// The entry has this cell from now on.
fn set_cell(entries: &mut Row<Entry>, number: u32, cell: Cell)
    requires { number < length entries.old }
    ensures { (entry : Entry) → slice_get entries.old number ≡ Some entry → entries.new ≡ slice_set entries.old number (record entry { cell = cell }) }
{
    let entry = entries.get_mut(number as usize);
    entry.cell = cell;
}

/// The entry has the mark from now on.
fn set_mark(entries: &mut Row<Entry>, number: u32)
    requires { number < length entries.old }
    ensures { (entry : Entry) → slice_get entries.old number ≡ Some entry → entries.new ≡ slice_set entries.old number (record entry { cancelled = true }) }
{
    let entry = entries.get_mut(number as usize);
    entry.cancelled = true;
}

fn is_posted(cell: Cell) -> bool
    ensures { result ≡ is_posted cell }
{
    matches!(cell, Cell::Posted)
}

fn is_mine(cell: Cell) -> bool
    ensures { result ≡ is_mine cell }
{
    matches!(cell, Cell::Mine)
}

/// Whether the worker runs an entry with this cell.
fn is_run_by(worker: u32, cell: Cell) -> bool
    ensures { result ≡ is_run_by worker cell }
{
    match cell {
        Cell::Running(other) => other == worker,
        _ => false,
    }
}

/// Whether the worker runs the entry with this number.
fn is_run_at(entries: &[Entry], number: u32, worker: u32) -> bool
    ensures { result ≡ run_at (slice_get entries.now number) worker }
{
    match entries.get(number as usize) {
        None => false,
        Some(entry) => is_run_by(worker, entry.cell),
    }
}

/// The number of the entry that the worker runs.
pub(crate) fn run_by(board: &Board, worker: u32) -> Option<u32>
    ensures ticket { IfSome result (λ number. tickets_of worker board.now.tickets ≡ Some (Some number)) }
    ensures runs { IfSome result (λ number. IsTrue (run_at (slice_get board.now.entries number) worker)) }
    ensures none { IfNone result ((says : PositionSet → Cell) → events.finish_by (tickets_of worker board.now.tickets) says worker board.now ≡ None) }
{
    let Some(Some(number)) = ticket_of(board.tickets.as_slice(), worker) else {
        return None;
    };
    if !is_run_at(board.entries.as_slice(), number, worker) {
        return None;
    }
    Some(number)
}

/// Posts a key, over so many positions. After want of memory the board is as it was.
pub(crate) fn post(board: &mut Board, n: u32, key: &Key) -> Result<bool, AllocError>
    ensures made { IfOk result (λ made. IsMade (events.post n key.now board.old) board.old made board.new) }
    ensures err { OnErr result (board.new ≡ board.old) }
{
    if board.stopped || board.entries.len() >= board.size as usize || key.n() != n {
        return Ok(false);
    }
    let key = key.copy()?;
    board.entries.push(Entry {
        key,
        cell: Cell::Posted,
        cancelled: false,
    })?;
    Ok(true)
}

fn draw(board: &mut Board, worker: u32) -> bool
    ensures { IsMade (events.draw worker board.old) board.old result board.new }
{
    let Some(None) = ticket_of(board.tickets.as_slice(), worker) else {
        return false;
    };
    if board.stopped || board.cursor >= board.size {
        return false;
    }
    set_ticket(&mut board.tickets, worker, Some(board.cursor));
    board.cursor += 1;
    true
}

fn claim(board: &mut Board, worker: u32) -> bool
    ensures { IsMade (events.claim worker board.old) board.old result board.new }
{
    let Some(Some(number)) = ticket_of(board.tickets.as_slice(), worker) else {
        return false;
    };
    let Some(entry) = board.entries.as_slice().get(number as usize) else {
        return true;
    };
    if is_run_by(worker, entry.cell) {
        return false;
    }
    if is_posted(entry.cell) && !entry.cancelled {
        set_cell(&mut board.entries, number, Cell::Running(worker));
        return true;
    }
    set_ticket(&mut board.tickets, worker, None);
    true
}

/// The worker ends the run of its entry, which holds the cell from now on, unless it has the mark.
pub(crate) fn finish(board: &mut Board, worker: u32, cell: Cell) -> bool
    ensures { IsMade (events.finish_by (tickets_of worker board.old.tickets) (λ key. cell) worker board.old) board.old result board.new }
{
    let Some(number) = run_by(board, worker) else {
        return false;
    };
    if !board.entries.get(number as usize).cancelled {
        set_cell(&mut board.entries, number, cell);
    }
    set_ticket(&mut board.tickets, worker, None);
    true
}

fn cancel(board: &mut Board, number: u32) -> bool
    ensures { IsMade (events.cancel number board.old) board.old result board.new }
{
    let Some(entry) = board.entries.as_slice().get(number as usize) else {
        return false;
    };
    if entry.cancelled || is_mine(entry.cell) {
        return false;
    }
    set_mark(&mut board.entries, number);
    true
}

fn take(board: &mut Board, number: u32) -> bool
    ensures { IsMade (events.take number board.old) board.old result board.new }
{
    let Some(entry) = board.entries.as_slice().get(number as usize) else {
        return false;
    };
    if entry.cancelled || !is_posted(entry.cell) {
        return false;
    }
    set_cell(&mut board.entries, number, Cell::Mine);
    true
}

fn stop(board: &mut Board) -> bool
    ensures { IsMade (events.stop board.old) board.old result board.new }
{
    if board.stopped {
        return false;
    }
    board.stopped = true;
    true
}

fn leave(board: &mut Board, worker: u32) -> bool
    ensures { IsMade (events.leave worker board.old) board.old result board.new }
{
    let Some(Some(number)) = ticket_of(board.tickets.as_slice(), worker) else {
        return false;
    };
    if !board.stopped || is_run_at(board.entries.as_slice(), number, worker) {
        return false;
    }
    set_ticket(&mut board.tickets, worker, None);
    true
}

/// Whether some worker has a ticket.
fn has_ticket(tickets: &[Option<u32>]) -> bool
    ensures { result ≡ some_ticket tickets.now }
{
    tickets.iter().any(|ticket| ticket.is_some())
}

fn new_round(board: &mut Board) -> bool
    ensures { IsMade (events.new_round board.old) board.old result board.new }
{
    if !board.stopped || has_ticket(board.tickets.as_slice()) {
        return false;
    }
    board.entries.truncate(0);
    board.cursor = 0;
    board.stopped = false;
    true
}

/// An event that is on the board alone, and neither posts nor answers.
pub(crate) fn change(board: &mut Board, event: &Event) -> bool
    ensures { IsMade (change_of event.now board.old) board.old result board.new }
{
    match event {
        Event::Draw(worker) => draw(board, *worker),
        Event::Claim(worker) => claim(board, *worker),
        Event::GiveUp(worker) => finish(board, *worker, Cell::GivenUp),
        Event::Cancel(number) => cancel(board, *number),
        Event::Take(number) => take(board, *number),
        Event::Stop => stop(board),
        Event::Leave(worker) => leave(board, *worker),
        Event::Round => new_round(board),
        Event::Post(_) | Event::Answer(_) | Event::Use(_) | Event::Solve => false,
    }
}
