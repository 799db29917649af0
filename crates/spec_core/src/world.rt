//! A world that events change.
ghost use Rattle.std.specs.Prelude.{◌≡◌, ◌≤◌, IfNone, IfOk, IfSome, None, OnErr, OnOk, Some, [], false, is_some, length, slice_get};
ghost use Rattle.board.specs.Board.{fresh_board};
ghost use Rattle.board.specs.Events as events;
ghost use Rattle.board.specs.declared.state.Board.{Board};
ghost use Rattle.req_keys.specs.declared.verdict.Cell.{Cell};
ghost use Rattle.script.specs.Sequential.{verdicts_of};
ghost use Rattle.spec_core.specs.World as worlds;
ghost use Rattle.spec_core.specs.World.{ends_as, new_world, step, world_after};
ghost use Rattle.spec_core.specs.inside.Fitting.{IsFit, world_of};
ghost use Rattle.spec_core.specs.inside.Making.{AreOver, IsMade, usable_at};

use crate::board_events::{change, finish, post, run_by};
use crate::event::Event;
use board::{Board, Entry};
use clauses::Problem;
use lists::Row;
use req_keys::{Cell, Key, Verdict, Want};
use script::{JobPlan, Outcome, Run, Used};
use solver::{NoStop, Searcher, SolveError};
use std::alloc::{AllocError, Global};
use std::marker::Model;

/// A plan on a problem, the pairs that its job was told, and the board on which workers answer.
#[derive(Drop)]
pub struct World<'a> {
    /// The plan and the told pairs.
    run: Run,
    board: Board,
    /// Finds the verdicts on the problem. It is kept over all events, so that no search is set up twice.
    searcher: Searcher<'a>,
}

impl<'a> Model for World<'a> {
    ghost use Rattle.spec_core.specs.World.{WorldOn};
    ghost use Rattle.spec_core.specs.inside.Fitting.{IsFit, world_of};

    ghost Value = { WorldOn };

    ghost view = { λ a. record { problem = a.searcher; world = world_of a.run a.board } };

    ghost invariant = { λ a. IsFit a.run a.board a.searcher };
}

/// The verdict of a key.
fn verdict_on(searcher: &mut Searcher<'_>, key: &Key) -> Result<Verdict, AllocError>
    requires { key.now.n ≡ length searcher.old.roots }
    ensures verdict { IfOk result (λ verdict. verdict ≡ verdicts_of searcher.old key.now) }
    ensures problem { searcher.new ≡ searcher.old }
{
    match searcher.verdict(key, &mut NoStop) {
        Ok(verdict) => Ok(verdict),
        // Nobody stops the search, so this is want of memory.
        Err(SolveError::Memory | SolveError::Stopped) => Err(AllocError),
    }
}

/// What the worker that runs the entry leaves there. An entry with the mark keeps its cell, so nothing is searched for.
fn left_in(searcher: &mut Searcher<'_>, entry: &Entry) -> Result<Cell, AllocError>
    requires { entry.now.key.n ≡ length searcher.old.roots }
    ensures answered { entry.now.cancelled ≡ false → IfOk result (λ cell. cell ≡ Cell.Answered (verdicts_of searcher.old entry.now.key)) }
    ensures problem { searcher.new ≡ searcher.old }
{
    if entry.cancelled {
        return Ok(entry.cell);
    }
    let verdict = verdict_on(searcher, &entry.key)?;
    Ok(Cell::Answered(verdict))
}

/// The worker answers the entry that it runs.
fn answer(board: &mut Board, searcher: &mut Searcher<'_>, worker: u32) -> Result<bool, AllocError>
    requires { AreOver (length searcher.old.roots) board.old }
    ensures made { IfOk result (λ made. IsMade (events.answer (verdicts_of searcher.old) worker board.old) board.old made board.new) }
    ensures problem { searcher.new ≡ searcher.old }
    ensures err { OnErr result (board.new ≡ board.old) }
{
    let Some(number) = run_by(board, worker) else {
        return Ok(false);
    };
    let cell = left_in(searcher, board.entries.get(number as usize))?;
    Ok(finish(board, worker, cell))
}

/// The job posts a key, while it isn't done.
fn post_asked(run: &Run, board: &mut Board, key: &Key) -> Result<bool, AllocError>
    ensures made { IfOk result (λ made. IsMade (worlds.post key.now (world_of run.now board.old)) (world_of run.now board.old) made (world_of run.now board.new)) }
    ensures err { OnErr result (board.new ≡ board.old) }
{
    let Want::Ask(asked) = run.want() else {
        return Ok(false);
    };
    post(board, asked.n(), key)
}

/// The answer of the entry with this number, where the entry is about the asked key and hasn't the mark.
fn usable(entries: &[Entry], number: u32, asked: &Key) -> Option<Verdict>
    ensures { result ≡ usable_at (slice_get entries.now number) asked.now }
{
    let entry = entries.get(number as usize)?;
    if entry.cancelled || entry.key != *asked {
        return None;
    }
    match entry.cell {
        Cell::Answered(verdict) => Some(verdict),
        _ => None,
    }
}

/// The job is told the answer of the entry.
fn use_entry(run: &mut Run, board: &Board, number: u32) -> Result<bool, AllocError>
    ensures made { IfOk result (λ made. IsMade (worlds.use_entry number (world_of run.old board.now)) (world_of run.old board.now) made (world_of run.new board.now)) }
    ensures err { OnErr result (run.new ≡ run.old) }
{
    let Want::Ask(asked) = run.want() else {
        return Ok(false);
    };
    let Some(verdict) = usable(board.entries.as_slice(), number, asked) else {
        return Ok(false);
    };
    run.tell(verdict)?;
    Ok(true)
}

/// The job is told what a search of its own finds out.
fn solve(run: &mut Run, searcher: &mut Searcher<'_>) -> Result<bool, AllocError>
    requires { run.old.plan.requirements ≡ length searcher.old.roots }
    ensures made { (board : Board) → IfOk result (λ made. IsMade (worlds.solve (verdicts_of searcher.old) (world_of run.old board)) (world_of run.old board) made (world_of run.new board)) }
    ensures problem { searcher.new ≡ searcher.old }
    ensures err { OnErr result (run.new ≡ run.old) }
{
    let Want::Ask(asked) = run.want() else {
        return Ok(false);
    };
    let verdict = verdict_on(searcher, asked)?;
    run.tell(verdict)?;
    Ok(true)
}

/// Makes an event on the parts of a world.
fn make(
    run: &mut Run,
    board: &mut Board,
    searcher: &mut Searcher<'_>,
    event: &Event,
) -> Result<bool, AllocError>
    requires { IsFit run.old board.old searcher.old }
    ensures made { IfOk result (λ made. IsMade (world_after (verdicts_of searcher.old) event.now (world_of run.old board.old)) (world_of run.old board.old) made (world_of run.new board.new)) }
    ensures problem { searcher.new ≡ searcher.old }
    ensures err_run { OnErr result (run.new ≡ run.old) }
    ensures err_board { OnErr result (board.new ≡ board.old) }
{
    match event {
        Event::Post(key) => post_asked(run, board, key),
        Event::Answer(worker) => answer(board, searcher, *worker),
        Event::Use(number) => use_entry(run, board, *number),
        Event::Solve => solve(run, searcher),
        _ => Ok(change(board, event)),
    }
}

/// The run of a job about the problem's requirements.
fn new_run(alloc: Global, problem: &Problem, plan: JobPlan) -> Result<Run, AllocError>
    requires plan { plan.requirements ≡ length problem.now.roots }
    requires list { IfSome plan.list (λ size. size ≤ 4096) }
    ensures { IfOk result (λ run. run ≡ record { plan = plan; told = [] }) }
{
    let same = plan.requirements == problem.n();
    prove!(same);
    Run::new(alloc, plan)
}

/// A board with these workers, on which nothing is posted and no ticket drawn.
fn new_board(alloc: Global, workers: u32, size: u32) -> Result<Board, AllocError>
    ensures { IfOk result (λ board. board ≡ fresh_board workers size) }
{
    let tickets = vec![in alloc; None; workers as usize]?;
    Ok(Board {
        entries: Row::new(alloc),
        cursor: 0,
        tickets: Row::from_vec(tickets),
        stopped: false,
        size,
    })
}

impl<'a> World<'a> {
    /// The world of a job to which nothing is told yet: nothing stands on its board, and its workers have no ticket.
    pub fn new(
        alloc: Global,
        problem: &'a Problem,
        plan: JobPlan,
        workers: u32,
        entries: u32,
    ) -> Result<World<'a>, AllocError>
        requires plan { plan.requirements ≡ length problem.now.roots }
        requires list { IfSome plan.list (λ size. size ≤ 4096) }
        requires workers { workers ≤ 64 }
        requires least { 1 ≤ entries }
        requires most { entries ≤ 4096 }
        ensures { IfOk result (λ world. world ≡ record { problem = problem.now; world = new_world plan workers entries }) }
    {
        let board = new_board(alloc, workers, entries)?;
        let searcher = Searcher::new(alloc, problem)?;
        let run = new_run(alloc, problem, plan)?;
        Ok(World {
            run,
            board,
            searcher,
        })
    }

    /// Makes an event. The answer is false where the event isn't enabled, and then the world is as it was; so it is after want of
    /// memory.
    pub fn step(&mut self, event: &Event) -> Result<bool, AllocError>
        ensures enabled { IfOk result (λ made. made ≡ is_some (world_after (verdicts_of self.old.problem) event.now self.old.world)) }
        ensures after { OnOk result (self.new ≡ record { problem = self.old.problem; world = step (verdicts_of self.old.problem) self.old.world event.now }) }
        ensures passed_over { result ≡ Ok false → self.new ≡ self.old }
        ensures err { OnErr result (self.new ≡ self.old) }
    {
        make(&mut self.run, &mut self.board, &mut self.searcher, event)
    }

    /// What the job was told, in order.
    pub fn used(&self) -> &Used
        ensures { result.now ≡ self.now.world.told }
    {
        self.run.used()
    }

    /// How the job ended, where it is done.
    pub fn finished(&self) -> Option<&Outcome>
        ensures outcome { IfSome result (λ outcome. ends_as self.now.world ≡ Some outcome.now) }
        ensures none { IfNone result (ends_as self.now.world ≡ None) }
    {
        match self.run.want() {
            Want::Ask(_) => None,
            Want::Done => Some(self.run.outcome()),
        }
    }
}
