//! The rounds of a job, each on a table of its own with its own workers.
ghost use Rattle.std.specs.Prelude.{◌≡◌, ◌≤◌, ◌+◌, IfOk, IsSome, None, false, length};
ghost use Rattle.check_table.specs.Seats.{IsMainOf, IsWorkerOf};
ghost use Rattle.diag_workers.specs.inside.Course.{BeginsRound, IsNext};
ghost use Rattle.diag_workers.specs.inside.Seats.{IsBack, IsFresh};
ghost use Rattle.diag_workers.specs.inside.Ready.{IsReady};

use crate::course::Course;
use crate::options::Options;
use crate::turns::serve_round;
use check_table::{CheckTable, MainSeat, WorkerSeat};
use clauses::Problem;
use look_ahead::guessed_keys_fit_a_turn;
use serving::{rounds_begin, turns_follow};
use std::alloc::{AllocError, Global};
use std::snapshot::Snapshot;
use std::sync::Wait;
use std::thread;
use std::thread::{Promise, Scope, Threads};
use workers::{Gate, worker};

/// What a worker hands back: its seat, which may leave the table.
#[derive(Drop)]
struct Back {
    table: Snapshot<CheckTable>,
}

impl Promise<WorkerSeat> for Back {
    ghost kept_by = { λ back seat. IsBack back.table.value seat };
}

/// Makes rounds until the job is done.
pub(crate) fn make_rounds<R: Threads + Wait + Sync, G: Gate>(
    rt: &R,
    alloc: Global,
    problem: &Problem,
    options: &Options,
    course: Course,
    gate: &G,
) -> Result<Course, AllocError>
    requires workers { options.now.workers ≤ 64 }
    requires ahead { options.now.ahead ≤ 6 }
    requires least { 1 ≤ options.now.entries }
    requires most { options.now.entries ≤ 4096 }
    requires plan { course.run.plan.requirements ≡ length problem.now.roots }
    requires next { IsNext problem.now options.now.ahead options.now.entries course.run course.posting course.next }
    requires begins { BeginsRound course.run course.next }
    ensures plan { IfOk result (λ done. done.run.plan ≡ course.run.plan) }
    ensures next { IfOk result (λ done. IsNext problem.now options.now.ahead options.now.entries done.run done.posting None) }
{
    let mut course = course;
    'rounds: for _ in rt.forever() {
        if course.next.is_none() {
            return Ok(course);
        }
        course = make_round(rt, alloc, problem, options, course, gate)?;
    }
    unreachable!()
}

/// Makes the round that the turn begins: on a new table, with as many workers as can be started. In the end the table is stopped,
/// the workers' seats have left, and it is closed.
fn make_round<R: Threads + Wait + Sync, G: Gate>(
    rt: &R,
    alloc: Global,
    problem: &Problem,
    options: &Options,
    course: Course,
    gate: &G,
) -> Result<Course, AllocError>
    requires workers { options.now.workers ≤ 64 }
    requires ahead { options.now.ahead ≤ 6 }
    requires least { 1 ≤ options.now.entries }
    requires most { options.now.entries ≤ 4096 }
    requires plan { course.run.plan.requirements ≡ length problem.now.roots }
    requires next { IsNext problem.now options.now.ahead options.now.entries course.run course.posting course.next }
    requires begins { BeginsRound course.run course.next }
    requires turn { IsSome course.next }
    ensures plan { IfOk result (λ after. after.run.plan ≡ course.run.plan) }
    ensures next { IfOk result (λ after. IsNext problem.now options.now.ahead options.now.entries after.run after.posting after.next) }
    ensures begins { IfOk result (λ after. BeginsRound after.run after.next) }
{
    guessed_keys_fit_a_turn();
    rounds_begin();
    turns_follow();
    let (table, main) = CheckTable::open(alloc, problem, options.entries)?;
    let workers = options.workers;
    let depth = options.ahead;
    let (main, served) = share_round(
        rt, alloc, problem, &table, main, workers, depth, course, gate,
    );
    table.close(main);
    served
}

/// Makes a round on the table with so many workers, in one scope: when it answers, none of them is left.
fn share_round<R: Threads + Wait + Sync, G: Gate>(
    rt: &R,
    alloc: Global,
    problem: &Problem,
    table: &CheckTable,
    main: MainSeat,
    workers: u32,
    depth: u8,
    course: Course,
    gate: &G,
) -> (MainSeat, Result<Course, AllocError>)
    requires own { IsMainOf table.now main }
    requires running { main.sees.stopped ≡ false }
    requires workers { main.sees.made + workers ≤ 64 }
    requires left { main.sees.left ≡ main.sees.made }
    requires depth { depth ≤ 6 }
    requires problem { table.now.problem ≡ problem.now }
    requires plan { course.run.plan.requirements ≡ length problem.now.roots }
    requires next { IsNext problem.now depth table.now.size course.run course.posting course.next }
    requires ready { IsReady main.sees course.posting course.next }
    ensures own { IsMainOf table.now result.0 }
    ensures left { result.0.sees.left ≡ result.0.sees.made }
    ensures plan { IfOk result.1 (λ after. after.run.plan ≡ course.run.plan) }
    ensures next { IfOk result.1 (λ after. IsNext problem.now depth table.now.size after.run after.posting after.next) }
    ensures begins { IfOk result.1 (λ after. BeginsRound after.run after.next) }
{
    thread::scope(
        thread::scope_env(),
        rt,
        |scope| -> (MainSeat, Result<Course, AllocError>)
            requires own { IsMainOf table.now main }
            requires running { main.sees.stopped ≡ false }
            requires workers { main.sees.made + workers ≤ 64 }
            requires left { main.sees.left ≡ main.sees.made }
            requires depth { depth ≤ 6 }
            requires problem { table.now.problem ≡ problem.now }
            requires plan { course.run.plan.requirements ≡ length problem.now.roots }
            requires next { IsNext problem.now depth table.now.size course.run course.posting course.next }
            requires ready { IsReady main.sees course.posting course.next }
            ensures own { IsMainOf table.entry.now result.0 }
            ensures left { result.0.sees.left ≡ result.0.sees.made }
            ensures plan { IfOk result.1 (λ after. after.run.plan ≡ course.run.plan) }
            ensures next { IfOk result.1 (λ after. IsNext problem.entry.now depth table.entry.now.size after.run after.posting after.next) }
            ensures begins { IfOk result.1 (λ after. BeginsRound after.run after.next) }
        {
            with_workers(
                scope, rt, workers, alloc, problem, table, main, depth, course, gate,
            )
        },
    )
}

/// Starts so many workers in the scope, makes the main thread's part, stops the table, and takes the workers' seats in. A worker that
/// can't be started is called after the stop, which it sees at its first look.
fn with_workers<'s, E: 's, R: Threads + Wait + Sync, G: Gate>(
    scope: &'s Scope<'s, E>,
    rt: &'s R,
    workers: u32,
    alloc: Global,
    problem: &'s Problem,
    table: &'s CheckTable,
    main: MainSeat,
    depth: u8,
    course: Course,
    gate: &'s G,
) -> (MainSeat, Result<Course, AllocError>)
    requires own { IsMainOf table.now main }
    requires running { main.sees.stopped ≡ false }
    requires workers { main.sees.made + workers ≤ 64 }
    requires depth { depth ≤ 6 }
    requires problem { table.now.problem ≡ problem.now }
    requires plan { course.run.plan.requirements ≡ length problem.now.roots }
    requires next { IsNext problem.now depth table.now.size course.run course.posting course.next }
    requires ready { IsReady main.sees course.posting course.next }
    ensures own { IsMainOf table.now result.0 }
    ensures left { result.0.sees.left + main.sees.made ≡ result.0.sees.made + main.sees.left }
    ensures plan { IfOk result.1 (λ after. after.run.plan ≡ course.run.plan) }
    ensures next { IfOk result.1 (λ after. IsNext problem.now depth table.now.size after.run after.posting after.next) }
    ensures begins { IfOk result.1 (λ after. BeginsRound after.run after.next) }
{
    let mut main = main;
    if workers == 0 {
        let served = serve_round(rt, alloc, problem, table, &mut main, depth, course, gate);
        table.stop(&mut main);
        return (main, served);
    }
    let seat = table.seat(&mut main);
    let back = Back {
        table: Snapshot::of(table),
    };
    let child = scope.spawn_with(
        back,
        move || -> WorkerSeat
            requires { IsWorkerOf table.now seat × IsFresh seat.sees × (table.now.problem ≡ problem.now) }
            ensures { IsBack table.entry.now result }
        { worker(rt, alloc, problem, table, seat, gate) },
    );
    let (mut main, served) = with_workers(
        scope,
        rt,
        workers - 1,
        alloc,
        problem,
        table,
        main,
        depth,
        course,
        gate,
    );
    let seat = match child {
        Ok(child) => child.join(rt),
        Err(refused) => (refused.value)(),
    };
    table.leave(&mut main, seat);
    (main, served)
}
