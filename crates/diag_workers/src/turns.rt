//! The turns of a round, on the main thread.
ghost use Rattle.std.specs.Prelude.{◌≡◌, ◌≤◌, IfOk, IsFalse, IsTrue, OnOk, Some, false, length, true};
ghost use Rattle.check_table.specs.Seats.{IsMainOf};
ghost use Rattle.diag_workers.specs.inside.Course.{BeginsRound, IsNext};
ghost use Rattle.diag_workers.specs.inside.Ready.{IsReady};
ghost use Rattle.look_ahead.specs.declared.orders.Orders.{Orders as Ordered};

use crate::course::{Course, next_turn};
use check_table::{CheckTable, MainSeat};
use clauses::Problem;
use look_ahead::{Orders, guessed_keys_fit_a_turn, turns_go_on};
use serving::{serve, turns_follow};
use solver::Searcher;
use std::alloc::{AllocError, Global};
use std::sync::Wait;
use workers::Gate;

/// The main thread's part of a round, from the turn that begins it on. It makes one search for all its turns.
pub(crate) fn serve_round<R: Wait, G: Gate>(
    rt: &R,
    alloc: Global,
    problem: &Problem,
    table: &CheckTable,
    main: &mut MainSeat,
    depth: u8,
    course: Course,
    gate: &G,
) -> Result<Course, AllocError>
    requires problem { table.now.problem ≡ problem.now }
    requires depth { depth ≤ 6 }
    requires plan { course.run.plan.requirements ≡ length problem.now.roots }
    requires own { IsMainOf table.now main.old }
    requires running { main.old.sees.stopped ≡ false }
    requires next { IsNext problem.now depth table.now.size course.run course.posting course.next }
    requires ready { IsReady main.old.sees course.posting course.next }
    ensures plan { IfOk result (λ after. after.run.plan ≡ course.run.plan) }
    ensures next { IfOk result (λ after. IsNext problem.now depth table.now.size after.run after.posting after.next) }
    ensures begins { IfOk result (λ after. BeginsRound after.run after.next) }
    ensures own { IsMainOf table.now main.new }
    ensures seats { (main.new.sees.made ≡ main.old.sees.made) × (main.new.sees.left ≡ main.old.sees.left) }
{
    let mut course = course;
    serve_searching(rt, alloc, problem, table, main, depth, &mut course, gate)?;
    Ok(course)
}

/// Serves the turns of a round with one search.
fn serve_searching<R: Wait, G: Gate>(
    rt: &R,
    alloc: Global,
    problem: &Problem,
    table: &CheckTable,
    main: &mut MainSeat,
    depth: u8,
    course: &mut Course,
    gate: &G,
) -> Result<(), AllocError>
    requires problem { table.now.problem ≡ problem.now }
    requires depth { depth ≤ 6 }
    requires plan { course.old.run.plan.requirements ≡ length problem.now.roots }
    requires own { IsMainOf table.now main.old }
    requires running { main.old.sees.stopped ≡ false }
    requires next { IsNext problem.now depth table.now.size course.old.run course.old.posting course.old.next }
    requires ready { IsReady main.old.sees course.old.posting course.old.next }
    ensures plan { OnOk result (course.new.run.plan ≡ course.old.run.plan) }
    ensures next { OnOk result (IsNext problem.now depth table.now.size course.new.run course.new.posting course.new.next) }
    ensures begins { OnOk result (BeginsRound course.new.run course.new.next) }
    ensures own { IsMainOf table.now main.new }
    ensures seats { (main.new.sees.made ≡ main.old.sees.made) × (main.new.sees.left ≡ main.old.sees.left) }
{
    let mut searcher = Searcher::new(alloc, problem)?;
    serve_turns(rt, alloc, &mut searcher, table, main, depth, course, gate)
}

/// Serves turns until one begins a new round or the job is done.
fn serve_turns<R: Wait, G: Gate>(
    rt: &R,
    alloc: Global,
    searcher: &mut Searcher<'_>,
    table: &CheckTable,
    main: &mut MainSeat,
    depth: u8,
    course: &mut Course,
    gate: &G,
) -> Result<(), AllocError>
    requires searcher { searcher.old ≡ table.now.problem }
    requires depth { depth ≤ 6 }
    requires plan { course.old.run.plan.requirements ≡ length table.now.problem.roots }
    requires own { IsMainOf table.now main.old }
    requires running { main.old.sees.stopped ≡ false }
    requires next { IsNext table.now.problem depth table.now.size course.old.run course.old.posting course.old.next }
    requires ready { IsReady main.old.sees course.old.posting course.old.next }
    ensures plan { OnOk result (course.new.run.plan ≡ course.old.run.plan) }
    ensures next { OnOk result (IsNext table.now.problem depth table.now.size course.new.run course.new.posting course.new.next) }
    ensures begins { OnOk result (BeginsRound course.new.run course.new.next) }
    ensures own { IsMainOf table.now main.new }
    ensures seats { (main.new.sees.made ≡ main.old.sees.made) × (main.new.sees.left ≡ main.old.sees.left) }
{
    'turns: for _ in rt.forever() {
        if !serve_turn(rt, alloc, searcher, table, main, depth, course, gate)? {
            return Ok(());
        }
    }
    unreachable!()
}

/// Serves the turn that has begun, and begins the next one. Whether that is of the same round.
fn serve_turn<R: Wait, G: Gate>(
    rt: &R,
    alloc: Global,
    searcher: &mut Searcher<'_>,
    table: &CheckTable,
    main: &mut MainSeat,
    depth: u8,
    course: &mut Course,
    gate: &G,
) -> Result<bool, AllocError>
    requires searcher { searcher.old ≡ table.now.problem }
    requires depth { depth ≤ 6 }
    requires plan { course.old.run.plan.requirements ≡ length table.now.problem.roots }
    requires own { IsMainOf table.now main.old }
    requires running { main.old.sees.stopped ≡ false }
    requires next { IsNext table.now.problem depth table.now.size course.old.run course.old.posting course.old.next }
    requires ready { IsReady main.old.sees course.old.posting course.old.next }
    ensures plan { OnOk result (course.new.run.plan ≡ course.old.run.plan) }
    ensures next { OnOk result (IsNext table.now.problem depth table.now.size course.new.run course.new.posting course.new.next) }
    ensures same { IfOk result (λ same. IsTrue same → IsReady main.new.sees course.new.posting course.new.next) }
    ensures begins { IfOk result (λ same. IsFalse same → BeginsRound course.new.run course.new.next) }
    ensures searcher { searcher.new ≡ searcher.old }
    ensures own { IsMainOf table.now main.new }
    ensures running { main.new.sees.stopped ≡ false }
    ensures seats { (main.new.sees.made ≡ main.old.sees.made) × (main.new.sees.left ≡ main.old.sees.left) }
{
    guessed_keys_fit_a_turn();
    turns_go_on();
    turns_follow();
    let Course { run, posting, next } = course;
    let Some(orders) = next else { unreachable!() };
    serve(rt, searcher, table, main, run, posting, orders, gate)?;
    *next = next_turn(alloc, depth, run, posting)?;
    Ok(is_of_the_round(next))
}

/// Whether there is a turn, and it begins no new round.
fn is_of_the_round(next: &Option<Orders>) -> bool
    ensures same { IsTrue result → (orders : Ordered) × (next.now ≡ Some orders) × (orders.new_round ≡ false) }
    ensures other { IsFalse result → (orders : Ordered) → next.now ≡ Some orders → orders.new_round ≡ true }
{
    match next {
        Some(orders) => !orders.new_round,
        None => false,
    }
}
