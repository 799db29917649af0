//! A job by workers beside the main thread.
ghost use Rattle.std.specs.Prelude.{◌≡◌, ◌≤◌, IfOk, IfSome, Some, length};
ghost use Rattle.look_ahead.specs.Posting.{wasted_in};
ghost use Rattle.look_ahead.specs.Postings.{posting};
ghost use Rattle.script.specs.Sequential.{needs, result_of, verdicts_of};
ghost use Rattle.diag_workers.specs.inside.Course.{BeginsRound, IsNext};

use crate::course::{Course, finish, first_turn, new_course};
use crate::options::Options;
use crate::rounds::make_rounds;
use clauses::Problem;
use script::{Finished, JobPlan, run_goes_on};
use std::alloc::{AllocError, Global};
use std::sync::Wait;
use std::thread::Threads;
use workers::Gate;

/// Does the job with workers, which are threads beside this one: what is likely to be asked is posted on a table, and they make
/// these checks ahead. What it finishes with is what one thread finishes with. A thread that can't be started is done without. This
/// call waits for a worker that makes a check which it needs, and at the end of a round for all of them; nothing is left
/// running when it answers.
pub fn run_job<R: Threads + Wait + Sync, G: Gate>(
    rt: &R,
    alloc: Global,
    problem: &Problem,
    plan: JobPlan,
    options: &Options,
    gate: &G,
) -> Result<Finished, AllocError>
    requires workers { options.now.workers ≤ 64 }
    requires ahead { options.now.ahead ≤ 6 }
    requires least { 1 ≤ options.now.entries }
    requires most { options.now.entries ≤ 4096 }
    requires plan { plan.requirements ≡ length problem.now.roots }
    requires list { IfSome plan.list (λ size. size ≤ 4096) }
    ensures plan { IfOk result (λ finished. finished.plan ≡ plan) }
    ensures outcome { IfOk result (λ finished. result_of plan (verdicts_of problem.now) ≡ Some finished.outcome) }
    ensures used { IfOk result (λ finished. finished.used ≡ needs plan (verdicts_of problem.now)) }
    ensures posted { IfOk result (λ finished. finished.posted
        ≡ (posting plan (verdicts_of problem.now) options.now.ahead options.now.entries).posted) }
    ensures wasted { IfOk result (λ finished. finished.wasted
        ≡ wasted_in (posting plan (verdicts_of problem.now) options.now.ahead options.now.entries)) }
{
    run_goes_on();
    let same = plan.requirements == problem.n();
    prove!(same);
    let begun = begin(alloc, plan, options)?;
    let done = make_rounds(rt, alloc, problem, options, begun, gate)?;
    Ok(finish(done))
}

/// A job of which nothing is told, with its first turn.
fn begin(alloc: Global, plan: JobPlan, options: &Options) -> Result<Course, AllocError>
    requires requirements { plan.requirements ≤ 4096 }
    requires ahead { options.now.ahead ≤ 6 }
    requires least { 1 ≤ options.now.entries }
    requires most { options.now.entries ≤ 4096 }
    requires list { IfSome plan.list (λ size. size ≤ 4096) }
    ensures plan { IfOk result (λ course. course.run.plan ≡ plan) }
    ensures next { IfOk result (λ course. (problem : _) → IsNext problem options.now.ahead options.now.entries course.run course.posting course.next) }
    ensures begins { IfOk result (λ course. BeginsRound course.run course.next) }
{
    let course = new_course(alloc, plan, options)?;
    first_turn(alloc, options.ahead, course)
}
