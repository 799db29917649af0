//! A job on one thread.
ghost use Rattle.std.specs.Prelude.{◌≡◌, ◌≤◌, ◌++◌, [], ◌∷◌, IfOk, IfSome, None, OnOk, Some, is_some, length};
ghost use Rattle.look_ahead.specs.Posting.{wasted_in};
ghost use Rattle.look_ahead.specs.Postings.{posting, turn_at};
ghost use Rattle.req_keys.specs.Key.{PositionSet};
ghost use Rattle.req_keys.specs.declared.verdict.Verdict.{Verdict as Answer};
ghost use Rattle.script.specs.Running.{key_in, want_after};
ghost use Rattle.script.specs.Sequential.{needs, result_of, verdicts_of};
ghost use Rattle.diag_workers.specs.inside.Course.{IsBetween, IsNext};

use crate::course::{Course, finish, new_course, ordered};
use crate::options::Options;
use clauses::Problem;
use look_ahead::{Posting, turns_go_on};
use req_keys::{Key, Verdict, Want};
use script::{Finished, JobPlan, Run, run_goes_on};
use solver::{NoStop, Searcher, SolveError};
use std::alloc::{AllocError, Global};

/// Does the job on one thread. One search is kept for all its checks. What is posted ahead is only counted, so that the numbers
/// are those of a run with workers.
pub fn run_job_alone(
    alloc: Global,
    problem: &Problem,
    plan: JobPlan,
    options: &Options,
) -> Result<Finished, AllocError>
    requires workers { options.now.workers ≡ 0 }
    requires ahead { options.now.ahead ≤ 6 }
    requires least { 1 ≤ options.now.entries }
    requires most { options.now.entries ≤ 4096 }
    requires plan { plan.requirements ≡ length problem.now.roots }
    requires list { IfSome plan.list (λ size. size ≤ 4096) }
    ensures plan { IfOk result (λ finished. finished.plan ≡ plan) }
    ensures outcome { IfOk result (λ finished. result_of plan (verdicts_of problem.now) ≡ Some finished.outcome) }
    ensures used { IfOk result (λ finished. finished.used ≡ needs plan (verdicts_of problem.now)) }
    ensures posted { IfOk result (λ finished. finished.posted
        ≡ (posting plan (verdicts_of problem.now) options.now.ahead options.now.entries).posted) }
    ensures wasted { IfOk result (λ finished. finished.wasted
        ≡ wasted_in (posting plan (verdicts_of problem.now) options.now.ahead options.now.entries)) }
{
    run_goes_on();
    let same = plan.requirements == problem.n();
    prove!(same);
    let mut searcher = Searcher::new(alloc, problem)?;
    let done = all_checks(alloc, &mut searcher, plan, options)?;
    Ok(finish(done))
}

/// A new job, with all its checks made.
fn all_checks(
    alloc: Global,
    searcher: &mut Searcher<'_>,
    plan: JobPlan,
    options: &Options,
) -> Result<Course, AllocError>
    requires ahead { options.now.ahead ≤ 6 }
    requires least { 1 ≤ options.now.entries }
    requires most { options.now.entries ≤ 4096 }
    requires plan { plan.requirements ≡ length searcher.old.roots }
    requires few { plan.requirements ≤ 4096 }
    requires list { IfSome plan.list (λ size. size ≤ 4096) }
    ensures plan { IfOk result (λ done. done.run.plan ≡ plan) }
    ensures next { IfOk result (λ done. IsNext searcher.old options.now.ahead options.now.entries done.run done.posting None) }
{
    let mut course = new_course(alloc, plan, options)?;
    make_checks(alloc, searcher, options, &mut course)?;
    Ok(course)
}

/// Makes checks, each with its turn, until the job is done.
fn make_checks(
    alloc: Global,
    searcher: &mut Searcher<'_>,
    options: &Options,
    course: &mut Course,
) -> Result<(), AllocError>
    requires ahead { options.now.ahead ≤ 6 }
    requires plan { course.old.run.plan.requirements ≡ length searcher.old.roots }
    requires between { IsBetween searcher.old options.now.ahead options.now.entries course.old.run course.old.posting }
    ensures plan { OnOk result (course.new.run.plan ≡ course.old.run.plan) }
    ensures next { OnOk result (IsNext searcher.old options.now.ahead options.now.entries course.new.run course.new.posting None) }
{
    turns_go_on();
    let Course {
        run,
        posting,
        next: _,
    } = course;
    'checks: while check_next(alloc, searcher, options.ahead, run, posting)? {}
    Ok(())
}

/// The check that the run asks, with its turn. Where it asks none, nothing changes, and the answer is false.
fn check_next(
    alloc: Global,
    searcher: &mut Searcher<'_>,
    depth: u8,
    run: &mut Run,
    posting: &mut Posting,
) -> Result<bool, AllocError>
    requires depth { depth ≤ 6 }
    requires plan { run.old.plan.requirements ≡ length searcher.old.roots }
    ensures problem { searcher.new ≡ searcher.old }
    ensures asked { IfOk result (λ asked. asked ≡ is_some (key_in (want_after run.old))) }
    ensures told { (key : PositionSet) → key_in (want_after run.old) ≡ Some key →
        OnOk result (run.new ≡ record { plan = run.old.plan; told = run.old.told ++ (key, verdicts_of searcher.old key) ∷ [] }) }
    ensures turn { (key : PositionSet) → key_in (want_after run.old) ≡ Some key →
        OnOk result (posting.new ≡ turn_at run.old.plan depth run.old.told key posting.old) }
    ensures end { key_in (want_after run.old) ≡ None → OnOk result ((run.new ≡ run.old) × (posting.new ≡ posting.old)) }
{
    let Want::Ask(key) = run.want() else {
        return Ok(false);
    };
    take_turn(alloc, run, key, depth, posting)?;
    let verdict = verdict_on(searcher, key)?;
    run.tell(verdict)?;
    Ok(true)
}

/// The turn in which the run asks the key, which is answered in it.
fn take_turn(
    alloc: Global,
    run: &Run,
    key: &Key,
    depth: u8,
    posting: &mut Posting,
) -> Result<(), AllocError>
    requires asks { key_in (want_after run.now) ≡ Some key.now }
    requires depth { depth ≤ 6 }
    ensures { OnOk result (posting.new ≡ turn_at run.now.plan depth run.now.told key.now posting.old) }
{
    let _orders = ordered(alloc, run, key, depth, posting)?;
    posting.settle(key);
    Ok(())
}

/// The verdict on a key.
fn verdict_on(searcher: &mut Searcher<'_>, key: &Key) -> Result<Verdict, AllocError>
    requires { key.now.n ≡ length searcher.old.roots }
    ensures problem { searcher.new ≡ searcher.old }
    ensures verdict { IfOk result (λ verdict. verdict ≡ verdicts_of searcher.old key.now) }
{
    match searcher.verdict(key, &mut NoStop) {
        Ok(verdict) => Ok(verdict),
        // Nobody stops the search, so this is want of memory.
        Err(SolveError::Memory | SolveError::Stopped) => Err(AllocError),
    }
}
