//! A job under way, and its turns.
ghost use Rattle.std.specs.Prelude.{◌≡◌, ◌≤◌, ℕ, [], IfOk, IfSome, OnOk, Some};
ghost use Rattle.clauses.specs.Problem.{ClauseProblem};
ghost use Rattle.look_ahead.specs.Ahead.{keys_ahead};
ghost use Rattle.look_ahead.specs.Posting.{after_turn, nothing_posted, orders_of, wasted_in};
ghost use Rattle.look_ahead.specs.Postings.{wants_of};
ghost use Rattle.script.specs.Job.{ends};
ghost use Rattle.script.specs.Running.{IsEnded, key_in, want_after};
ghost use Rattle.diag_workers.specs.inside.Course.{IsBetween, IsNext};

use crate::options::Options;
use look_ahead::{Orders, Posting, ahead, guessed_keys_fit_a_turn};
use req_keys::{Key, Want};
use script::{Finished, JobPlan, Run};
use std::alloc::{AllocError, Global};

/// A job under way. With workers it is before its first turn, or its next turn has begun, which between rounds is the first of one,
/// or it is done. On one thread no turn is kept.
#[derive(Drop)]
pub(crate) struct Course {
    pub run: Run,
    pub posting: Posting,
    /// What the turn that has begun orders.
    pub next: Option<Orders>,
}

/// A job of which nothing is told, before its first turn.
pub(crate) fn new_course(
    alloc: Global,
    plan: JobPlan,
    options: &Options,
) -> Result<Course, AllocError>
    requires requirements { plan.requirements ≤ 4096 }
    requires least { 1 ≤ options.now.entries }
    requires most { options.now.entries ≤ 4096 }
    requires list { IfSome plan.list (λ size. size ≤ 4096) }
    ensures run { IfOk result (λ course. course.run ≡ record { plan = plan; told = [] }) }
    ensures posting { IfOk result (λ course. course.posting ≡ nothing_posted options.now.entries) }
{
    let posting = Posting::new(alloc, options.entries)?;
    let run = Run::new(alloc, plan)?;
    Ok(Course {
        run,
        posting,
        next: None,
    })
}

/// A job with its first turn.
pub(crate) fn first_turn(alloc: Global, depth: u8, course: Course) -> Result<Course, AllocError>
    requires depth { depth ≤ 6 }
    ensures run { IfOk result (λ begun. begun.run ≡ course.run) }
    ensures next { IfOk result (λ begun. (problem : ClauseProblem) (entries : ℕ) → IsBetween problem depth entries course.run course.posting → IsNext problem depth entries begun.run begun.posting begun.next) }
{
    let mut course = course;
    let next = next_turn(alloc, depth, &course.run, &mut course.posting)?;
    course.next = next;
    Ok(course)
}

/// What the next turn orders, if the run asks a key. It is entered in the posting.
pub(crate) fn next_turn(
    alloc: Global,
    depth: u8,
    run: &Run,
    posting: &mut Posting,
) -> Result<Option<Orders>, AllocError>
    requires depth { depth ≤ 6 }
    ensures { IfOk result (λ next. (problem : ClauseProblem) (entries : ℕ) → IsBetween problem depth entries run.now posting.old → IsNext problem depth entries run.now posting.new next) }
{
    let Want::Ask(key) = run.want() else {
        return Ok(None);
    };
    let orders = ordered(alloc, run, key, depth, posting)?;
    Ok(Some(orders))
}

/// What is ordered in the turn in which the run asks the key.
pub(crate) fn ordered(
    alloc: Global,
    run: &Run,
    key: &Key,
    depth: u8,
    posting: &mut Posting,
) -> Result<Orders, AllocError>
    requires asks { key_in (want_after run.now) ≡ Some key.now }
    requires depth { depth ≤ 6 }
    ensures orders { IfOk result (λ orders. orders ≡ orders_of key.now (keys_ahead (wants_of run.now.plan) run.now.told depth) posting.old) }
    ensures turn { OnOk result (posting.new ≡ after_turn key.now (keys_ahead (wants_of run.now.plan) run.now.told depth) posting.old) }
{
    guessed_keys_fit_a_turn();
    let list = ahead(alloc, run, depth)?;
    posting.turn(key, &list)
}

/// What a job that is done hands on.
pub(crate) fn finish(done: Course) -> Finished
    requires { IsEnded (want_after done.run) }
    ensures plan { result.plan ≡ done.run.plan }
    ensures outcome { want_after done.run ≡ ends result.outcome }
    ensures used { result.used ≡ done.run.told }
    ensures posted { result.posted ≡ done.posting.posted }
    ensures wasted { result.wasted ≡ wasted_in done.posting }
{
    let Course {
        run,
        posting,
        next: _,
    } = done;
    let wasted = posting.wasted();
    run.finish(posting.into_posted(), wasted)
}
