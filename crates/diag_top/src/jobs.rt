//! A job, on one thread or by workers.
ghost use Rattle.std.specs.Prelude.{IfOk};
ghost use Rattle.diag_top.specs.inside.Doing.{IsFinished, MayAsk};

use clauses::Problem;
use diag_workers::{Gate, Options, run_job, run_job_alone};
use script::{Finished, JobPlan};
use std::alloc::{AllocError, Global};
use std::sync::Wait;
use std::thread::Threads;

/// How many checks may be offered to workers in a round.
const ENTRIES: u32 = 4_096;

/// Does the job on one thread.
pub fn done_alone(
    alloc: Global,
    problem: &Problem,
    plan: JobPlan,
    workers: u32,
    ahead: u8,
) -> Result<Finished, AllocError>
    requires { MayAsk problem.now plan workers ahead }
    ensures { IfOk result (IsFinished problem.now plan ahead) }
{
    let options = Options {
        workers: 0,
        ahead,
        entries: ENTRIES,
    };
    run_job_alone(alloc, problem, plan, &options)
}

/// Does the job with so many workers beside the main thread.
pub fn done_by_workers<R: Threads + Wait + Sync, G: Gate>(
    rt: &R,
    alloc: Global,
    problem: &Problem,
    plan: JobPlan,
    workers: u32,
    ahead: u8,
    gate: &G,
) -> Result<Finished, AllocError>
    requires { MayAsk problem.now plan workers ahead }
    ensures { IfOk result (IsFinished problem.now plan ahead) }
{
    let options = Options {
        workers,
        ahead,
        entries: ENTRIES,
    };
    run_job(rt, alloc, problem, plan, &options, gate)
}
