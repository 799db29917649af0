//! Jobs with workers, beside the same jobs on one thread.
ghost use Rattle.std.specs.Prelude.{◌≡◌, ◌≤◌, IfOk, length};

use crate::{Gate, OpenGate, Options, run_job, run_job_alone};
use clauses::{Clause, Clauses, Lit, Lits, Problem};
use req_keys::Keys;
use script::{Finished, JobPlan, Outcome};
use std::alloc::{AllocError, Global};
use std::sync::Wait;
use std::sync::atomic::AtomicU64;
use std::sync::atomic::Ordering::SeqCst;
use std::test::Fail;
use std::thread::{Threads, yield_now};

/// Three requirements, of which the first two can't be met together.
fn problem_of_three(alloc: Global) -> Result<Problem, AllocError>
    ensures { IfOk result (λ problem. length problem.roots ≡ 3) }
{
    let root = |var| Lit {
        var,
        positive: true,
    };
    let not = |var| Lit {
        var,
        positive: false,
    };
    let mut clauses = Clauses::new(alloc);
    clauses.push(Clause::from_slice(alloc, &[not(0), not(1)])?)?;
    Ok(Problem {
        variables: 3,
        features: 3,
        clauses,
        roots: Lits::from_slice(alloc, &[root(0), root(1), root(2)])?,
        allowance: 100,
        rungs: 0,
    })
}

/// Two requirements, and then that neither of them is so.
fn problem_of_four(alloc: Global) -> Result<Problem, AllocError>
    ensures { IfOk result (λ problem. length problem.roots ≡ 4) }
{
    let root = |var, positive| Lit { var, positive };
    Ok(Problem {
        variables: 2,
        features: 2,
        clauses: Clauses::new(alloc),
        roots: Lits::from_slice(
            alloc,
            &[root(0, true), root(1, true), root(0, false), root(1, false)],
        )?,
        allowance: 100,
        rungs: 0,
    })
}

fn is_same(a: &Outcome, b: &Outcome) -> bool {
    match (a, b) {
        (Outcome::Explained(a), Outcome::Explained(b)) => {
            a.kept == b.kept && a.conflict == b.conflict && a.listing == b.listing
        }
        _ => false,
    }
}

/// Whether both jobs finished alike.
fn finish_alike(a: &Finished, b: &Finished) -> bool {
    let outcome = is_same(&a.outcome, &b.outcome);
    outcome && a.used.len() == b.used.len() && a.posted == b.posted && a.wasted == b.wasted
}

/// Whether the keys have these members, in order.
fn have_members(keys: &Keys, members: &[&[u32]]) -> Result<bool, AllocError> {
    if keys.len() != members.len() {
        return Ok(false);
    }
    for (key, members) in keys.as_slice().iter().zip(members.iter()) {
        if key.positions()?.as_slice() != *members {
            return Ok(false);
        }
    }
    Ok(true)
}

/// The job about the three requirements, by so many workers and in rounds of so many entries.
fn job_of_three<R: Threads + Wait + Sync, G: Gate>(
    rt: &R,
    alloc: Global,
    workers: u32,
    entries: u32,
    gate: &G,
) -> Result<Finished, AllocError>
    requires workers { workers ≤ 64 }
    requires least { 1 ≤ entries }
    requires most { entries ≤ 4096 }
{
    let problem = problem_of_three(alloc)?;
    let plan = JobPlan {
        requirements: 3,
        list: None,
    };
    let options = Options {
        workers,
        ahead: 3,
        entries,
    };
    run_job(rt, alloc, &problem, plan, &options, gate)
}

/// And on one thread.
fn job_alone(alloc: Global, entries: u32) -> Result<Finished, AllocError>
    requires least { 1 ≤ entries }
    requires most { entries ≤ 4096 }
{
    let problem = problem_of_three(alloc)?;
    let plan = JobPlan {
        requirements: 3,
        list: None,
    };
    let options = Options {
        workers: 0,
        ahead: 3,
        entries,
    };
    run_job_alone(alloc, &problem, plan, &options)
}

#[test]
fn any_number_of_workers_finishes_alike(rt: HostRuntime) -> Result<(), Fail> {
    let two = job_alone(rt.alloc(), 2)?;
    let one = job_alone(rt.alloc(), 1)?;
    let posted: [&[u32]; 8] = [&[], &[1], &[1], &[2, 3], &[2, 3], &[1, 2], &[1, 3], &[2]];
    assert!(rt; have_members(&two.posted, &posted)?);
    assert!(rt; two.used.len() == 6 && two.wasted == 6);
    for workers in [0, 1, 3] {
        assert!(rt; finish_alike(&job_of_three(&rt, rt.alloc(), workers, 2, &OpenGate)?, &two));
        assert!(rt; finish_alike(&job_of_three(&rt, rt.alloc(), workers, 1, &OpenGate)?, &one));
    }
    Ok(())
}

/// Whoever comes to entry 1 waits until a worker has answered entry 4.
#[derive(Drop)]
struct Held {
    answered: AtomicU64,
}

impl Gate for Held {
    fn before(&self, entry: u32) {
        if entry != 1 {
            return;
        }
        for _ in 0..1_000_000 {
            if self.answered.load(SeqCst) > 0 {
                return;
            }
            yield_now();
        }
    }

    fn answered(&self, entry: u32) {
        if entry == 4 {
            self.answered.fetch_add(1, SeqCst);
        }
    }
}

/// The first round has four entries, and two later ones have five.
#[test]
fn later_rounds_have_workers(rt: HostRuntime) -> Result<(), Fail> {
    let gate = Held {
        answered: AtomicU64::new(0),
    };
    let finished = job_of_three(&rt, rt.alloc(), 2, 5, &gate)?;
    assert!(rt; finish_alike(&finished, &job_alone(rt.alloc(), 5)?));
    assert!(rt; gate.answered.load(SeqCst) > 0);
    Ok(())
}

#[test]
fn a_listing_is_found_alike(rt: HostRuntime) -> Result<(), Fail> {
    let problem = problem_of_four(rt.alloc())?;
    let plan = JobPlan {
        requirements: 4,
        list: Some(4),
    };
    let options = Options {
        workers: 2,
        ahead: 6,
        entries: 1,
    };
    let shared = run_job(&rt, rt.alloc(), &problem, plan, &options, &OpenGate)?;
    let options = Options {
        workers: 0,
        ..options
    };
    let alone = run_job_alone(rt.alloc(), &problem, plan, &options)?;
    assert!(rt; finish_alike(&shared, &alone));
    assert!(rt; alone.used.len() == 12);
    Ok(())
}
