//! A turn on one thread, without a worker.
ghost use Rattle.std.specs.Prelude.{◌≡◌, [], IfOk, None, OnOk, false, length};
ghost use Rattle.look_ahead.specs.Posting.{nothing_posted};
ghost use Rattle.check_table.specs.Rule.{opened};
ghost use Rattle.check_table.specs.Seats.{IsMainOf};

use crate::{serve, turns_follow};
use check_table::{CheckTable, MainSeat};
use clauses::{Clauses, Lit, Lits, Problem};
use look_ahead::{Posting, ahead, guessed_keys_fit_a_turn};
use req_keys::{Cell, Key, Verdict, Want};
use script::{JobPlan, Run};
use solver::Searcher;
use std::alloc::{AllocError, Global};
use std::process::Abort;
use std::sync::Wait;
use workers::OpenGate;

/// Three requirements about one variable, of which the first two can't be met together.
fn problem_of_three(alloc: Global) -> Result<Problem, AllocError>
    ensures { IfOk result (λ problem. length problem.roots ≡ 3) }
{
    let yes = Lit {
        var: 0,
        positive: true,
    };
    let no = Lit {
        var: 0,
        positive: false,
    };
    Ok(Problem {
        variables: 1,
        features: 1,
        clauses: Clauses::new(alloc),
        roots: Lits::from_slice(alloc, &[yes, no, yes])?,
        allowance: 0,
        rungs: 0,
    })
}

/// The first turn of the job, served.
fn first_turn<R: Wait + Abort>(
    rt: &R,
    alloc: Global,
    searcher: &mut Searcher<'_>,
    table: &CheckTable,
    main: &mut MainSeat,
    run: &mut Run,
    posting: &mut Posting,
) -> Result<(), AllocError>
    requires searcher { searcher.old ≡ table.now.problem }
    requires roots { length table.now.problem.roots ≡ 3 }
    requires own { IsMainOf table.now main.old }
    requires new { main.old.sees ≡ opened table.now.problem 2 }
    requires run { run.old ≡ record { plan = record { requirements = 3; list = None }; told = [] } }
    requires posting { posting.old ≡ nothing_posted 2 }
    ensures own { IsMainOf table.now main.new }
    ensures posted { OnOk result (length main.new.sees.entries ≡ 2) }
{
    guessed_keys_fit_a_turn();
    turns_follow();
    let Want::Ask(asked) = run.want() else {
        rt.abort()
    };
    let list = ahead(alloc, run, 3)?;
    let orders = posting.turn(asked, &list)?;
    serve(rt, searcher, table, main, run, posting, &orders, &OpenGate)
}

/// Whether the run was told that all three can't be met together, and nothing else.
fn is_told_unsat(alloc: Global, run: &Run) -> Result<bool, AllocError> {
    let all = Key::full(alloc, 3)?;
    Ok(run.used().len() == 1 && run.used().verdict_of(&all) == Some(Verdict::Unsat))
}

/// The first turn, with nothing posted before it.
fn with_posting<R: Wait + Abort>(
    rt: &R,
    alloc: Global,
    searcher: &mut Searcher<'_>,
    table: &CheckTable,
    main: &mut MainSeat,
    run: &mut Run,
) -> Result<(), AllocError>
    requires searcher { searcher.old ≡ table.now.problem }
    requires roots { length table.now.problem.roots ≡ 3 }
    requires own { IsMainOf table.now main.old }
    requires new { main.old.sees ≡ opened table.now.problem 2 }
    requires run { run.old ≡ record { plan = record { requirements = 3; list = None }; told = [] } }
    ensures own { IsMainOf table.now main.new }
    ensures posted { OnOk result (length main.new.sees.entries ≡ 2) }
{
    let mut posting = Posting::new(alloc, 2)?;
    first_turn(rt, alloc, searcher, table, main, run, &mut posting)
}

/// The first turn, after which the run is looked at.
fn tells_unsat<R: Wait + Abort>(
    rt: &R,
    alloc: Global,
    searcher: &mut Searcher<'_>,
    table: &CheckTable,
    main: &mut MainSeat,
    run: &mut Run,
) -> Result<(), AllocError>
    requires searcher { searcher.old ≡ table.now.problem }
    requires roots { length table.now.problem.roots ≡ 3 }
    requires own { IsMainOf table.now main.old }
    requires new { main.old.sees ≡ opened table.now.problem 2 }
    requires run { run.old ≡ record { plan = record { requirements = 3; list = None }; told = [] } }
    ensures own { IsMainOf table.now main.new }
    ensures posted { OnOk result (length main.new.sees.entries ≡ 2) }
{
    with_posting(rt, alloc, searcher, table, main, run)?;
    assert!(rt; is_told_unsat(alloc, run)?);
    Ok(())
}

/// A job whose first turn is served.
fn job_begins<R: Wait + Abort>(
    rt: &R,
    alloc: Global,
    searcher: &mut Searcher<'_>,
    table: &CheckTable,
    main: &mut MainSeat,
) -> Result<(), AllocError>
    requires searcher { searcher.old ≡ table.now.problem }
    requires roots { length table.now.problem.roots ≡ 3 }
    requires own { IsMainOf table.now main.old }
    requires new { main.old.sees ≡ opened table.now.problem 2 }
    ensures own { IsMainOf table.now main.new }
    ensures posted { OnOk result (length main.new.sees.entries ≡ 2) }
{
    let plan = JobPlan {
        requirements: 3,
        list: None,
    };
    let mut run = Run::new(alloc, plan)?;
    tells_unsat(rt, alloc, searcher, table, main, &mut run)
}

/// Whether both entries stand as they were posted.
fn both_stand(table: &CheckTable, main: &mut MainSeat) -> bool
    requires own { IsMainOf table.now main.old }
    requires posted { length main.old.sees.entries ≡ 2 }
    ensures { IsMainOf table.now main.new }
{
    table.look(main, 0) == Cell::Posted && table.look(main, 1) == Cell::Posted
}

/// The job on a table of two entries.
fn on_a_table<R: Wait + Abort>(
    rt: &R,
    alloc: Global,
    problem: &Problem,
    searcher: &mut Searcher<'_>,
) -> Result<(), AllocError>
    requires searcher { searcher.old ≡ problem.now }
    requires roots { length problem.now.roots ≡ 3 }
{
    let (table, mut main) = CheckTable::open(alloc, problem, 2)?;
    job_begins(rt, alloc, searcher, &table, &mut main)?;
    assert!(rt; both_stand(&table, &mut main));
    Ok(())
}

#[test]
fn first_turn_is_served(rt: HostRuntime) -> Result<(), AllocError> {
    let problem = problem_of_three(rt.alloc())?;
    let mut searcher = Searcher::new(rt.alloc(), &problem)?;
    on_a_table(&rt, rt.alloc(), &problem, &mut searcher)
}
