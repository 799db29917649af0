//! The table on one thread, with the main seat and a worker's.
ghost use Rattle.std.specs.Prelude.{◌≡◌, ◌<◌, [], length, IfOk};
ghost use Rattle.check_table.specs.Found.{IsWanted};
ghost use Rattle.check_table.specs.Seats.{IsMainOf, IsWorkerOf};
ghost use Rattle.check_table.specs.inside.Tested.{free_problem, CountsAre};
ghost use Rattle.check_table.specs.declared.view.Stage.TheVariants.{Runs};

use crate::{CheckTable, Claimed, Drawn, GaveUp, Left, MainSeat, Posted, Took, WorkerSeat};
use clauses::{Clauses, Lit, Lits, Problem};
use req_keys::{Cell, Key, Verdict};
use std::alloc::{AllocError, Global};

/// Stands only for types that threads may share and hand over.
fn is_shared<T: Send + Sync>() {}

#[test]
fn threads_share_answers() {
    is_shared::<Posted>();
    is_shared::<Took>();
    is_shared::<Drawn>();
    is_shared::<Claimed>();
    is_shared::<Left>();
    is_shared::<GaveUp>();
}

/// Three requirements about one variable, of which no clause speaks: whatever is asked of it can be met.
fn problem_of_three(alloc: Global) -> Result<Problem, AllocError>
    ensures { IfOk result (λ problem. problem ≡ free_problem) }
{
    let root = Lit {
        var: 0,
        positive: true,
    };
    Ok(Problem {
        variables: 1,
        features: 1,
        clauses: Clauses::new(alloc),
        roots: Lits::from_slice(alloc, &[root, root, root])?,
        allowance: 0,
        rungs: 0,
    })
}

/// Posts a key at the first entry.
fn post_first(table: &CheckTable, main: &mut MainSeat, key: &Key)
    requires own { IsMainOf table.now main.old }
    requires new { main.old.sees.entries ≡ [] }
    requires room { 0 < table.now.size }
    requires key { key.now.n ≡ length table.now.problem.roots }
    ensures own { IsMainOf table.now main.new }
    ensures wanted { IsWanted main.new.sees 0 }
    ensures posted { 0 < length main.new.sees.entries }
    ensures counts { CountsAre main.old.sees main.new.sees }
{
    let _posted = table.post(main, key);
}

/// Reads that the key has no member, and answers that it can be met. Whether that came too late.
fn is_late(table: &CheckTable, worker: &mut WorkerSeat) -> bool
    requires own { IsWorkerOf table.now worker.old }
    requires problem { table.now.problem ≡ free_problem }
    requires running { worker.old.sees.stage ≡ Runs 0 [] }
    ensures own { IsWorkerOf table.now worker.new }
{
    let word = table.key_word(worker, 0);
    if word == 0 {
        let left = table.answer(worker, Verdict::Sat);
        return left == Left::Late;
    }
    false
}

#[test]
fn entries_fill(rt: HostRuntime) -> Result<(), AllocError> {
    let problem = problem_of_three(rt.alloc())?;
    let (table, mut main) = CheckTable::open(rt.alloc(), &problem, 2)?;
    let none = Key::empty(rt.alloc(), 3)?;
    assert!(rt; table.post(&mut main, &none) == Posted::At(0));
    assert!(rt; table.post(&mut main, &none.with(1)?) == Posted::At(1));
    assert!(rt; table.post(&mut main, &none.with(2)?) == Posted::Full);
    Ok(())
}

#[test]
fn looked_at(rt: HostRuntime) -> Result<(), AllocError> {
    let problem = problem_of_three(rt.alloc())?;
    let (table, mut main) = CheckTable::open(rt.alloc(), &problem, 1)?;
    post_first(&table, &mut main, &Key::empty(rt.alloc(), 3)?);
    assert!(rt; table.look(&mut main, 0) == Cell::Posted);
    Ok(())
}

#[test]
fn cancelled_while_it_runs(rt: HostRuntime) -> Result<(), AllocError> {
    let problem = problem_of_three(rt.alloc())?;
    let (table, mut main) = CheckTable::open(rt.alloc(), &problem, 1)?;
    let mut worker = table.seat(&mut main);
    post_first(&table, &mut main, &Key::empty(rt.alloc(), 3)?);
    assert!(rt; table.draw(&mut worker) == Drawn::Ticket(0));
    assert!(rt; table.claim(&mut worker) == Claimed::Taken);
    table.cancel(&mut main, 0);
    assert!(rt; is_late(&table, &mut worker));
    Ok(())
}

#[test]
fn taken_by_the_main_seat(rt: HostRuntime) -> Result<(), AllocError> {
    let problem = problem_of_three(rt.alloc())?;
    let (table, mut main) = CheckTable::open(rt.alloc(), &problem, 1)?;
    let mut worker = table.seat(&mut main);
    post_first(&table, &mut main, &Key::empty(rt.alloc(), 3)?);
    assert!(rt; table.draw(&mut worker) == Drawn::Ticket(0));
    assert!(rt; table.take(&mut main, 0) == Took::Mine);
    assert!(rt; table.claim(&mut worker) == Claimed::Gone);
    assert!(rt; table.draw(&mut worker) == Drawn::NoMore);
    table.leave(&mut main, worker);
    table.close(main);
    Ok(())
}

#[test]
fn drawn_before_it_is_posted(rt: HostRuntime) -> Result<(), AllocError> {
    let problem = problem_of_three(rt.alloc())?;
    let (table, mut main) = CheckTable::open(rt.alloc(), &problem, 2)?;
    let mut worker = table.seat(&mut main);
    assert!(rt; table.draw(&mut worker) == Drawn::Ticket(0));
    assert!(rt; table.claim(&mut worker) == Claimed::NotYet);
    post_first(&table, &mut main, &Key::empty(rt.alloc(), 3)?);
    assert!(rt; table.claim(&mut worker) == Claimed::Taken);
    assert!(rt; !table.stopped(&mut worker));
    table.give_up(&mut worker, GaveUp::Memory);
    assert!(rt; table.take(&mut main, 0) == Took::GivenUp);
    table.stop(&mut main);
    assert!(rt; table.stopped(&mut worker));
    Ok(())
}
