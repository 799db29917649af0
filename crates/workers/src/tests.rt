//! One thread that plays the main thread and a worker.
ghost use Rattle.std.specs.Prelude.{◌≡◌, ◌+◌, ◌<◌, IfOk, length};
ghost use Rattle.check_table.specs.Seats.{IsMainOf};

use crate::{Gate, worker};
use check_table::{CheckTable, MainSeat};
use clauses::{Lits, Problem, clauses_of, literal_of};
use req_keys::{Cell, Key, Verdict};
use std::alloc::{AllocError, Global};
use std::sync::atomic::AtomicU64;
use std::sync::atomic::Ordering::SeqCst;

/// Counts its calls.
#[derive(Drop)]
struct CountingGate {
    before: AtomicU64,
    answered: AtomicU64,
}

impl CountingGate {
    fn new() -> CountingGate {
        CountingGate {
            before: AtomicU64::new(0),
            answered: AtomicU64::new(0),
        }
    }

    /// Whether it was called so often.
    fn counted(&self, before: u64, answered: u64) -> bool {
        self.before.load(SeqCst) == before && self.answered.load(SeqCst) == answered
    }
}

impl Gate for CountingGate {
    fn before(&self, _entry: u32) {
        self.before.fetch_add(1, SeqCst);
    }

    fn answered(&self, _entry: u32) {
        self.answered.fetch_add(1, SeqCst);
    }
}

/// Two requirements, a and not a. Where neither is wanted, the first value of a clashes, and nothing may be learned.
fn problem_of_two(alloc: Global) -> Result<Problem, AllocError>
    ensures { IfOk result (λ problem. length problem.roots ≡ 2) }
{
    let roots = [literal_of(2, b'a'), literal_of(2, b'A')];
    Ok(Problem {
        variables: 2,
        features: 2,
        clauses: clauses_of(alloc, 2, &["ab", "aB"])?,
        roots: Lits::from_slice(alloc, &roots)?,
        allowance: 0,
        rungs: 0,
    })
}

/// Posts the key at the next entry.
fn post(table: &CheckTable, main: &mut MainSeat, key: &Key)
    requires own { IsMainOf table.now main.old }
    requires room { length main.old.sees.entries < table.now.size }
    requires key { key.now.n ≡ length table.now.problem.roots }
    ensures own { IsMainOf table.now main.new }
    ensures more { length main.new.sees.entries ≡ length main.old.sees.entries + 1 }
    ensures made { main.new.sees.made ≡ main.old.sees.made }
    ensures left { main.new.sees.left ≡ main.old.sees.left }
{
    let _posted = table.post(main, key);
}

/// What stands at the entry.
fn look(table: &CheckTable, main: &mut MainSeat, entry: u32) -> Cell
    requires own { IsMainOf table.now main.old }
    requires posted { entry < length main.old.sees.entries }
    ensures own { IsMainOf table.now main.new }
    ensures entries { length main.new.sees.entries ≡ length main.old.sees.entries }
    ensures made { main.new.sees.made ≡ main.old.sees.made }
    ensures left { main.new.sees.left ≡ main.old.sees.left }
{
    table.look(main, entry)
}

#[test]
fn answers_all_entries(rt: HostRuntime) -> Result<(), AllocError> {
    let problem = problem_of_two(rt.alloc())?;
    let (table, mut main) = CheckTable::open(rt.alloc(), &problem, 3)?;
    let none = Key::empty(rt.alloc(), 2)?;
    post(&table, &mut main, &none.with(1)?);
    post(&table, &mut main, &Key::full(rt.alloc(), 2)?);
    post(&table, &mut main, &none);
    let gate = CountingGate::new();
    let seat = table.seat(&mut main);
    let seat = worker(&rt, rt.alloc(), &problem, &table, seat, &gate);
    assert!(rt; gate.counted(3, 3));
    assert!(rt; look(&table, &mut main, 0) == Cell::Answered(Verdict::Sat));
    assert!(rt; look(&table, &mut main, 1) == Cell::Answered(Verdict::Unsat));
    assert!(rt; look(&table, &mut main, 2) == Cell::Answered(Verdict::Limit));
    table.leave(&mut main, seat);
    table.close(main);
    Ok(())
}

#[test]
fn returns_at_once_where_the_table_is_stopped(rt: HostRuntime) -> Result<(), AllocError> {
    let problem = problem_of_two(rt.alloc())?;
    let (table, mut main) = CheckTable::open(rt.alloc(), &problem, 1)?;
    post(&table, &mut main, &Key::empty(rt.alloc(), 2)?);
    table.stop(&mut main);
    let gate = CountingGate::new();
    let seat = table.seat(&mut main);
    let seat = worker(&rt, rt.alloc(), &problem, &table, seat, &gate);
    assert!(rt; gate.counted(0, 0));
    assert!(rt; look(&table, &mut main, 0) == Cell::Posted);
    table.leave(&mut main, seat);
    table.close(main);
    Ok(())
}
