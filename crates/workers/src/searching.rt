//! What a worker keeps from one ticket to the next.
ghost use Rattle.std.specs.Prelude.{◌≡◌, ◌≤◌, IfOk, IsErrOf, OnOk, Some, length};
ghost use Rattle.lists.specs.Rising.{Rises};
ghost use Rattle.req_keys.specs.Words.{IsRowOver};
ghost use Rattle.clauses.specs.Search.{verdict_on};
ghost use Rattle.check_table.specs.Places.{key_width};
ghost use Rattle.check_table.specs.Found.{IsRunning};
ghost use Rattle.check_table.specs.Seats.{IsWorkerOf};
ghost use Rattle.workers.specs.inside.Tickets.{HasKey, HasWords, SameSeat};

use check_table::{CheckTable, WorkerSeat};
use clauses::Problem;
use req_keys::{Key, Verdict};
use solver::{Searcher, SolveError, Stop};
use std::alloc::{AllocError, Global};
use std::marker::Model;

/// A searcher that is made when the first search needs it, and kept. Contracts see the problem.
#[derive(Drop)]
pub(crate) struct KeptSearcher<'a> {
    alloc: Global,
    problem: &'a Problem,
    searcher: Option<Searcher<'a>>,
    /// The words of the key that was read last.
    words: Vec<u64>,
}

impl<'a> Model for KeptSearcher<'a> {
    ghost use Rattle.clauses.specs.Problem.{ClauseProblem};
    ghost use Rattle.workers.specs.inside.Tickets.{IsFor};

    ghost Value = { ClauseProblem };

    ghost view = { λ a. a.problem.now };

    ghost invariant = { λ a. IsFor a.problem.now a.searcher };
}

impl<'a> KeptSearcher<'a> {
    pub fn new(alloc: Global, problem: &'a Problem) -> KeptSearcher<'a>
        ensures { result ≡ problem.now }
    {
        KeptSearcher {
            alloc,
            problem,
            searcher: None,
            words: Vec::new(alloc),
        }
    }

    /// The key of the entry that the seat runs.
    pub fn read(&mut self, table: &CheckTable, w: &mut WorkerSeat) -> Result<Key, AllocError>
        requires own { IsWorkerOf table.now w.old }
        requires problem { table.now.problem ≡ self.old }
        requires running { IsRunning w.old.sees }
        ensures own { IsWorkerOf table.now w.new }
        ensures running { IsRunning w.new.sees }
        ensures same { SameSeat w.old.sees w.new.sees }
        ensures key { IfOk result (HasKey w.new.sees) }
        ensures problem { self.new ≡ self.old }
    {
        let n = self.problem.n();
        read_words(table, (n + 63) / 64, w, &mut self.words)?;
        Key::from_words(self.alloc, n, &self.words)
    }

    /// The verdict on the key.
    pub fn verdict<S: Stop>(&mut self, key: &Key, stop: &mut S) -> Result<Verdict, SolveError>
        requires { key.now.n ≡ length self.old.roots }
        ensures verdict { IfOk result (λ verdict. verdict_on self.old key.now ≡ Some verdict) }
        ensures stopped { IsErrOf result SolveError.Stopped → Rises (S.raised stop.old) (S.raised stop.new) }
        ensures never_falls { S.raised stop.old ≤ S.raised stop.new }
        ensures stays { S.stays stop.old stop.new }
        ensures problem { self.new ≡ self.old }
    {
        if let Some(searcher) = &mut self.searcher {
            return verdict_of(searcher, key, stop);
        }
        let mut searcher = Searcher::new(self.alloc, self.problem)?;
        let found = verdict_of(&mut searcher, key, stop);
        self.searcher = Some(searcher);
        found
    }
}

/// Reads all words of the key of the entry that the seat runs, in place of what was read before.
fn read_words(
    table: &CheckTable,
    count: u32,
    w: &mut WorkerSeat,
    words: &mut Vec<u64>,
) -> Result<(), AllocError>
    requires own { IsWorkerOf table.now w.old }
    requires running { IsRunning w.old.sees }
    requires count { count ≡ key_width table.now.problem }
    ensures own { IsWorkerOf table.now w.new }
    ensures running { IsRunning w.new.sees }
    ensures same { SameSeat w.old.sees w.new.sees }
    ensures row { OnOk result (IsRowOver (length table.now.problem.roots) words.new.items) }
    ensures read { OnOk result (HasWords w.new.sees words.new.items) }
{
    words.clear();
    for j in 0..count {
        words.push(table.key_word(w, j))?;
    }
    Ok(())
}

/// The verdict that the searcher finds.
fn verdict_of<S: Stop>(
    searcher: &mut Searcher<'_>,
    key: &Key,
    stop: &mut S,
) -> Result<Verdict, SolveError>
    requires { key.now.n ≡ length searcher.old.roots }
    ensures verdict { IfOk result (λ verdict. verdict_on searcher.old key.now ≡ Some verdict) }
    ensures stopped { IsErrOf result SolveError.Stopped → Rises (S.raised stop.old) (S.raised stop.new) }
    ensures never_falls { S.raised stop.old ≤ S.raised stop.new }
    ensures stays { S.stays stop.old stop.new }
    ensures problem { searcher.new ≡ searcher.old }
{
    searcher.verdict(key, stop)
}
