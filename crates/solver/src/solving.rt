//! The search.
ghost use Rattle.std.specs.Prelude.{◌≡◌, ◌≤◌, Some, IfOk, IsErrOf, length};
ghost use Rattle.clauses.specs.Problem.{IsProblem};
ghost use Rattle.clauses.specs.Search.{allowance_of, attempt_of, first_of, search_of, verdict_of, verdict_on};
ghost use Rattle.solver.specs.Answers.{IsRight, meaning};
ghost use Rattle.solver.specs.Stopping.{Rises};
ghost use Rattle.solver.specs.inside.Searching.{IsAtEnd, IsShown, IsTurn, ended};

use crate::answer::{Answer, SolveError};
use crate::search::{Ending, Search};
use crate::stop::Stop;
use clauses::Problem;
use req_keys::{Key, Verdict};
use std::alloc::{AllocError, Global};
use std::marker::Model;

/// How many clauses an attempt may learn at most.
const MOST_LEARNED: u64 = 1 << 40;

/// A search over one problem that is asked for one key after another. What it holds is made once.
#[derive(Drop)]
pub struct Searcher<'a> {
    search: Search<'a>,
}

impl<'a> Model for Searcher<'a> {
    ghost use Rattle.clauses.specs.Problem.{ClauseProblem};

    ghost Value = { ClauseProblem };

    ghost view = { λ a. a.search.trial.problem };
}

impl<'a> Searcher<'a> {
    /// A searcher over the problem.
    pub fn new(alloc: Global, problem: &'a Problem) -> Result<Searcher<'a>, AllocError>
        ensures { IfOk result (λ searcher. searcher ≡ problem.now) }
    {
        let search = Search::new(alloc, problem)?;
        Ok(Searcher { search })
    }

    /// Searches for an assignment of the problem's clauses and the roots of the key, whatever was asked before and
    /// however that ended. An attempt that may learn no more is followed by another, as often as the problem says. It
    /// asks `stop` once at each clash of each attempt.
    pub fn answer<S: Stop>(&mut self, key: &Key, stop: &mut S) -> Result<Answer, SolveError>
        requires { key.now.n ≡ length self.old.roots }
        ensures answer { IfOk result (λ answer. search_of self.old key.now ≡ Some (meaning answer)) }
        ensures verdict { IfOk result (λ answer. verdict_on self.old key.now ≡ Some (verdict_of (meaning answer))) }
        ensures right { IfOk result (IsRight self.old key.now) }
        ensures stopped { IsErrOf result SolveError.Stopped → Rises (S.raised stop.old) (S.raised stop.new) }
        ensures never_falls { S.raised stop.old ≤ S.raised stop.new }
        ensures stays { S.stays stop.old stop.new }
        ensures problem { self.new ≡ self.old }
    {
        let ending = search_for(&mut self.search, key, stop)?;
        Ok(self.search.answer(ending)?)
    }

    /// The verdict alone of that search. It makes no values and no derivation.
    pub fn verdict<S: Stop>(&mut self, key: &Key, stop: &mut S) -> Result<Verdict, SolveError>
        requires { key.now.n ≡ length self.old.roots }
        ensures verdict { IfOk result (λ verdict. verdict_on self.old key.now ≡ Some verdict) }
        ensures stopped { IsErrOf result SolveError.Stopped → Rises (S.raised stop.old) (S.raised stop.new) }
        ensures never_falls { S.raised stop.old ≤ S.raised stop.new }
        ensures stays { S.stays stop.old stop.new }
        ensures problem { self.new ≡ self.old }
    {
        let ending = search_for(&mut self.search, key, stop)?;
        Ok(ending.verdict())
    }
}

/// Searches for an assignment of the problem's clauses and the roots of the key. An attempt that may learn no more is
/// followed by another, as often as the problem says. It asks `stop` once at each clash of each attempt, and keeps
/// nothing after a refusal.
pub fn solve<S: Stop>(
    alloc: Global,
    problem: &Problem,
    key: &Key,
    stop: &mut S,
) -> Result<Answer, SolveError>
    requires { key.now.n ≡ length problem.now.roots }
    ensures answer { IfOk result (λ answer. search_of problem.now key.now ≡ Some (meaning answer)) }
    ensures verdict { IfOk result (λ answer. verdict_on problem.now key.now ≡ Some (verdict_of (meaning answer))) }
    ensures right { IfOk result (IsRight problem.now key.now) }
    ensures stopped { IsErrOf result SolveError.Stopped → Rises (S.raised stop.old) (S.raised stop.new) }
    ensures never_falls { S.raised stop.old ≤ S.raised stop.new }
    ensures stays { S.stays stop.old stop.new }
{
    let mut searcher = Searcher::new(alloc, problem)?;
    searcher.answer(key, stop)
}

/// How the first attempt that isn't Limit ends, or the last.
fn search_for<S: Stop>(
    search: &mut Search<'_>,
    key: &Key,
    stop: &mut S,
) -> Result<Ending, SolveError>
    requires { key.now.n ≡ length search.old.trial.problem.roots }
    ensures ended { IfOk result (λ ending. search_of search.old.trial.problem key.now ≡ Some (ended search.new ending)) }
    ensures end { IfOk result (IsAtEnd search.new) }
    ensures stopped { IsErrOf result SolveError.Stopped → Rises (S.raised stop.old) (S.raised stop.new) }
    ensures never_falls { S.raised stop.old ≤ S.raised stop.new }
    ensures stays { S.stays stop.old stop.new }
    ensures problem { search.new.trial.problem ≡ search.old.trial.problem }
    ensures lawful { IsProblem search.old.trial.problem }
{
    let problem = search.problem();
    let rungs = problem.rungs;
    for number in 0..rungs {
        let ending = attempt(search, key, number, stop)?;
        if !ending.is_limit() {
            return Ok(ending);
        }
    }
    attempt(search, key, rungs, stop)
}

/// The value at which the attempt with this number decides variables.
fn first_of(number: u8) -> bool
    ensures { result ≡ first_of number }
{
    number % 2 == 1
}

/// How many clauses the attempt with this number may learn.
fn allowance_of(problem: &Problem, number: u8) -> u64
    requires { number ≤ problem.now.rungs }
    ensures { result ≡ allowance_of problem.now number }
{
    (problem.allowance * 10_u64.pow(u32::from(number))).min(MOST_LEARNED)
}

/// The attempt with this number.
fn attempt<S: Stop>(
    search: &mut Search<'_>,
    key: &Key,
    number: u8,
    stop: &mut S,
) -> Result<Ending, SolveError>
    requires key { key.now.n ≡ length search.old.trial.problem.roots }
    requires few { number ≤ search.old.trial.problem.rungs }
    ensures ended { IfOk result (λ ending. attempt_of search.old.trial.problem key.now number ≡ Some (ended search.new ending)) }
    ensures end { IfOk result (IsAtEnd search.new) }
    ensures stopped { IsErrOf result SolveError.Stopped → Rises (S.raised stop.old) (S.raised stop.new) }
    ensures never_falls { S.raised stop.old ≤ S.raised stop.new }
    ensures stays { S.stays stop.old stop.new }
    ensures problem { search.new.trial.problem ≡ search.old.trial.problem }
{
    let alloc = search.allocator();
    let first = first_of(number);
    let allowance = allowance_of(search.problem(), number);
    let fits = search.begin(key, first, allowance)?;
    if !fits {
        return refuted(stop);
    }
    loop {
        if let Some(ending) = turn(alloc, search, stop)? {
            return Ok(ending);
        }
    }
}

/// The roots of the key clash with the clauses.
fn refuted<S: Stop>(stop: &mut S) -> Result<Ending, SolveError>
    ensures ending { IfOk result (λ ending. ending ≡ Ending.Unsat) }
    ensures stopped { IsErrOf result SolveError.Stopped → Rises (S.raised stop.old) (S.raised stop.new) }
    ensures never_falls { S.raised stop.old ≤ S.raised stop.new }
    ensures stays { S.stays stop.old stop.new }
{
    if stop.asked() {
        return Err(SolveError::Stopped);
    }
    Ok(Ending::Unsat)
}

/// One turn. At a clash `stop` is asked first.
fn turn<S: Stop>(
    alloc: Global,
    search: &mut Search<'_>,
    stop: &mut S,
) -> Result<Option<Ending>, SolveError>
    requires { IsShown search.old }
    ensures turn { IfOk result (IsTurn search.old search.new) }
    ensures problem { search.new.trial.problem ≡ search.old.trial.problem }
    ensures stopped { IsErrOf result SolveError.Stopped → Rises (S.raised stop.old) (S.raised stop.new) }
    ensures never_falls { S.raised stop.old ≤ S.raised stop.new }
    ensures stays { S.stays stop.old stop.new }
{
    if !search.clashes() {
        return Ok(search.turn_at_rest()?);
    }
    if stop.asked() {
        return Err(SolveError::Stopped);
    }
    Ok(search.turn_at_clash(alloc)?)
}
