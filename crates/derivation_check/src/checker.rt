//! Derivations whose lines come one by one.
ghost use Rattle.std.specs.Prelude.{◌≡◌, [], ◌∷◌, ◌++◌, All, IfOk, IsFalse, IsTrue, OnErr, length};
ghost use Rattle.clauses.specs.Closure.{clash, follows};
ghost use Rattle.clauses.specs.Problem.{IsBelow};
ghost use Rattle.propagation.specs.Propagation.{Propagation};
ghost use Rattle.req_keys.specs.Key.{empty_key};
ghost use Rattle.derivation_check.specs.Lines.{begun, given};
ghost use Rattle.derivation_check.specs.inside.Assumed.{AreAssumedFor};

use crate::negations::follows;
use clauses::{Lit, Problem};
use propagation::Propagator;
use req_keys::Key;
use std::alloc::{AllocError, Global};
use std::marker::Model;

/// A derivation by reverse unit propagation, as far as it has come, over a problem and the roots of a key. It is kept from
/// one derivation to the next.
#[derive(Drop)]
pub struct Checker<'a> {
    problem: &'a Problem,
    /// The requirements whose roots are given.
    key: Key,
    /// Between two lines the roots are assumed, as far as they don't clash.
    propagator: Propagator<'a>,
    /// How many literals that are.
    roots: u32,
}

impl<'a> Model for Checker<'a> {
    ghost use Rattle.derivation_check.specs.Lines.{Lines};
    ghost use Rattle.derivation_check.specs.inside.Checked.{IsChecked};

    ghost Value = { Lines };

    ghost view = { λ a. record { problem = a.problem.now; key = a.key; lines = a.propagator.learned } };

    ghost invariant = { λ a. IsChecked a.problem.now a.key a.roots a.propagator };
}

impl<'a> Checker<'a> {
    /// No lines, and no roots.
    pub fn new(alloc: Global, problem: &'a Problem) -> Result<Checker<'a>, AllocError>
        ensures { IfOk result (λ made. made ≡ begun problem.now (empty_key (length problem.now.roots))) }
    {
        let propagator = Propagator::new(alloc, problem)?;
        let key = Key::empty(alloc, problem.n())?;
        Ok(Checker {
            problem,
            key,
            propagator,
            roots: 0,
        })
    }

    /// Begins a derivation over the roots of a key. Takes no memory.
    pub fn begin(&mut self, key: Key)
        requires { key.n ≡ length self.old.problem.roots }
        ensures { self.new ≡ begun self.old.problem key }
    {
        self.propagator.forget();
        self.roots = assume_roots(&mut self.propagator, self.problem, &key);
        self.key = key;
    }

    /// Whether the line follows from the problem's clauses, the roots and the lines so far. If it does, it is one more of
    /// these.
    pub fn accepts(&mut self, line: &[Lit]) -> Result<bool, AllocError>
        requires { All (IsBelow self.old.problem.variables) line.now }
        ensures follows { IfOk result (λ yes. yes ≡ follows (given self.old) line.now) }
        ensures more { IfOk result (λ yes. IsTrue yes → self.new ≡ record self.old { lines = self.old.lines ++ line.now ∷ [] }) }
        ensures same { IfOk result (λ yes. IsFalse yes → self.new ≡ self.old) }
        ensures err { OnErr result (self.new ≡ self.old) }
    {
        let yes = follows(&mut self.propagator, line);
        self.propagator.back_to(self.roots);
        if yes {
            self.propagator.learn(line)?;
        }
        Ok(yes)
    }

    /// Whether these clash, so that the empty clause follows.
    pub fn clashes(&self) -> bool
        ensures { result ≡ clash (given self.now) }
    {
        self.propagator.clashes()
    }
}

/// Assumes the roots of the key up to the first that clashes, and answers how many.
fn assume_roots(propagator: &mut Propagator<'_>, problem: &Problem, key: &Key) -> u32
    requires problem { propagator.old.problem ≡ problem.now }
    requires assumed { propagator.old.assumed ≡ [] }
    requires learned { propagator.old.learned ≡ [] }
    requires key { key.now.n ≡ length problem.now.roots }
    ensures { AreAssumedFor problem.now key.now result propagator.new }
{
    let same = key.n() == problem.n();
    prove!(same);
    let mut count = 0;
    if propagator.clashes() {
        return 0;
    }
    for place in 0..problem.n() {
        if key.contains(place + 1) {
            count += 1;
            if !propagator.assume(*problem.roots.get(place as usize)) {
                return count;
            }
        }
    }
    count
}
