//! Whether a line follows: the negations of its literals are made true, one by one.
ghost use Rattle.std.specs.Prelude.{◌≡◌, ◌≤◌, All, length};
ghost use Rattle.clauses.specs.Closure.{follows};
ghost use Rattle.clauses.specs.Problem.{IsBelow};
ghost use Rattle.propagation.specs.Propagation.{propagated};
ghost use Rattle.derivation_check.specs.inside.Negations.{IsBehind};

use clauses::Lit;
use propagation::Propagator;

/// Whether the line follows from what is propagated. Negations of its literals stay assumed, of each variable at most
/// one, so there is room for them however long the line is.
pub(crate) fn follows(propagator: &mut Propagator<'_>, line: &[Lit]) -> bool
    requires variables { All (IsBelow propagator.old.problem.variables) line.now }
    requires few { length propagator.old.assumed ≤ 4096 }
    ensures follows { result ≡ follows (propagated propagator.old) line.now }
    ensures behind { IsBehind propagator.old propagator.new }
{
    if propagator.clashes() {
        return true;
    }
    for literal in line {
        if !propagator.make_true(literal.negated()) {
            return true;
        }
    }
    false
}
