//! The check of the lines, one after another.
ghost use Rattle.std.specs.Prelude.{◌≡◌, ◌↔◌, ◌<◌, ◌≤◌, ◌^◌, ℕ, All, Bool, IfOk, IsTrue, List, ◌∷◌, ◌++◌, [], length};
ghost use Rattle.clauses.specs.Clause.{are_satisfied};
ghost use Rattle.clauses.specs.Closure.{follows, AreDerived, IsDerivation};
ghost use Rattle.clauses.specs.Problem.{IsBelow, clauses_with};
ghost use Rattle.propagation.specs.Propagation.{propagated};
ghost use Rattle.derivation_check.specs.Checking.{answer_of, check, ends_empty, first_wrong, EndsEmpty, IsFirstWrong};

use crate::checked::Checked;
use crate::negations::follows;
use clauses::{Derivation, Lit, Problem};
use propagation::{Propagator, with_roots};
use req_keys::Key;
use std::alloc::{AllocError, Global};

/// Checks that each line follows from the problem's clauses, the roots of the key and the lines before it, by reverse
/// unit propagation, and that the last is the empty clause.
pub fn checks(
    alloc: Global,
    problem: &Problem,
    key: &Key,
    lines: &Derivation,
) -> Result<Checked, AllocError>
    requires key { key.now.n ≡ length problem.now.roots }
    requires variables { All (All (IsBelow problem.now.variables)) lines.now }
    requires few { length lines.now < 2 ^ 32 }
    ensures answer { IfOk result (λ checked. checked ≡ check (clauses_with problem.now key.now) lines.now) }
    ensures yes { IfOk result (λ checked. (checked ≡ Checked.Yes) ↔ IsDerivation (clauses_with problem.now key.now) lines.now) }
    ensures unsatisfiable { IfOk result (λ checked. checked ≡ Checked.Yes → (values : List Bool) → ¬ IsTrue (are_satisfied values (clauses_with problem.now key.now))) }
    ensures no_at { IfOk result (λ checked. (number : ℕ) → (checked ≡ Checked.NoAt number) ↔ IsFirstWrong (clauses_with problem.now key.now) lines.now number) }
    ensures no_end { IfOk result (λ checked. (checked ≡ Checked.NoEnd) ↔ (AreDerived (clauses_with problem.now key.now) lines.now × (¬ EndsEmpty lines.now))) }
{
    let wrong = first_wrong(alloc, problem, key, lines)?;
    Ok(answer_of(wrong, ends_empty(lines)))
}

/// What the first wrong line, if any, and the end come to.
fn answer_of(first_wrong: Option<u32>, ended: bool) -> Checked
    ensures { result ≡ answer_of first_wrong ended }
{
    match first_wrong {
        Some(number) => Checked::NoAt(number),
        None if ended => Checked::Yes,
        None => Checked::NoEnd,
    }
}

/// The number of the first line that doesn't follow.
fn first_wrong(
    alloc: Global,
    problem: &Problem,
    key: &Key,
    lines: &Derivation,
) -> Result<Option<u32>, AllocError>
    requires key { key.now.n ≡ length problem.now.roots }
    requires variables { All (All (IsBelow problem.now.variables)) lines.now }
    requires few { length lines.now < 2 ^ 32 }
    ensures { IfOk result (λ wrong. wrong ≡ first_wrong (clauses_with problem.now key.now) lines.now) }
{
    let Some(mut propagator) = with_roots(alloc, problem, key)? else {
        return Ok(None);
    };
    for (number, line) in lines.as_slice().iter().enumerate() {
        if !accepts(&mut propagator, key.len(), line.as_slice())? {
            return Ok(Some(number as u32));
        }
    }
    Ok(None)
}

/// Whether the line follows from what is propagated; if so it is learned.
fn accepts(propagator: &mut Propagator<'_>, roots: u32, line: &[Lit]) -> Result<bool, AllocError>
    requires variables { All (IsBelow propagator.old.problem.variables) line.now }
    requires roots { roots ≡ length propagator.old.assumed }
    requires few { roots ≤ 4096 }
    ensures follows { IfOk result (λ yes. yes ≡ follows (propagated propagator.old) line.now) }
    ensures learned { IfOk result (λ yes. IsTrue yes → propagator.new ≡ record propagator.old { learned = propagator.old.learned ++ line.now ∷ [] }) }
{
    if !follows(propagator, line) {
        return Ok(false);
    }
    propagator.back_to(roots);
    propagator.learn(line)?;
    Ok(true)
}

/// Whether the last line is the empty clause.
fn ends_empty(lines: &Derivation) -> bool
    ensures { result ≡ ends_empty lines.now }
{
    match lines.as_slice().last() {
        Some(line) => line.is_empty(),
        None => false,
    }
}
