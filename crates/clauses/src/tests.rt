//! Lists, builders and problems on their happy paths, worked by hand.
ghost use Rattle.std.specs.Prelude.{List, ℕ};
ghost use Rattle.pref_sets.specs.Kept.{IsKept};
ghost use Rattle.pref_sets.specs.Preferred.{IsPreferredTo};
ghost use Rattle.clauses.specs.Met.{AreMet};

use crate::{Clause, ClauseBuilder, Clauses, Lit, Lits, Problem, fewer_requirements_are_met};
use pref_sets::kept_set_is_maximal;
use std::alloc::{AllocError, Global};
use std::process::Abort;

/// Stands only for types that threads may share and hand over.
fn is_shared<T: Send + Sync>() {}

#[test]
fn threads_share_them() {
    is_shared::<Problem>();
    is_shared::<ClauseBuilder>();
    is_shared::<Clauses>();
    is_shared::<Clause>();
    is_shared::<Lits>();
    is_shared::<Lit>();
}

/// The variable with this sign.
fn lit(var: u32, positive: bool) -> Lit {
    Lit { var, positive }
}

#[test]
fn lists_grow(rt: HostRuntime) -> Result<(), AllocError> {
    let mut clause = Clause::new(rt.alloc());
    clause.push(lit(3, false))?;
    assert!(rt; clause.as_slice() == [lit(3, false)].as_slice());
    let mut clauses = Clauses::new(rt.alloc());
    clauses.push(clause)?;
    assert!(rt; clauses.get(0).as_slice() == [lit(3, false)].as_slice());
    let mut lits = Lits::new(rt.alloc());
    lits.push(lit(1, true))?;
    assert!(rt; lits.as_slice() == [lit(1, true)].as_slice());
    Ok(())
}

#[test]
fn clauses_are_built(rt: HostRuntime) -> Result<(), AllocError> {
    let mut builder = ClauseBuilder::new(rt.alloc(), 2);
    let gate = builder.fresh();
    builder.add(&[gate, gate])?;
    builder.add(&[])?;
    assert!(rt; gate == lit(2, true));
    assert!(rt; builder.next_variable() == 3);
    let clauses = builder.into_clauses();
    assert!(rt; clauses.len() == 2 && clauses.get(1).is_empty());
    assert!(rt; clauses.get(0).as_slice() == [gate, gate].as_slice());
    Ok(())
}

/// No requirements that can be met together are preferred to those that are kept.
fn kept_are_preferred(problem: &Problem)
    ensures { (items kept other : List ℕ) → IsKept (AreMet problem.now) items kept → AreMet problem.now other → ¬ IsPreferredTo items other kept }
{
    kept_set_is_maximal::<Problem>();
    fewer_requirements_are_met();
}

#[test]
fn problems_are_satisfied(rt: HostRuntime) {
    let problem = Problem {
        variables: 2,
        features: 1,
        clauses: Clauses::new(rt.alloc()),
        roots: Lits::new(rt.alloc()),
        allowance: 10_000,
        rungs: 0,
    };
    assert!(rt; problem.satisfies(&[true, false]));
    assert!(rt; problem.n() == 0);
    kept_are_preferred(&problem);
}
