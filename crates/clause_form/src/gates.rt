//! Formulas as literals.
ghost use Rattle.std.specs.Prelude.{◌≡◌, ◌+◌, ◌<◌, ◌≤◌, ◌∷◌, [], ◌++◌, map, IfOk, OnOk};
ghost use Rattle.clauses.specs.Clause.{negation, positive_of};
ghost use Rattle.clause_form.specs.Gates.{all_clauses, any_clauses, same_clauses, gates, gates_of, literal, literals_from};
ghost use Rattle.clause_form.specs.Parts.{clauses, clauses_from, size, size_of};

use clauses::{Clause, ClauseBuilder, Lit, Lits};
use feature_tree::Formula;
use std::alloc::{AllocError, Global};

/// The positive literal of a variable.
pub(crate) fn positive(var: u32) -> Lit
    ensures { result ≡ positive_of var }
{
    Lit {
        var,
        positive: true,
    }
}

/// The negations of the literals.
fn negations(alloc: Global, literals: &[Lit]) -> Result<Lits, AllocError>
    ensures { IfOk result (λ negations. negations ≡ map negation literals.now) }
{
    let mut negations = Lits::new(alloc);
    for literal in literals {
        negations.push(literal.negated())?;
    }
    Ok(negations)
}

/// The clause of a literal and others behind it.
pub(crate) fn with_first(alloc: Global, first: Lit, others: &[Lit]) -> Result<Clause, AllocError>
    ensures { IfOk result (λ clause. clause ≡ first ∷ others.now) }
{
    let mut clause = Clause::new(alloc);
    clause.push(first)?;
    clause.extend_from_slice(others)?;
    Ok(clause)
}

/// A clause with the first literal for each of the others.
pub(crate) fn add_pairs(
    out: &mut ClauseBuilder,
    first: Lit,
    others: &[Lit],
) -> Result<(), AllocError>
    ensures clauses { OnOk result (out.new.clauses ≡ out.old.clauses ++ map (λ other. first ∷ other ∷ []) others.now) }
    ensures variable { out.new.next_variable ≡ out.old.next_variable }
{
    for other in others {
        out.add(&[first, *other])?;
    }
    Ok(())
}

/// A gate that is true where all of the literals are.
fn add_all(alloc: Global, out: &mut ClauseBuilder, literals: &[Lit]) -> Result<Lit, AllocError>
    requires { out.old.next_variable < 1000000 }
    ensures literal { IfOk result (λ gate. gate ≡ positive_of out.old.next_variable) }
    ensures clauses { OnOk result (out.new.clauses ≡ out.old.clauses ++ all_clauses (positive_of out.old.next_variable) literals.now) }
    ensures variable { OnOk result (out.new.next_variable ≡ out.old.next_variable + 1) }
{
    let gate = out.fresh();
    add_pairs(out, gate.negated(), literals)?;
    let negations = negations(alloc, literals)?;
    let clause = with_first(alloc, gate, negations.as_slice())?;
    out.add(clause.as_slice())?;
    Ok(gate)
}

/// A gate that is true where some of the literals is.
fn add_any(alloc: Global, out: &mut ClauseBuilder, literals: &[Lit]) -> Result<Lit, AllocError>
    requires { out.old.next_variable < 1000000 }
    ensures literal { IfOk result (λ gate. gate ≡ positive_of out.old.next_variable) }
    ensures clauses { OnOk result (out.new.clauses ≡ out.old.clauses ++ any_clauses (positive_of out.old.next_variable) literals.now) }
    ensures variable { OnOk result (out.new.next_variable ≡ out.old.next_variable + 1) }
{
    let gate = out.fresh();
    let negations = negations(alloc, literals)?;
    add_pairs(out, gate, negations.as_slice())?;
    let clause = with_first(alloc, gate.negated(), literals)?;
    out.add(clause.as_slice())?;
    Ok(gate)
}

/// A gate that is true where both literals are true or neither is.
fn add_same(out: &mut ClauseBuilder, left: Lit, right: Lit) -> Result<Lit, AllocError>
    requires { out.old.next_variable < 1000000 }
    ensures literal { IfOk result (λ gate. gate ≡ positive_of out.old.next_variable) }
    ensures clauses { OnOk result (out.new.clauses ≡ out.old.clauses ++ same_clauses (positive_of out.old.next_variable) left right) }
    ensures variable { OnOk result (out.new.next_variable ≡ out.old.next_variable + 1) }
{
    let gate = out.fresh();
    out.add(&[gate.negated(), left.negated(), right])?;
    out.add(&[gate.negated(), left, right.negated()])?;
    out.add(&[gate, left, right])?;
    out.add(&[gate, left.negated(), right.negated()])?;
    Ok(gate)
}

/// The gates of a formula, and its literal.
#[cycle(gated)]
pub(crate) fn add_formula(
    alloc: Global,
    out: &mut ClauseBuilder,
    formula: &Formula,
) -> Result<Lit, AllocError>
    requires { out.old.next_variable + size (gates (gates_of formula.now)) ≤ 1000000 }
    ensures literal { IfOk result (λ made. made ≡ literal (gates_of formula.now) out.old.next_variable) }
    ensures clauses { OnOk result (out.new.clauses ≡ out.old.clauses ++ clauses (gates (gates_of formula.now)) out.old.next_variable) }
    ensures variable { OnOk result (out.new.next_variable ≡ out.old.next_variable + size (gates (gates_of formula.now))) }
{
    match formula {
        Formula::Name(feature) => Ok(positive(*feature)),
        Formula::Not(part) => Ok(add_formula(alloc, out, part.get())?.negated()),
        Formula::All(parts) => {
            let members = add_formulas(alloc, out, parts.as_slice())?;
            add_all(alloc, out, members.as_slice())
        }
        Formula::Any(parts) => {
            let members = add_formulas(alloc, out, parts.as_slice())?;
            add_any(alloc, out, members.as_slice())
        }
        Formula::Implies(left, right) => {
            let left = add_formula(alloc, out, left.get())?;
            let right = add_formula(alloc, out, right.get())?;
            add_any(alloc, out, &[left.negated(), right])
        }
        Formula::Same(left, right) => {
            let left = add_formula(alloc, out, left.get())?;
            let right = add_formula(alloc, out, right.get())?;
            add_same(out, left, right)
        }
    }
}

/// The gates of formulas one after the other, and their literals.
#[cycle(gated)]
fn add_formulas(
    alloc: Global,
    out: &mut ClauseBuilder,
    formulas: &[Formula],
) -> Result<Lits, AllocError>
    requires { out.old.next_variable + size_of (map gates (map gates_of formulas.now)) ≤ 1000000 }
    ensures literals { IfOk result (λ literals. literals ≡ literals_from out.old.next_variable (map gates_of formulas.now)) }
    ensures clauses { OnOk result (out.new.clauses ≡ out.old.clauses ++ clauses_from out.old.next_variable (map gates (map gates_of formulas.now))) }
    ensures variable { OnOk result (out.new.next_variable ≡ out.old.next_variable + size_of (map gates (map gates_of formulas.now))) }
{
    let mut literals = Lits::new(alloc);
    for formula in formulas {
        literals.push(add_formula(alloc, out, formula)?)?;
    }
    Ok(literals)
}
