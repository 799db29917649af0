//! The whole problem.
ghost use Rattle.std.specs.Prelude.{◌≡◌, ◌↔◌, ◌+◌, ◌<◌, ◌≤◌, ◌++◌, ◌^◌, All, List, map, ℕ, length, IfOk, IfErr, OnOk};
ghost use Rattle.config_reader.specs.Consistent.{AreConsistent, formulas_of};
ghost use Rattle.clauses.specs.Met.{AreMet};
ghost use Rattle.config_reader.specs.Laws.{AreNamed};
ghost use Rattle.feature_tree.specs.inside.Within.{ChildrenBelow};
ghost use Rattle.clause_form.specs.ClauseForm.{IsRefusal, asserted, group_parts, needed as needed_for, problem_of as problem, tree_clauses};
ghost use Rattle.clause_form.specs.Gates.{gates, gates_of, literal, literals_from};
ghost use Rattle.clause_form.specs.Parts.{clauses, clauses_from, size, size_of};

use crate::count::needed;
use crate::error::BuildError;
use crate::gates::{add_formula, positive};
use crate::groups::add_groups;
use clauses::{ClauseBuilder, Lits, Problem};
use config_reader::{Config, Requirement};
use feature_tree::{Feature, Formula, Model};
use std::alloc::{AllocError, Global};

/// How many variables a problem may have.
const MOST: u64 = 1_000_000;

/// The problem of the model and the configuration, unless it would have more than 1,000,000 variables.
pub fn problem_of(
    alloc: Global,
    model: &Model,
    config: &Config,
    allowance: u64,
    rungs: u8,
) -> Result<Problem, BuildError>
    requires requirements { AreNamed (length model.now.features) config.now.requirements }
    requires musts { AreNamed (length model.now.features) config.now.musts }
    requires allowance { allowance ≤ 2 ^ 40 }
    requires rungs { rungs ≤ 4 }
    ensures problem { IfOk result (λ made. made ≡ problem model.now config.now allowance rungs) }
    ensures meets { IfOk result (λ made. (positions : List ℕ) → AreConsistent model.now config.now positions ↔ AreMet made positions) }
    ensures few { OnOk result (needed_for model.now config.now ≤ 1000000) }
    ensures refused { IfErr result (λ e. IsRefusal e (needed_for model.now config.now)) }
{
    let needed = needed(model, config);
    if needed > MOST {
        return Err(BuildError::TooLarge { needed });
    }
    let features = model.features.len() as u32;
    let mut out = ClauseBuilder::new(alloc, features);
    add_tree(&mut out, model.features.as_slice())?;
    add_features(alloc, &mut out, model.features.as_slice())?;
    add_constraints(alloc, &mut out, model.constraints.as_slice())?;
    add_musts(alloc, &mut out, config.musts.as_slice())?;
    let roots = add_requirements(alloc, &mut out, config.requirements.as_slice())?;
    Ok(Problem {
        variables: out.next_variable(),
        features,
        clauses: out.into_clauses(),
        roots,
        allowance,
        rungs,
    })
}

/// That the root is there, and each parent.
fn add_tree(out: &mut ClauseBuilder, features: &[Feature]) -> Result<(), AllocError>
    requires { length features.now ≤ 65535 }
    ensures clauses { OnOk result (out.new.clauses ≡ out.old.clauses ++ tree_clauses features.now) }
    ensures variable { out.new.next_variable ≡ out.old.next_variable }
{
    out.add(&[positive(0)])?;
    for (i, feature) in features.iter().enumerate() {
        if let Some(parent) = feature.parent {
            out.add(&[positive(i as u32).negated(), positive(parent)])?;
        }
    }
    Ok(())
}

/// What the groups of all features ask.
fn add_features(
    alloc: Global,
    out: &mut ClauseBuilder,
    features: &[Feature],
) -> Result<(), AllocError>
    requires few { length features.now ≤ 65535 }
    requires below { All (λ feature. All (ChildrenBelow out.old.next_variable) feature.groups) features.now }
    requires room { out.old.next_variable + size_of (group_parts features.now) ≤ 1000000 }
    ensures clauses { OnOk result (out.new.clauses ≡ out.old.clauses ++ clauses_from out.old.next_variable (group_parts features.now)) }
    ensures variable { OnOk result (out.new.next_variable ≡ out.old.next_variable + size_of (group_parts features.now)) }
{
    for (i, feature) in features.iter().enumerate() {
        add_groups(alloc, out, i as u32, feature.groups.as_slice())?;
    }
    Ok(())
}

/// A formula that is asserted.
fn add_asserted(alloc: Global, out: &mut ClauseBuilder, formula: &Formula) -> Result<(), AllocError>
    requires { out.old.next_variable + size (asserted formula.now) ≤ 1000000 }
    ensures clauses { OnOk result (out.new.clauses ≡ out.old.clauses ++ clauses (asserted formula.now) out.old.next_variable) }
    ensures variable { OnOk result (out.new.next_variable ≡ out.old.next_variable + size (asserted formula.now)) }
{
    let literal = add_formula(alloc, out, formula)?;
    out.add(&[literal])
}

/// The constraints.
fn add_constraints(
    alloc: Global,
    out: &mut ClauseBuilder,
    constraints: &[Formula],
) -> Result<(), AllocError>
    requires { out.old.next_variable + size_of (map asserted constraints.now) ≤ 1000000 }
    ensures clauses { OnOk result (out.new.clauses ≡ out.old.clauses ++ clauses_from out.old.next_variable (map asserted constraints.now)) }
    ensures variable { OnOk result (out.new.next_variable ≡ out.old.next_variable + size_of (map asserted constraints.now)) }
{
    for formula in constraints {
        add_asserted(alloc, out, formula)?;
    }
    Ok(())
}

/// The musts.
fn add_musts(
    alloc: Global,
    out: &mut ClauseBuilder,
    musts: &[Requirement],
) -> Result<(), AllocError>
    requires { out.old.next_variable + size_of (map asserted (formulas_of musts.now)) ≤ 1000000 }
    ensures clauses { OnOk result (out.new.clauses ≡ out.old.clauses ++ clauses_from out.old.next_variable (map asserted (formulas_of musts.now))) }
    ensures variable { OnOk result (out.new.next_variable ≡ out.old.next_variable + size_of (map asserted (formulas_of musts.now))) }
{
    for must in musts {
        add_asserted(alloc, out, &must.formula)?;
    }
    Ok(())
}

/// The requirements, whose literals are the roots.
fn add_requirements(
    alloc: Global,
    out: &mut ClauseBuilder,
    requirements: &[Requirement],
) -> Result<Lits, AllocError>
    requires { out.old.next_variable + size_of (map gates (map gates_of (formulas_of requirements.now))) ≤ 1000000 }
    ensures roots { IfOk result (λ roots. roots ≡ literals_from out.old.next_variable (map gates_of (formulas_of requirements.now))) }
    ensures clauses { OnOk result (out.new.clauses ≡ out.old.clauses ++ clauses_from out.old.next_variable (map gates (map gates_of (formulas_of requirements.now)))) }
    ensures variable { OnOk result (out.new.next_variable ≡ out.old.next_variable + size_of (map gates (map gates_of (formulas_of requirements.now)))) }
{
    let mut roots = Lits::new(alloc);
    for requirement in requirements {
        roots.push(add_formula(alloc, out, &requirement.formula)?)?;
    }
    Ok(roots)
}
