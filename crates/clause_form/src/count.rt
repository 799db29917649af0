//! How many variables are needed.
ghost use Rattle.std.specs.Prelude.{◌≡◌, ◌+◌, ℕ, map, length};
ghost use Rattle.config_reader.specs.Consistent.{formulas_of};
ghost use Rattle.count_gates.specs.Table.{table_size as size_of_table};
ghost use Rattle.clause_form.specs.ClauseForm.{asserted, group_parts, needed as needed_for};
ghost use Rattle.clause_form.specs.Gates.{gates, gates_of};
ghost use Rattle.clause_form.specs.Groups.{counted, group_part};
ghost use Rattle.clause_form.specs.Parts.{capped, size, size_of};

use crate::groups::counted;
use config_reader::{Config, Requirement};
use feature_tree::{Feature, Formula, Group, GroupKind, Model};

/// How many variables the clause form has, as far as 64 bits hold the number. Takes no memory.
pub fn needed(model: &Model, config: &Config) -> u64
    ensures { result ≡ needed_for model.now config.now }
{
    let features = model.features.as_slice();
    (features.len() as u64)
        .saturating_add(in_features(features))
        .saturating_add(in_formulas(model.constraints.as_slice()))
        .saturating_add(in_requirements(config.musts.as_slice()))
        .saturating_add(in_requirements(config.requirements.as_slice()))
}

/// The variables of the groups of all features.
fn in_features(features: &[Feature]) -> u64
    ensures { result ≡ capped (size_of (group_parts features.now)) }
{
    let mut count: u64 = 0;
    for feature in features {
        count = count.saturating_add(in_groups(feature.groups.as_slice()));
    }
    count
}

/// The variables of the groups of one feature.
fn in_groups(groups: &[Group]) -> u64
    ensures { (parent : ℕ) → result ≡ capped (size_of (map (group_part parent) groups.now)) }
{
    let mut count: u64 = 0;
    for group in groups {
        count = count.saturating_add(in_group(group));
    }
    count
}

/// The variables that count the children of a group.
fn in_group(group: &Group) -> u64
    ensures { (parent : ℕ) → result ≡ capped (size (group_part parent group.now)) }
{
    let children = group.children.len();
    match group.kind {
        GroupKind::Mandatory | GroupKind::Optional | GroupKind::Or => 0,
        GroupKind::Alternative => table_size(children, counted(children, 1, Some(1))),
        GroupKind::Range => table_size(children, counted(children, group.low, group.high)),
    }
}

/// The variables of a table of so many children.
fn table_size(children: usize, upto: u64) -> u64
    ensures { result ≡ capped (size_of_table children upto) }
{
    let mut count: u64 = 0;
    for i in 0..children {
        count = count.saturating_add(upto.min(i as u64 + 1));
    }
    count
}

/// The gates of the requirements.
fn in_requirements(requirements: &[Requirement]) -> u64
    ensures { result ≡ capped (size_of (map gates (map gates_of (formulas_of requirements.now)))) }
{
    let mut count: u64 = 0;
    for requirement in requirements {
        count = count.saturating_add(in_formula(&requirement.formula));
    }
    count
}

/// The gates of a formula.
#[cycle(counted)]
fn in_formula(formula: &Formula) -> u64
    ensures { result ≡ capped (size (gates (gates_of formula.now))) }
{
    match formula {
        Formula::Name(_) => 0,
        Formula::Not(part) => in_formula(part.get()),
        Formula::All(parts) | Formula::Any(parts) => {
            in_formulas(parts.as_slice()).saturating_add(1)
        }
        Formula::Implies(left, right) | Formula::Same(left, right) => in_formula(left.get())
            .saturating_add(in_formula(right.get()))
            .saturating_add(1),
    }
}

/// The gates of all the formulas.
#[cycle(counted)]
fn in_formulas(formulas: &[Formula]) -> u64
    ensures { result ≡ capped (size_of (map gates (map gates_of formulas.now))) }
{
    let mut count: u64 = 0;
    for formula in formulas {
        count = count.saturating_add(in_formula(formula));
    }
    count
}
