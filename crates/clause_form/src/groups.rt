//! What groups ask, as clauses.
ghost use Rattle.std.specs.Prelude.{◌≡◌, suc, ◌+◌, ◌<◌, ◌≤◌, [], ◌++◌, All, map, length, slice_get, IfOk, OnOk};
ghost use Rattle.std.specs.Option.{option_map_or};
ghost use Rattle.clauses.specs.Clause.{positive_of};
ghost use Rattle.clauses.specs.Problem.{IsBelow};
ghost use Rattle.count_gates.specs.Table.{at_least, opposite, table_size, table_clauses, table_literals};
ghost use Rattle.clause_form.specs.Groups.{bound_clauses, counted as counted_to, group_part, range_part, under, within as count_within};
ghost use Rattle.clause_form.specs.Parts.{clauses, clauses_from, size, size_of};

use crate::gates::{add_pairs, positive, with_first};
use clauses::{ClauseBuilder, Lit, Lits};
use count_gates::count_table;
use feature_tree::{Group, GroupKind};
use std::alloc::{AllocError, Global};

/// The count, if there are so many children.
fn within(children: usize, count: u64) -> u64
    ensures { result ≡ count_within children count }
{
    if count <= children as u64 { count } else { 0 }
}

/// How far the children of a group with these bounds are counted.
pub(crate) fn counted(children: usize, low: u32, high: Option<u32>) -> u64
    ensures { result ≡ counted_to children low high }
{
    let enough = within(children, u64::from(low));
    match high {
        Some(most) => enough.max(within(children, u64::from(most) + 1)),
        None => enough,
    }
}

/// The positive literals of the variables.
fn literals_of(alloc: Global, variables: &[u32]) -> Result<Lits, AllocError>
    ensures { IfOk result (λ literals. literals ≡ map positive_of variables.now) }
{
    let mut literals = Lits::new(alloc);
    for var in variables {
        literals.push(positive(*var))?;
    }
    Ok(literals)
}

/// The table of the children, if they are counted at all.
fn add_table(
    alloc: Global,
    out: &mut ClauseBuilder,
    children: &[Lit],
    upto: u64,
) -> Result<Lits, AllocError>
    requires most { upto ≤ length children.now }
    requires below { All (IsBelow out.old.next_variable) children.now }
    requires room { out.old.next_variable + table_size (length children.now) upto ≤ 1000000 }
    ensures literals { IfOk result (λ literals. literals ≡ table_literals out.old.next_variable upto children.now) }
    ensures clauses { OnOk result (out.new.clauses ≡ out.old.clauses ++ table_clauses out.old.next_variable upto children.now) }
    ensures variable { OnOk result (out.new.next_variable ≡ out.old.next_variable + table_size (length children.now) upto) }
{
    if upto == 0 {
        return Ok(Lits::new(alloc));
    }
    count_table(alloc, out, children, upto as u32)
}

/// That the parent has at least `low` and at most `high` of the children that the row's literals count.
fn add_bounds(
    out: &mut ClauseBuilder,
    parent: u32,
    row: &Lits,
    low: u32,
    high: Option<u32>,
) -> Result<(), AllocError>
    ensures clauses { OnOk result (out.new.clauses ≡ out.old.clauses ++ bound_clauses parent row.now low high) }
    ensures variable { out.new.next_variable ≡ out.old.next_variable }
{
    add_low(out, parent, row, low)?;
    add_high(out, parent, row, high)
}

/// The literal for 'at least j + 1', if the row has one.
fn literal_at(row: &Lits, j: u32) -> Option<Lit>
    ensures { result ≡ slice_get row.now j }
{
    row.as_slice().get(j as usize).copied()
}

/// That the parent has at least `low` of them.
fn add_low(out: &mut ClauseBuilder, parent: u32, row: &Lits, low: u32) -> Result<(), AllocError>
    ensures clauses { OnOk result (out.new.clauses ≡ out.old.clauses ++ under parent (at_least row.now low)) }
    ensures variable { out.new.next_variable ≡ out.old.next_variable }
{
    let Some(j) = low.checked_sub(1) else {
        return Ok(());
    };
    let absent = positive(parent).negated();
    match literal_at(row, j) {
        Some(enough) => out.add(&[absent, enough]),
        None => out.add(&[absent]),
    }
}

/// That the parent has at most `high` of them, if there is such a bound.
fn add_high(
    out: &mut ClauseBuilder,
    parent: u32,
    row: &Lits,
    high: Option<u32>,
) -> Result<(), AllocError>
    ensures clauses { OnOk result (out.new.clauses ≡ out.old.clauses ++ option_map_or (λ most. under parent (opposite (at_least row.now (suc most)))) high []) }
    ensures variable { out.new.next_variable ≡ out.old.next_variable }
{
    let Some(most) = high else {
        return Ok(());
    };
    match literal_at(row, most) {
        Some(more) => out.add(&[positive(parent).negated(), more.negated()]),
        None => Ok(()),
    }
}

/// At least `low` and at most `high` of the children, if the parent is there.
fn add_range(
    alloc: Global,
    out: &mut ClauseBuilder,
    parent: u32,
    low: u32,
    high: Option<u32>,
    children: &[Lit],
) -> Result<(), AllocError>
    requires below { All (IsBelow out.old.next_variable) children.now }
    requires room { out.old.next_variable + size (range_part parent low high children.now) ≤ 1000000 }
    ensures clauses { OnOk result (out.new.clauses ≡ out.old.clauses ++ clauses (range_part parent low high children.now) out.old.next_variable) }
    ensures variable { OnOk result (out.new.next_variable ≡ out.old.next_variable + size (range_part parent low high children.now)) }
{
    let upto = counted(children.len(), low, high);
    let row = add_table(alloc, out, children, upto)?;
    add_bounds(out, parent, &row, low, high)
}

/// What the group of a feature asks.
fn add_group(
    alloc: Global,
    out: &mut ClauseBuilder,
    parent: u32,
    group: &Group,
) -> Result<(), AllocError>
    requires below { All (λ child. child < out.old.next_variable) group.now.children }
    requires room { out.old.next_variable + size (group_part parent group.now) ≤ 1000000 }
    ensures clauses { OnOk result (out.new.clauses ≡ out.old.clauses ++ clauses (group_part parent group.now) out.old.next_variable) }
    ensures variable { OnOk result (out.new.next_variable ≡ out.old.next_variable + size (group_part parent group.now)) }
{
    let absent = positive(parent).negated();
    let children = literals_of(alloc, group.children.as_slice())?;
    let children = children.as_slice();
    match group.kind {
        GroupKind::Mandatory => add_pairs(out, absent, children),
        GroupKind::Optional => Ok(()),
        GroupKind::Or => out.add(with_first(alloc, absent, children)?.as_slice()),
        GroupKind::Alternative => add_range(alloc, out, parent, 1, Some(1), children),
        GroupKind::Range => add_range(alloc, out, parent, group.low, group.high, children),
    }
}

/// What the groups of a feature ask.
pub(crate) fn add_groups(
    alloc: Global,
    out: &mut ClauseBuilder,
    parent: u32,
    groups: &[Group],
) -> Result<(), AllocError>
    requires below { All (λ group. All (λ child. child < out.old.next_variable) group.children) groups.now }
    requires room { out.old.next_variable + size_of (map (group_part parent) groups.now) ≤ 1000000 }
    ensures clauses { OnOk result (out.new.clauses ≡ out.old.clauses ++ clauses_from out.old.next_variable (map (group_part parent) groups.now)) }
    ensures variable { OnOk result (out.new.next_variable ≡ out.old.next_variable + size_of (map (group_part parent) groups.now)) }
{
    for group in groups {
        add_group(alloc, out, parent, group)?;
    }
    Ok(())
}
