//! Making a counting table: row after row, each from the row before.
ghost use Rattle.std.specs.Prelude.{◌≡◌, ◌+◌, ◌<◌, ◌≤◌, min, [], ◌∷◌, ◌++◌, map, length, All, OnOk, IfOk, slice_get};
ghost use Rattle.std.specs.List.{range_with_len};
ghost use Rattle.clauses.specs.Clause.{positive_of};
ghost use Rattle.clauses.specs.Problem.{IsBelow};
ghost use Rattle.count_gates.specs.Table.{Always, Is, opposite, clause_of, or_never, or_always, at_least, cell_clauses, row_clauses, table_clauses, table_literals, table_size};

use clauses::{ClauseBuilder, Lit, Lits};
use std::alloc::{AllocError, Global};

/// The cell is true only where the same count was reached before or the other literal is true.
fn add_only_where(
    out: &mut ClauseBuilder,
    cell: Lit,
    same: Option<Lit>,
    other: Lit,
) -> Result<(), AllocError>
    ensures clauses { OnOk result (out.new.clauses ≡ out.old.clauses ++ clause_of (opposite (Is cell) ∷ or_never same ∷ Is other ∷ [])) }
    ensures variable { out.new.next_variable ≡ out.old.next_variable }
{
    match same {
        Some(same) => out.add(&[cell.negated(), same, other]),
        None => out.add(&[cell.negated(), other]),
    }
}

/// The cell is true where the same count was reached before, and where one fewer was and the child is true.
fn add_where(
    out: &mut ClauseBuilder,
    cell: Lit,
    same: Option<Lit>,
    fewer: Option<Lit>,
    child: Lit,
) -> Result<(), AllocError>
    ensures clauses { OnOk result (out.new.clauses ≡ out.old.clauses ++ clause_of (Is cell ∷ opposite (or_never same) ∷ []) ++ clause_of (Is cell ∷ opposite (or_always fewer) ∷ opposite (Is child) ∷ [])) }
    ensures variable { out.new.next_variable ≡ out.old.next_variable }
{
    if let Some(same) = same {
        out.add(&[cell, same.negated()])?;
    }
    match fewer {
        Some(fewer) => out.add(&[cell, fewer.negated(), child.negated()]),
        None => out.add(&[cell, child.negated()]),
    }
}

/// A new variable with its clauses. `same` is None where that count can't have been reached, and `fewer` is None where
/// it always is.
fn add_cell(
    out: &mut ClauseBuilder,
    same: Option<Lit>,
    fewer: Option<Lit>,
    child: Lit,
) -> Result<Lit, AllocError>
    requires { out.old.next_variable < 1000000 }
    ensures literal { IfOk result (λ cell. cell ≡ positive_of out.old.next_variable) }
    ensures clauses { OnOk result (out.new.clauses ≡ out.old.clauses ++ cell_clauses (Is (positive_of out.old.next_variable)) (or_never same) (or_always fewer) (Is child)) }
    ensures variable { out.new.next_variable ≡ out.old.next_variable + 1 }
{
    let cell = out.fresh();
    add_only_where(out, cell, same, child)?;
    if let Some(fewer) = fewer {
        add_only_where(out, cell, same, fewer)?;
    }
    add_where(out, cell, same, fewer, child)?;
    Ok(cell)
}

/// The literal for 'at least j + 1', if the row has one.
fn literal_at(row: &Lits, j: usize) -> Option<Lit>
    ensures { result ≡ slice_get row.now j }
{
    row.as_slice().get(j).copied()
}

/// The row after `before`, whose child is `child`.
fn add_row(
    alloc: Global,
    out: &mut ClauseBuilder,
    before: &Lits,
    child: Lit,
    upto: u32,
) -> Result<Lits, AllocError>
    requires short { length before.now ≤ upto }
    requires room { out.old.next_variable + min (length before.now + 1) upto ≤ 1000000 }
    ensures row { IfOk result (λ row. row ≡ map positive_of (range_with_len out.old.next_variable (min (length before.now + 1) upto))) }
    ensures clauses { IfOk result (λ row. out.new.clauses ≡ out.old.clauses ++ row_clauses before.now row child) }
    ensures variable { OnOk result (out.new.next_variable ≡ out.old.next_variable + min (length before.now + 1) upto) }
{
    let width = (before.len() + 1).min(upto as usize);
    let mut row = Lits::new(alloc);
    let mut fewer = None;
    for j in 0..width {
        let same = literal_at(before, j);
        row.push(add_cell(out, same, fewer, child)?)?;
        fewer = same;
    }
    Ok(row)
}

/// Makes the variables for 'at least j of the first i children', j at most `upto`, with their clauses, and answers the
/// literals for 'at least 1' to 'at least `upto`' of all children. Once it wants memory, the builder holds some of them,
/// and isn't to be used again.
pub fn count_table(
    alloc: Global,
    out: &mut ClauseBuilder,
    children: &[Lit],
    upto: u32,
) -> Result<Lits, AllocError>
    requires some { 1 ≤ upto }
    requires most { upto ≤ length children.now }
    requires below { All (IsBelow out.old.next_variable) children.now }
    requires room { out.old.next_variable + table_size (length children.now) upto ≤ 1000000 }
    ensures count { IfOk result (λ literals. length literals ≡ upto) }
    ensures literals { IfOk result (λ literals. literals ≡ table_literals out.old.next_variable upto children.now) }
    ensures clauses { OnOk result (out.new.clauses ≡ out.old.clauses ++ table_clauses out.old.next_variable upto children.now) }
    ensures variable { OnOk result (out.new.next_variable ≡ out.old.next_variable + table_size (length children.now) upto) }
{
    let mut last = Lits::new(alloc);
    for child in children {
        last = add_row(alloc, out, &last, *child, upto)?;
    }
    Ok(last)
}
