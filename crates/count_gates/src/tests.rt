//! Tables of a few children, worked by hand. A letter is a literal, a word is a clause: a to d are the children's
//! variables, and those from e on the table's.
ghost use Rattle.std.specs.Prelude.{◌≡◌, ◌+◌, ◌≤◌, length, All};
ghost use Rattle.clauses.specs.Clause.{negative_of, positive_of};
ghost use Rattle.clauses.specs.Problem.{IsBelow};
ghost use Rattle.count_gates.specs.Table.{table_size};

use crate::count_table;
use clauses::{ClauseBuilder, Lit, clause_of, clauses_of};
use std::alloc::{AllocError, Global};
use std::process::Abort;

/// The variable.
fn yes(var: u32) -> Lit
    ensures { result ≡ positive_of var }
{
    Lit {
        var,
        positive: true,
    }
}

/// Its negation.
fn no(var: u32) -> Lit
    ensures { result ≡ negative_of var }
{
    Lit {
        var,
        positive: false,
    }
}

/// Whether the table has these clauses, and answers these literals.
fn is_table(
    alloc: Global,
    children: &[Lit],
    upto: u32,
    words: &[&str],
    last: &str,
) -> Result<bool, AllocError>
    requires some { 1 ≤ upto }
    requires most { upto ≤ length children.now }
    requires below { All (IsBelow 4) children.now }
    requires room { 4 + table_size (length children.now) upto ≤ 1000000 }
{
    let mut out = ClauseBuilder::new(alloc, 4);
    let literals = count_table(alloc, &mut out, children, upto)?;
    Ok(
        out.into_clauses() == clauses_of(alloc, 32, words)?
            && literals == clause_of(alloc, 32, last)?,
    )
}

#[test]
fn one_child(rt: HostRuntime) -> Result<(), AllocError> {
    assert!(rt; is_table(rt.alloc(), &[yes(0)], 1, &["Ea", "eA"], "e")?);
    assert!(rt; is_table(rt.alloc(), &[no(0)], 1, &["EA", "ea"], "e")?);
    Ok(())
}

#[test]
fn two_children(rt: HostRuntime) -> Result<(), AllocError> {
    assert!(rt;
        is_table(
            rt.alloc(),
            &[yes(0), yes(1)],
            1,
            &["Ea", "eA", "Feb", "fE", "fB"],
            "f"
        )?
    );
    let words = &["Ea", "eA", "Feb", "fE", "fB", "Gb", "Ge", "gEB"];
    assert!(rt; is_table(rt.alloc(), &[yes(0), yes(1)], 2, words, "fg")?);
    let words = &["Ea", "eA", "Fea", "fE", "fA", "Ga", "Ge", "gEA"];
    assert!(rt; is_table(rt.alloc(), &[yes(0), yes(0)], 2, words, "fg")?);
    Ok(())
}

/// As a group of four children of which two to three are taken asks for: the literals for at least 2 and at least 4.
#[test]
fn four_children(rt: HostRuntime) -> Result<(), AllocError> {
    let children = &[yes(0), yes(1), yes(2), yes(3)];
    let words = &[
        "Ea", "eA", "Feb", "fE", "fB", "Gb", "Ge", "gEB", "Hfc", "hF", "hC", "Igc", "Igf", "iG",
        "iFC", "Jc", "Jg", "jGC", "Khd", "kH", "kD", "Lid", "Lih", "lI", "lHD", "Mjd", "Mji", "mJ",
        "mID", "Nd", "Nj", "nJD",
    ];
    assert!(rt; is_table(rt.alloc(), children, 4, words, "klmn")?);
    Ok(())
}
