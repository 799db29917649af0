//! Checks over problems of six variables, worked by hand. A letter is a literal, a word is a clause.
ghost use Rattle.std.specs.Prelude.{◌≡◌, ◌<◌, All, IfOk, length};
ghost use Rattle.clauses.specs.Problem.{IsBelow};

use crate::{Checked, checks};
use clauses::{Clauses, Lits, Problem, clauses_of, literal_of};
use req_keys::Key;
use std::alloc::{AllocError, Global};
use std::test::Fail;

/// The problem of the row.
fn problem_of(alloc: Global, row: &Row) -> Result<Problem, AllocError>
    ensures { IfOk result (λ problem. problem.variables ≡ 6) }
{
    let mut roots = Lits::new(alloc);
    if row.roots != b"  " {
        roots.push(literal_of(6, row.roots[0]))?;
        roots.push(literal_of(6, row.roots[1]))?;
    }
    Ok(Problem {
        variables: 6,
        features: 6,
        clauses: clauses_of(alloc, 6, row.clauses)?,
        roots,
        allowance: 3,
        rungs: 0,
    })
}

/// Lines, and what they are.
#[derive(Clone, Copy)]
struct Row {
    clauses: &'static [&'static str],
    /// Two literals, or blanks.
    roots: &'static [u8; 2],
    /// Whether the roots are asked for.
    with_roots: bool,
    lines: &'static [&'static str],
    answer: Checked,
}

/// A root with two features under it, and each choice of the two is forbidden.
const FORBIDDEN: &[&str] = &["a", "Ba", "Ca", "bc", "bC", "Bc", "BC"];

/// Each of the eight choices of b, c and d is forbidden.
const CUBE: &[&str] = &["a", "bcd", "bcD", "bCd", "bCD", "Bcd", "BcD", "BCd", "BCD"];

/// Where a and b are true, each choice of c and d is forbidden.
const UNDER_BOTH: &[&str] = &["ABcd", "ABcD", "ABCd", "ABCD"];

/// A row without roots.
fn plain(clauses: &'static [&'static str], lines: &'static [&'static str], answer: Checked) -> Row {
    rooted(clauses, b"  ", false, lines, answer)
}

/// A row with two roots.
fn rooted(
    clauses: &'static [&'static str],
    roots: &'static [u8; 2],
    with_roots: bool,
    lines: &'static [&'static str],
    answer: Checked,
) -> Row {
    Row {
        clauses,
        roots,
        with_roots,
        lines,
        answer,
    }
}

/// Worked by hand.
fn rows() -> [Row; 24] {
    [
        plain(FORBIDDEN, &["b", ""], Checked::Yes),
        plain(FORBIDDEN, &["b"], Checked::NoEnd),
        plain(FORBIDDEN, &[], Checked::NoEnd),
        plain(FORBIDDEN, &["A", ""], Checked::NoAt(0)),
        plain(FORBIDDEN, &[""], Checked::NoAt(0)),
        plain(FORBIDDEN, &["a", "A", ""], Checked::NoAt(1)),
        plain(FORBIDDEN, &["b", "", ""], Checked::Yes),
        plain(FORBIDDEN, &["b", "", "A"], Checked::NoEnd),
        // a literal beside its negation, and a repeated one
        plain(FORBIDDEN, &["dD", "bb", ""], Checked::Yes),
        plain(FORBIDDEN, &["eb", "dB", ""], Checked::NoAt(2)),
        plain(CUBE, &["bc", "b", "c", ""], Checked::Yes),
        plain(CUBE, &["bc", "c", "b", ""], Checked::Yes),
        plain(CUBE, &["bc", "b", ""], Checked::NoAt(2)),
        plain(CUBE, &["b", "bc", ""], Checked::NoAt(0)),
        plain(&[""], &[], Checked::NoEnd),
        plain(&[""], &["a"], Checked::NoEnd),
        plain(&[""], &[""], Checked::Yes),
        plain(&[], &["a", "a"], Checked::NoAt(0)),
        rooted(&[], b"aA", true, &[""], Checked::Yes),
        rooted(&[], b"aA", true, &["b"], Checked::NoEnd),
        rooted(&[], b"aA", false, &[""], Checked::NoAt(0)),
        rooted(UNDER_BOTH, b"ab", true, &["c", ""], Checked::Yes),
        rooted(UNDER_BOTH, b"ab", false, &["c", ""], Checked::NoAt(0)),
        rooted(
            UNDER_BOTH,
            b"ab",
            false,
            &["ABc", "AB", ""],
            Checked::NoAt(2),
        ),
    ]
}

/// All requirements or none.
fn key_of(alloc: Global, row: &Row, problem: &Problem) -> Result<Key, AllocError>
    ensures { IfOk result (λ key. key.n ≡ length problem.now.roots) }
{
    if row.with_roots {
        Key::full(alloc, problem.n())
    } else {
        Key::empty(alloc, problem.n())
    }
}

/// The answer to the lines; None if there are more than a hundred.
fn found(
    alloc: Global,
    problem: &Problem,
    key: &Key,
    lines: &Clauses,
) -> Result<Option<Checked>, AllocError>
    requires key { key.now.n ≡ length problem.now.roots }
    requires variables { All (All (IsBelow problem.now.variables)) lines.now }
{
    if lines.len() > 100 {
        return Ok(None);
    }
    Ok(Some(checks(alloc, problem, key, lines)?))
}

/// The answer to the lines of the row.
fn found_of_row(alloc: Global, row: &Row) -> Result<Option<Checked>, AllocError> {
    let problem = problem_of(alloc, row)?;
    let key = key_of(alloc, row, &problem)?;
    let lines = clauses_of(alloc, 6, row.lines)?;
    found(alloc, &problem, &key, &lines)
}

#[test]
fn checks_as_by_hand(rt: HostRuntime) -> Result<(), Fail> {
    for row in &rows() {
        let found = found_of_row(rt.alloc(), row)?;
        assert_eq!(rt;
            found,
            Some(row.answer),
            "of {:?} over {:?}",
            row.lines,
            row.clauses
        );
    }
    Ok(())
}
