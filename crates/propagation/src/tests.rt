//! Propagators over problems of four variables, worked by hand. A letter is a literal, a word is a clause.
ghost use Rattle.std.specs.Prelude.{◌≡◌, [], IfOk};

use crate::{Propagator, with_roots};
use clauses::{Clauses, Lits, Problem, clause_of, clauses_of, literal_of};
use req_keys::Key;
use std::alloc::{AllocError, Global};

/// The problem of the words, without roots.
fn problem_of(alloc: Global, words: &[&str]) -> Result<Problem, AllocError>
    ensures { IfOk result (λ problem. problem.variables ≡ 4) }
{
    Ok(Problem {
        variables: 4,
        features: 4,
        clauses: clauses_of(alloc, 4, words)?,
        roots: Lits::new(alloc),
        allowance: 0,
        rungs: 0,
    })
}

/// A propagator, and the values that it tells.
struct Row {
    clauses: &'static [&'static str],
    learned: &'static [&'static str],
    /// Blanks stand for none.
    assumed: &'static [u8; 4],
    /// For each variable 1, 0 or a dash; exclamation marks for a clash.
    values: &'static [u8; 4],
}

/// A value as a letter.
fn sign_of(value: Option<bool>) -> u8 {
    match value {
        Some(true) => b'1',
        Some(false) => b'0',
        None => b'-',
    }
}

/// The values of all variables, or exclamation marks.
fn signs_of(propagator: &Propagator<'_>) -> [u8; 4]
    requires { propagator.now.problem.variables ≡ 4 }
{
    if propagator.clashes() {
        return *b"!!!!";
    }
    [
        sign_of(propagator.value(0)),
        sign_of(propagator.value(1)),
        sign_of(propagator.value(2)),
        sign_of(propagator.value(3)),
    ]
}

/// Learns the row's clauses.
fn learn_all(alloc: Global, propagator: &mut Propagator<'_>, row: &Row) -> Result<(), AllocError>
    requires { propagator.old.problem.variables ≡ 4 }
    ensures problem { propagator.new.problem ≡ propagator.old.problem }
    ensures assumed { propagator.new.assumed ≡ propagator.old.assumed }
{
    for word in row.learned {
        let clause = clause_of(alloc, 4, word)?;
        propagator.learn(clause.as_slice())?;
    }
    Ok(())
}

/// Assumes the row's literals, up to a clash.
fn assume_all(propagator: &mut Propagator<'_>, row: &Row)
    requires variables { propagator.old.problem.variables ≡ 4 }
    requires none { propagator.old.assumed ≡ [] }
    ensures { propagator.new.problem ≡ propagator.old.problem }
{
    for letter in row.assumed {
        if *letter != b' ' && !propagator.clashes() {
            propagator.assume(literal_of(4, *letter));
        }
    }
}

/// The values after the row's clauses are learned and its literals assumed.
fn signs_after(
    alloc: Global,
    propagator: &mut Propagator<'_>,
    row: &Row,
) -> Result<[u8; 4], AllocError>
    requires variables { propagator.old.problem.variables ≡ 4 }
    requires none { propagator.old.assumed ≡ [] }
{
    learn_all(alloc, propagator, row)?;
    assume_all(propagator, row);
    Ok(signs_of(propagator))
}

/// Those of the propagator of the row.
fn signs_at(alloc: Global, row: &Row) -> Result<[u8; 4], AllocError> {
    let problem = problem_of(alloc, row.clauses)?;
    let mut propagator = Propagator::new(alloc, &problem)?;
    signs_after(alloc, &mut propagator, row)
}

/// Worked by hand.
const ROWS: [Row; 14] = [
    // no clauses, and a variable in none of them
    Row {
        clauses: &[],
        learned: &[],
        assumed: b"    ",
        values: b"----",
    },
    Row {
        clauses: &[],
        learned: &[],
        assumed: b"D   ",
        values: b"---0",
    },
    // unit clauses, and what follows
    Row {
        clauses: &["a", "Ab", "BC"],
        learned: &[],
        assumed: b"    ",
        values: b"110-",
    },
    // against the order of the clauses
    Row {
        clauses: &["Cd", "Bc", "Ab"],
        learned: &[],
        assumed: b"a   ",
        values: b"1111",
    },
    // through a learned clause
    Row {
        clauses: &["BC", "Ab"],
        learned: &["cd"],
        assumed: b"a   ",
        values: b"1101",
    },
    // a repeated literal counts once
    Row {
        clauses: &["aa"],
        learned: &["bcc"],
        assumed: b"B   ",
        values: b"101-",
    },
    // a literal beside its negation forces nothing
    Row {
        clauses: &["aA", "bBc"],
        learned: &[],
        assumed: b"B   ",
        values: b"-0--",
    },
    // nothing is forced while two literals are open
    Row {
        clauses: &["ab", "aB"],
        learned: &[],
        assumed: b"    ",
        values: b"----",
    },
    // what is assumed was there, or its negation was
    Row {
        clauses: &["a", "Ab"],
        learned: &[],
        assumed: b"ab  ",
        values: b"11--",
    },
    Row {
        clauses: &["a", "Ab"],
        learned: &[],
        assumed: b"B   ",
        values: b"!!!!",
    },
    // refuted unit clauses, empty clauses and learned clauses
    Row {
        clauses: &["a", "A"],
        learned: &[],
        assumed: b"    ",
        values: b"!!!!",
    },
    Row {
        clauses: &["b", ""],
        learned: &[],
        assumed: b"    ",
        values: b"!!!!",
    },
    Row {
        clauses: &[],
        learned: &[""],
        assumed: b"    ",
        values: b"!!!!",
    },
    Row {
        clauses: &["A", "B"],
        learned: &["ab"],
        assumed: b"    ",
        values: b"!!!!",
    },
];

#[test]
fn values_of_the_closure(rt: HostRuntime) -> Result<(), AllocError> {
    for row in &ROWS {
        assert!(rt; signs_at(rt.alloc(), row)? == *row.values);
    }
    Ok(())
}

#[test]
fn going_back_takes_a_clash_back(rt: HostRuntime) -> Result<(), AllocError> {
    let problem = problem_of(rt.alloc(), &["Ab", "BC"])?;
    let mut propagator = Propagator::new(rt.alloc(), &problem)?;
    assert!(rt; !propagator.clashes() && propagator.assume(literal_of(4, b'a')));
    assert!(rt; !propagator.assume(literal_of(4, b'c')));
    propagator.back_to(1);
    assert!(rt; signs_of(&propagator) == *b"110-");
    Ok(())
}

#[test]
fn learned_clauses_reach_what_is_assumed(rt: HostRuntime) -> Result<(), AllocError> {
    let problem = problem_of(rt.alloc(), &["Ab", "BC"])?;
    let mut propagator = Propagator::new(rt.alloc(), &problem)?;
    assert!(rt; !propagator.clashes() && propagator.assume(literal_of(4, b'a')));
    assert!(rt; propagator.learn(&[literal_of(4, b'A'), literal_of(4, b'd')])?);
    assert!(rt; signs_of(&propagator) == *b"1101");
    Ok(())
}

#[test]
fn learned_clauses_stay(rt: HostRuntime) -> Result<(), AllocError> {
    let problem = problem_of(rt.alloc(), &[])?;
    let mut propagator = Propagator::new(rt.alloc(), &problem)?;
    assert!(rt; !propagator.learn(&[])?);
    propagator.back_to(0);
    assert!(rt; propagator.clashes());
    assert!(rt; propagator.learned().len() == 1);
    assert!(rt; propagator.into_learned().len() == 1);
    Ok(())
}

#[test]
fn known_literals_are_not_assumed(rt: HostRuntime) -> Result<(), AllocError> {
    let problem = problem_of(rt.alloc(), &["Ab"])?;
    let mut propagator = Propagator::new(rt.alloc(), &problem)?;
    assert!(rt; !propagator.clashes() && propagator.make_true(literal_of(4, b'a')));
    assert!(rt; propagator.make_true(literal_of(4, b'b')));
    assert!(rt; signs_of(&propagator) == *b"11--");
    assert!(rt; !propagator.make_true(literal_of(4, b'B')));
    assert!(rt; signs_of(&propagator) == *b"11--");
    Ok(())
}

#[test]
fn roots_are_assumed(rt: HostRuntime) -> Result<(), AllocError> {
    let mut roots = Lits::new(rt.alloc());
    roots.push(literal_of(4, b'a'))?;
    roots.push(literal_of(4, b'B'))?;
    let problem = Problem {
        variables: 4,
        features: 4,
        clauses: Clauses::new(rt.alloc()),
        roots,
        allowance: 0,
        rungs: 0,
    };
    let key = Key::full(rt.alloc(), problem.n())?;
    let Some(propagator) = with_roots(rt.alloc(), &problem, &key)? else {
        assert!(rt; false, "they don't clash");
        return Ok(());
    };
    assert!(rt; signs_of(&propagator) == *b"10--");
    Ok(())
}
