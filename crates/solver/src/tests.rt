//! Searches over problems of six variables, worked by hand. A letter is a literal, a word is a clause.
use crate::{Answer, Assignment, NoStop, Stop, solve};
use clauses::{Clause, Clauses, Lit, Lits, Problem, clauses_of, literal_of};
use req_keys::Key;
use std::alloc::{AllocError, Global};
use std::test::Fail;

/// The letter of a literal.
fn letter_of(literal: &Lit) -> char {
    let letters = if literal.positive { "abcdef" } else { "ABCDEF" };
    letters.chars().nth(literal.var as usize).unwrap_or('?')
}

/// The problem of the row.
fn problem_of(alloc: Global, row: &Row) -> Result<Problem, AllocError> {
    let mut roots = Lits::new(alloc);
    if row.roots != b"  " {
        roots.push(literal_of(6, row.roots[0]))?;
        roots.push(literal_of(6, row.roots[1]))?;
    }
    Ok(Problem {
        variables: 6,
        features: 6,
        clauses: clauses_of(alloc, 6, row.clauses)?,
        roots,
        allowance: u64::from(row.allowance),
        rungs: row.rungs.min(4),
    })
}

/// A search, and how it ends.
#[derive(Clone, Copy)]
struct Row {
    clauses: &'static [&'static str],
    /// Two literals, or blanks.
    roots: &'static [u8; 2],
    /// Whether the roots are asked for.
    with_roots: bool,
    allowance: u16,
    /// At most 4.
    rungs: u8,
    /// The values, `limit`, or the lines, each with a full stop behind it.
    answer: &'static str,
}

/// Each of the eight choices of b, c and d is forbidden.
const CUBE: &[&str] = &["a", "bcd", "bcD", "bCd", "bCD", "Bcd", "BcD", "BCd", "BCD"];

/// b or d must be true.
const ONE_OF_TWO: &[&str] = &["bde", "bdE"];

/// a, c or e must be true, and a where e is.
const THREE_NEEDED: &[&str] = &["acef", "aceF", "aEf", "aEF"];

/// A row without roots.
fn rising(
    clauses: &'static [&'static str],
    allowance: u16,
    rungs: u8,
    answer: &'static str,
) -> Row {
    Row {
        clauses,
        roots: b"  ",
        with_roots: false,
        allowance,
        rungs,
        answer,
    }
}

/// One with a single attempt.
fn plain(clauses: &'static [&'static str], allowance: u16, answer: &'static str) -> Row {
    rising(clauses, allowance, 0, answer)
}

/// A row with two roots, in which nothing may be learned.
fn rooted(
    clauses: &'static [&'static str],
    roots: &'static [u8; 2],
    with_roots: bool,
    answer: &'static str,
) -> Row {
    Row {
        clauses,
        roots,
        with_roots,
        allowance: 0,
        rungs: 0,
        answer,
    }
}

/// Worked by hand.
fn rows() -> [Row; 24] {
    [
        plain(&[], 0, "000000"),
        plain(&["b"], 0, "010000"),
        // the empty clause, a repeated literal, a literal beside its negation
        plain(&[""], 0, "."),
        plain(&["aa"], 0, "100000"),
        plain(&["aA"], 0, "000000"),
        rooted(&[], b"af", true, "100001"),
        rooted(&[], b"aA", true, "."),
        rooted(&[], b"aA", false, "000000"),
        rooted(&["Ab", "B"], b"aa", true, "."),
        plain(ONE_OF_TWO, 0, "limit"),
        plain(ONE_OF_TWO, 1, "000100"),
        plain(THREE_NEEDED, 1, "limit"),
        plain(THREE_NEEDED, 2, "001000"),
        plain(&["a", "bc", "bC", "Bc", "BC"], 0, "limit"),
        plain(&["a", "bc", "bC", "Bc", "BC"], 1, "b.."),
        plain(CUBE, 0, "limit"),
        plain(CUBE, 1, "limit"),
        plain(CUBE, 2, "limit"),
        plain(CUBE, 3, "bc.b.c.."),
        // the second attempt decides true
        rising(ONE_OF_TWO, 0, 1, "111111"),
        rising(CUBE, 0, 1, "limit"),
        rising(CUBE, 1, 1, "BC.B.C.."),
        rising(CUBE, 3, 1, "bc.b.c.."),
        rising(&["a", "bc", "bC", "Bc", "BC"], 0, 4, "limit"),
    ]
}

/// Writes a digit for each value.
fn show_values(out: &mut String, values: &Assignment) -> Result<(), Fail> {
    for value in values.as_slice() {
        write!(out, "{}", u8::from(*value))?;
    }
    Ok(())
}

/// Writes the letters of the line.
fn show_line(out: &mut String, line: &Clause) -> Result<(), Fail> {
    for literal in line.as_slice() {
        write!(out, "{}", letter_of(literal))?;
    }
    write!(out, ".")?;
    Ok(())
}

/// Writes all lines.
fn show_lines(out: &mut String, lines: &Clauses) -> Result<(), Fail> {
    for line in lines.as_slice() {
        show_line(out, line)?;
    }
    Ok(())
}

/// How the search of the row ends, as text.
fn shown<S: Stop>(alloc: Global, row: &Row, stop: &mut S) -> Result<String, Fail> {
    let problem = problem_of(alloc, row)?;
    let key = if row.with_roots {
        Key::full(alloc, problem.n())?
    } else {
        Key::empty(alloc, problem.n())?
    };
    let mut out = String::new(alloc);
    match solve(alloc, &problem, &key, stop) {
        Ok(Answer::Sat(values)) => show_values(&mut out, &values)?,
        Ok(Answer::Unsat(lines)) => show_lines(&mut out, &lines)?,
        Ok(Answer::Limit) => write!(out, "limit")?,
        Err(error) => write!(out, "{error:?}")?,
    }
    Ok(out)
}

#[test]
fn searches_as_by_hand(rt: HostRuntime) -> Result<(), Fail> {
    for row in &rows() {
        let found = shown(rt.alloc(), row, &mut NoStop)?;
        assert_eq!(rt; found.as_str(), row.answer, "of {:?}", row.clauses);
    }
    Ok(())
}

/// Says no so many times, and then yes.
#[derive(Drop)]
struct StopAfter {
    left: u64,
    raised: u64,
}

impl Stop for StopAfter {
    ghost raised = { λ stop. stop.raised };

    ghost stays = { λ _ _. Unit {0} };

    ghost reflexive = { λ _. tt };

    ghost transitive = { λ _ _ _ _ _. tt };

    fn asked(&mut self) -> bool {
        if self.left > 0 {
            self.left -= 1;
            return false;
        }
        self.raised = self.raised.saturating_add(1);
        true
    }
}

/// Whether a search that is told to stop at its clash with this number, from 0, ends with this answer, having raised so
/// often.
fn ends_as(alloc: Global, row: &Row, at: u8, answer: &str, raised: u64) -> Result<bool, Fail> {
    let mut stop = StopAfter {
        left: u64::from(at),
        raised: 0,
    };
    let found = shown(alloc, row, &mut stop)?;
    Ok(found.as_str() == answer && stop.left == 0 && stop.raised == raised)
}

/// Whether a search with so many clashes asks once at each of them, and at nothing else.
fn asks_at_each(alloc: Global, row: &Row, clashes: u8) -> Result<bool, Fail> {
    for at in 0..clashes {
        if !ends_as(alloc, row, at, "Stopped", 1)? {
            return Ok(false);
        }
    }
    ends_as(alloc, row, clashes, row.answer, 0)
}

#[test]
fn asks_at_each_clash(rt: HostRuntime) -> Result<(), Fail> {
    // Three clashes are learned from, and the last has no decision.
    assert!(rt; asks_at_each(rt.alloc(), &plain(CUBE, 10_000, "bc.b.c.."), 4)?);
    // After two clashes the first attempt may learn no more.
    assert!(rt; asks_at_each(rt.alloc(), &rising(CUBE, 1, 1, "BC.B.C.."), 6)?);
    assert!(rt; asks_at_each(rt.alloc(), &plain(CUBE, 0, "limit"), 1)?);
    assert!(rt; asks_at_each(rt.alloc(), &rooted(&[], b"aA", true, "."), 1)?);
    assert!(rt; asks_at_each(rt.alloc(), &plain(&["b"], 0, "010000"), 0)?);
    Ok(())
}

#[test]
fn assignments_grow(rt: HostRuntime) -> Result<(), Fail> {
    let mut values = Assignment::new(rt.alloc());
    assert!(rt; values.is_empty());
    values.push(true)?;
    assert!(rt; values.len() == 1 && *values.get(0));
    Ok(())
}
