//! Clauses in letters, for worked problems and tests: `bC` is 'b, or not c'.
ghost use Rattle.std.specs.Prelude.{◌≡◌, ◌<◌, All, IfOk, map};
ghost use Rattle.clauses.specs.Letters.{clause_of, literal_of};
ghost use Rattle.clauses.specs.Problem.{IsBelow};

use crate::literal::{Clause, Clauses, Lit};
use std::alloc::{AllocError, Global};

/// The literal of a letter, over so many variables: `a` is variable 0, `b` is variable 1, and a capital letter is the
/// negation.
pub fn literal_of(variables: u32, letter: u8) -> Lit
    requires { 0 < variables }
    ensures literal { result ≡ literal_of variables letter }
    ensures below { IsBelow variables result }
{
    if letter < b'a' {
        Lit {
            var: u32::from(letter.saturating_sub(b'A')) % variables,
            positive: false,
        }
    } else {
        Lit {
            var: u32::from(letter - b'a') % variables,
            positive: true,
        }
    }
}

/// The clause of a word.
pub fn clause_of(alloc: Global, variables: u32, word: &str) -> Result<Clause, AllocError>
    requires { 0 < variables }
    ensures clause { IfOk result (λ clause. clause ≡ clause_of variables word.now) }
    ensures below { IfOk result (All (IsBelow variables)) }
{
    let mut clause = Clause::new(alloc);
    for letter in word.as_bytes() {
        clause.push(literal_of(variables, *letter))?;
    }
    Ok(clause)
}

/// The clauses of the words.
pub fn clauses_of(alloc: Global, variables: u32, words: &[&str]) -> Result<Clauses, AllocError>
    requires { 0 < variables }
    ensures clauses { IfOk result (λ clauses. clauses ≡ map (λ word. clause_of variables word.now) words.now) }
    ensures below { IfOk result (All (All (IsBelow variables))) }
{
    let mut clauses = Clauses::new(alloc);
    for word in words {
        clauses.push(clause_of(alloc, variables, word)?)?;
    }
    Ok(clauses)
}
