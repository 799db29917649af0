//! Lines of a derivation.
ghost use Rattle.std.specs.Prelude.{◌≡◌, ◌<◌, All, IfOk, IfSome, IsTrue, Some, None, if◌then◌else◌, option_map, length};
ghost use Rattle.clauses.specs.Problem.{IsBelow};
ghost use Rattle.certificate.specs.Words.{clause_of, literal_of, saying_of};
ghost use Rattle.certificate.specs.inside.Pieces.{pieces_of};
ghost use Rattle.certificate.specs.inside.Said.{meaning};

use crate::cutting::cut;
use crate::numbers::number_within;
use clauses::{Lit, Lits};
use std::alloc::AllocError;

/// What a line of a derivation says.
#[derive(Clone, Copy)]
pub(crate) enum Said {
    /// The clause that was read follows.
    Learns,
    /// What is given clashes.
    Clashes,
    /// It begins as a line of a derivation, and has another form.
    Malformed,
    /// It is no line of a derivation.
    Foreign,
}

/// The literal that the word writes.
fn literal(word: &[u8], variables: u32) -> Option<Lit>
    ensures literal { result ≡ literal_of variables word.now }
    ensures below { IfSome result (IsBelow variables) }
{
    let (first, digits) = word.split_first()?;
    if *first == b'-' {
        let number = number_within(digits, variables)?;
        return Some(Lit {
            var: number - 1,
            positive: false,
        });
    }
    let number = number_within(word, variables)?;
    Some(Lit {
        var: number - 1,
        positive: true,
    })
}

/// Reads the literals of a clause, at least one.
fn read_clause(words: Option<&[u8]>, variables: u32, clause: &mut Lits) -> Result<bool, AllocError>
    ensures read { IfOk result (λ yes. clause_of variables (pieces_of 32 (option_map (λ some. some.now) words.entry)) ≡ (if yes then Some clause.new else None)) }
    ensures below { All (IsBelow variables) clause.new }
{
    clause.truncate(0);
    if words.is_none() {
        return Ok(false);
    }
    let mut rest = words;
    'words: while let Some(words) = rest {
        let (word, behind) = cut(words, b' ');
        let Some(literal) = literal(word, variables) else {
            return Ok(false);
        };
        clause.push(literal)?;
        rest = behind;
    }
    Ok(true)
}

/// Reads what the line says, and a clause that it says.
pub(crate) fn read_saying(
    line: &[u8],
    variables: u32,
    clause: &mut Lits,
) -> Result<Said, AllocError>
    ensures said { IfOk result (λ said. saying_of variables line.now ≡ meaning said clause.new) }
    ensures below { All (IsBelow variables) clause.old → All (IsBelow variables) clause.new }
{
    let (first, others) = cut(line, b' ');
    if first == b"learn".as_slice() {
        let learns = read_clause(others, variables, clause)?;
        return Ok(if learns {
            Said::Learns
        } else {
            Said::Malformed
        });
    }
    if first == b"clash".as_slice() {
        let whole = others.is_none();
        return Ok(if whole {
            Said::Clashes
        } else {
            Said::Malformed
        });
    }
    Ok(Said::Foreign)
}
