//! The constraints of a model, with features for names.
ghost use Rattle.std.specs.Prelude.{◌≡◌, All, IfOk, IfErr, Ok, Some, None, if◌then◌else◌};
ghost use Rattle.uvl_lex.specs.Text.{IsSpanOf};
ghost use Rattle.uvl_reader.specs.inside.Good.{IsStated};
ghost use Rattle.uvl_reader.specs.inside.Standing.{number_at, numbers, one_numbered, constraints_of, IsRefused};

use crate::draft::refused;
use crate::error::{ModelError, Reason};
use crate::shape::is_name;
use crate::stated::Stated;
use feature_tree::{Formula, Formulas, Numbers, Row};
use name_table::Names;
use std::alloc::{AllocError, Global};
use uvl_lex::{Token, text_of};

/// Each formula with the features that it names, or the first refusal. A formula is let go as soon as it has its features,
/// so that the next one can have its memory.
pub(crate) fn constraints_of(
    alloc: Global,
    names: &Names<'_>,
    bytes: &[u8],
    stated: Vec<Stated<'_>>,
) -> Result<Formulas, ModelError>
    requires { All (IsStated bytes.now) stated.items }
    ensures ok { IfOk result (λ constraints. constraints_of names.now bytes.now stated.entry.items ≡ Ok constraints) }
    ensures refused { IfErr result (λ e. IsRefused e (constraints_of names.now bytes.now stated.entry.items)) }
{
    let mut constraints = Row::new(alloc);
    let mut of = Numbers::new(alloc);
    for one in stated {
        constraints.push(numbered(alloc, names, bytes, &one, &mut of)?)?;
        drop(one);
    }
    Ok(constraints)
}

/// One formula with the features that it names. `of` is a buffer for their numbers.
fn numbered(
    alloc: Global,
    names: &Names<'_>,
    bytes: &[u8],
    one: &Stated<'_>,
    of: &mut Numbers,
) -> Result<Formula, ModelError>
    requires { IsStated bytes.now one.now }
    ensures ok { IfOk result (λ formula. one_numbered one.now (numbers names.now bytes.now one.now.tokens) ≡ Ok formula) }
    ensures refused { IfErr result (λ e. IsRefused e (one_numbered one.now (numbers names.now bytes.now one.now.tokens))) }
{
    if !numbers(names, bytes, one.tokens, of)? {
        return Err(refused(one.line, Reason::Unknown));
    }
    Ok(one.formula.numbered(alloc, of.as_slice())?)
}

/// Puts the number for each token in the place of what was in `of`, and answers whether every name is a feature's.
fn numbers(
    names: &Names<'_>,
    bytes: &[u8],
    tokens: &[Token],
    of: &mut Numbers,
) -> Result<bool, AllocError>
    requires { All (IsSpanOf bytes.now) tokens.now }
    ensures { IfOk result (λ known. numbers names.now bytes.now tokens.now ≡ (if known then Some of.new else None)) }
{
    of.truncate(0);
    for token in tokens {
        match number_at(names, bytes, token) {
            Some(number) => of.push(number)?,
            None => return Ok(false),
        }
    }
    Ok(true)
}

/// The number of the feature that the token names, if there is one; 0 where the token is no name.
fn number_at(names: &Names<'_>, bytes: &[u8], token: &Token) -> Option<u32>
    requires { IsSpanOf bytes.now token.now }
    ensures { result ≡ number_at names.now bytes.now token.now }
{
    if is_name(token.kind) {
        names.get(text_of(bytes, token))
    } else {
        Some(0)
    }
}
