//! From the tokens of a line to a requirement.
ghost use Rattle.std.specs.Prelude.{◌≡◌, ◌^◌, ◌<◌, All, IfOk, IfErr, Ok, length};
ghost use Rattle.config_reader.specs.Judgement.{requirement, if_formula, one_more, refusal, IsRefusal};
ghost use Rattle.config_reader.specs.Names.{number_at, numbers, is_name};
ghost use Rattle.feature_tree.specs.Names.{NamesBelow};
ghost use Rattle.uvl_lex.specs.Text.{IsSpanOf};

use crate::config::{MOST, Requirement};
use crate::error::{ConfigError, Reason};
use crate::texts::text_of_tokens;
use feature_tree::{Formula, FormulaError, Numbers, formula_of};
use name_table::Names;
use std::alloc::{AllocError, Global};
use uvl_lex::{Token, TokenKind, text_of};

/// The requirement that the tokens of this line state, where there are so many of its kind already.
pub(crate) fn one_more(
    alloc: Global,
    count: usize,
    names: &Names<'_>,
    bytes: &[u8],
    line: u32,
    tokens: &[Token],
) -> Result<Requirement, ConfigError>
    requires few { length tokens.now < 2 ^ 32 }
    requires spans { All (IsSpanOf bytes.now) tokens.now }
    ensures ok { IfOk result (λ stated. one_more count names.now bytes.now line tokens.now ≡ Ok stated) }
    ensures refused { IfErr result (λ e. IsRefusal e (one_more count names.now bytes.now line tokens.now)) }
{
    if count < MOST {
        requirement_of(alloc, names, bytes, line, tokens)
    } else {
        Err(ConfigError::Refused {
            line,
            reason: Reason::TooMany,
        })
    }
}

/// The requirement that the tokens of this line state.
fn requirement_of(
    alloc: Global,
    names: &Names<'_>,
    bytes: &[u8],
    line: u32,
    tokens: &[Token],
) -> Result<Requirement, ConfigError>
    requires few { length tokens.now < 2 ^ 32 }
    requires spans { All (IsSpanOf bytes.now) tokens.now }
    ensures ok { IfOk result (λ stated. requirement names.now bytes.now line tokens.now ≡ Ok stated) }
    ensures refused { IfErr result (λ e. IsRefusal e (requirement names.now bytes.now line tokens.now)) }
{
    match formula_of(alloc, tokens) {
        Ok(formula) => with_numbers(alloc, names, bytes, line, tokens, &formula),
        Err(reason) => Err(refusal(line, reason)),
    }
}

/// The requirement with this formula, whose names are those of the tokens.
fn with_numbers(
    alloc: Global,
    names: &Names<'_>,
    bytes: &[u8],
    line: u32,
    tokens: &[Token],
    formula: &Formula,
) -> Result<Requirement, ConfigError>
    requires spans { All (IsSpanOf bytes.now) tokens.now }
    requires named { NamesBelow (length tokens.now) formula.now }
    ensures ok { IfOk result (λ stated. if_formula names.now bytes.now line tokens.now (Ok formula.now) ≡ Ok stated) }
    ensures refused { IfErr result (λ e. IsRefusal e (if_formula names.now bytes.now line tokens.now (Ok formula.now))) }
{
    let Some(of) = numbers(alloc, names, bytes, tokens)? else {
        return Err(ConfigError::Refused {
            line,
            reason: Reason::Unknown,
        });
    };
    let text = text_of_tokens(alloc, bytes, tokens)?;
    let formula = formula.numbered(alloc, of.as_slice())?;
    Ok(Requirement { text, formula })
}

/// The refusal of a formula at this line.
fn refusal(line: u32, reason: FormulaError) -> ConfigError
    ensures { result ≡ refusal line reason }
{
    let reason = match reason {
        FormulaError::Unsupported => Reason::Unsupported,
        FormulaError::BadFormula => Reason::BadFormula,
        FormulaError::TooDeep => Reason::TooDeep,
        FormulaError::Memory => return ConfigError::Memory,
    };
    ConfigError::Refused { line, reason }
}

/// The number for each token, none where some name is no feature.
fn numbers(
    alloc: Global,
    names: &Names<'_>,
    bytes: &[u8],
    tokens: &[Token],
) -> Result<Option<Numbers>, AllocError>
    requires { All (IsSpanOf bytes.now) tokens.now }
    ensures { IfOk result (λ found. found ≡ numbers names.now bytes.now tokens.now) }
{
    let mut of = Numbers::new(alloc);
    for token in tokens {
        match number_at(names, bytes, token) {
            Some(number) => of.push(number)?,
            None => return Ok(None),
        }
    }
    Ok(Some(of))
}

/// The number of the feature that the token names, if there is one; 0 where the token is no name.
fn number_at(names: &Names<'_>, bytes: &[u8], token: &Token) -> Option<u32>
    requires { IsSpanOf bytes.now token.now }
    ensures { result ≡ number_at names.now bytes.now token.now }
{
    if is_name(token.kind) {
        names.get(text_of(bytes, token))
    } else {
        Some(0)
    }
}

/// Whether the token is a name, quoted or not.
fn is_name(kind: TokenKind) -> bool
    ensures { result ≡ is_name kind }
{
    matches!(kind, TokenKind::Name | TokenKind::Quoted)
}
