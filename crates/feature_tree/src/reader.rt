//! From tokens to a formula.
ghost use Rattle.std.specs.Prelude.{◌≡◌, ◌^◌, ◌<◌, length, IfOk, IfErr, Ok};
ghost use Rattle.feature_tree.specs.Roles.{roles_of};
ghost use Rattle.feature_tree.specs.FormulaAnswer.{formula_answer, IsRefusal};
ghost use Rattle.feature_tree.specs.Names.{NamesBelow};
ghost use Rattle.feature_tree.specs.Refusals.{StandsFor, IsRefused};

mod descent;
mod error;
mod parsed;
mod role;
mod scan;
#[cfg(test)]
mod tests;

use crate::formula::Formula;
use descent::read_chain;
pub use error::FormulaError;
pub use parsed::Parsed;
pub use role::{Level, Role};
use scan::{has_unsupported, is_formula};
use std::alloc::Global;
use uvl_lex::Token;

/// The height that a formula may have.
const MOST: u32 = 200;

/// The formula that the tokens stand for, in which `Name(i)` names the token with index `i`.
pub fn formula_of(alloc: Global, tokens: &[Token]) -> Result<Formula, FormulaError>
    requires { length tokens.now < 2 ^ 32 }
    ensures formula { IfOk result (StandsFor (roles_of tokens.now)) }
    ensures refusal { IfErr result (IsRefused (roles_of tokens.now)) }
    ensures answer { IfOk result (λ formula. formula_answer tokens.now ≡ Ok formula) }
    ensures refused { IfErr result (λ reason. IsRefusal reason (formula_answer tokens.now)) }
    ensures names { IfOk result (NamesBelow (length tokens.now)) }
{
    if has_unsupported(tokens) {
        return Err(FormulaError::Unsupported);
    }
    if !is_formula(tokens) {
        return Err(FormulaError::BadFormula);
    }
    let found = read_chain(alloc, tokens, 0, Level::Same, MOST)?;
    Ok(found.parsed.into_formula())
}
