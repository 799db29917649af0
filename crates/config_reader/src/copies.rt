//! Copies of formulas and requirements.
ghost use Rattle.std.specs.Prelude.{◌≡◌, IfOk};

use crate::config::Requirement;
use feature_tree::{Boxed, Formula, Formulas, Row, Text};
use std::alloc::{AllocError, Global};

/// A copy of a requirement.
pub(crate) fn copy_of(alloc: Global, requirement: &Requirement) -> Result<Requirement, AllocError>
    ensures { IfOk result (λ copy. copy ≡ requirement.now) }
{
    let text = Text::from_slice(alloc, requirement.text.as_slice())?;
    let formula = copied(alloc, &requirement.formula)?;
    Ok(Requirement { text, formula })
}

/// A copy of a formula.
#[cycle(copied)]
fn copied(alloc: Global, formula: &Formula) -> Result<Formula, AllocError>
    ensures { IfOk result (λ copy. copy ≡ formula.now) }
{
    match formula {
        Formula::Name(name) => Ok(Formula::Name(*name)),
        Formula::Not(part) => Ok(Formula::Not(boxed(alloc, part.get())?)),
        Formula::All(parts) => Ok(Formula::All(all_copied(alloc, parts.as_slice())?)),
        Formula::Any(parts) => Ok(Formula::Any(all_copied(alloc, parts.as_slice())?)),
        Formula::Implies(left, right) => {
            let left = boxed(alloc, left.get())?;
            Ok(Formula::Implies(left, boxed(alloc, right.get())?))
        }
        Formula::Same(left, right) => {
            let left = boxed(alloc, left.get())?;
            Ok(Formula::Same(left, boxed(alloc, right.get())?))
        }
    }
}

/// A copy of one part.
#[cycle(copied)]
fn boxed(alloc: Global, formula: &Formula) -> Result<Boxed<Formula>, AllocError>
    ensures { IfOk result (λ copy. copy ≡ formula.now) }
{
    Boxed::new(alloc, copied(alloc, formula)?)
}

/// A copy of each formula.
#[cycle(copied)]
fn all_copied(alloc: Global, formulas: &[Formula]) -> Result<Formulas, AllocError>
    ensures { IfOk result (λ row. row ≡ formulas.now) }
{
    let mut row = Row::new(alloc);
    for formula in formulas {
        row.push(copied(alloc, formula)?)?;
    }
    Ok(row)
}
