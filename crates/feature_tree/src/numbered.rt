//! Formulas whose names get other numbers.
ghost use Rattle.std.specs.Prelude.{◌≡◌, length, map, All, IfOk};
ghost use Rattle.feature_tree.specs.Names.{NamesBelow};
ghost use Rattle.feature_tree.specs.Numbered.{numbered, NumberedNames, NumberedTruth};

use crate::formula::{Formula, Formulas};
use lists::Row;
use sqlite_items::Boxed;
use std::alloc::{AllocError, Global};

impl Formula {
    /// The formula with each name replaced by the number at its place in `of`, as a reader does that knows which feature
    /// each name stands for.
    #[cycle(numbered)]
    pub fn numbered(&self, alloc: Global, of: &[u32]) -> Result<Formula, AllocError>
        requires { NamesBelow (length of.now) self.now }
        ensures { IfOk result (λ formula. formula ≡ numbered of.now self.now) }
    {
        match self {
            Formula::Name(name) => Ok(Formula::Name(of[*name as usize])),
            Formula::Not(part) => Ok(Formula::Not(boxed(alloc, part.get(), of)?)),
            Formula::All(parts) => Ok(Formula::All(all_numbered(alloc, parts.as_slice(), of)?)),
            Formula::Any(parts) => Ok(Formula::Any(all_numbered(alloc, parts.as_slice(), of)?)),
            Formula::Implies(left, right) => {
                let left = boxed(alloc, left.get(), of)?;
                Ok(Formula::Implies(left, boxed(alloc, right.get(), of)?))
            }
            Formula::Same(left, right) => {
                let left = boxed(alloc, left.get(), of)?;
                Ok(Formula::Same(left, boxed(alloc, right.get(), of)?))
            }
        }
    }
}

/// One part with other numbers.
#[cycle(numbered)]
fn boxed(alloc: Global, formula: &Formula, of: &[u32]) -> Result<Boxed<Formula>, AllocError>
    requires { NamesBelow (length of.now) formula.now }
    ensures { IfOk result (λ part. part ≡ numbered of.now formula.now) }
{
    Boxed::new(alloc, formula.numbered(alloc, of)?)
}

/// Each formula with other numbers.
#[cycle(numbered)]
fn all_numbered(alloc: Global, formulas: &[Formula], of: &[u32]) -> Result<Formulas, AllocError>
    requires { All (NamesBelow (length of.now)) formulas.now }
    ensures { IfOk result (λ row. row ≡ map (numbered of.now) formulas.now) }
{
    let mut row = Row::new(alloc);
    for formula in formulas {
        row.push(formula.numbered(alloc, of)?)?;
    }
    Ok(row)
}

/// The names of a formula with other numbers, and its truth: that of the formula, with each name taken as true where its
/// number is in the set.
pub fn numbered_keeps_truth()
    ensures names { NumberedNames }
    ensures truth { NumberedTruth }
{}
