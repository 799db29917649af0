//! What has been read of a formula, and how parts are joined.
ghost use Rattle.std.specs.Prelude.{◌≡◌, ◌^◌, ◌+◌, ◌<◌, ◌≤◌, IfOk, All};
ghost use Rattle.feature_tree.specs.Grammar.{named, negated, enclosed, paired};
ghost use Rattle.feature_tree.specs.inside.Descent.{Answers, pair_of, node_within, joined_from_the_left, IsLow};

use crate::formula::{Formula, Formulas};
use crate::reader::error::FormulaError;
use crate::reader::role::Level;
use sqlite_items::Boxed;
use std::alloc::{AllocError, Global};

/// A formula that was parsed, with its height. It is public because the grammar names it.
#[derive(Debug, Drop)]
pub struct Parsed {
    /// Each name in it is the number of its token.
    pub formula: Formula,
    /// 1 for a name.
    pub height: u32,
}

impl Parsed {
    /// A name that is the token of this number.
    pub(crate) fn named(token: u32) -> Parsed
        ensures { result ≡ named token }
    {
        Parsed {
            formula: Formula::Name(token),
            height: 1,
        }
    }

    /// With a `!` before it.
    pub(crate) fn negated(self, alloc: Global) -> Result<Parsed, AllocError>
        requires { self.height + 1 < 2 ^ 32 }
        ensures { IfOk result (λ whole. whole ≡ negated self) }
    {
        let Parsed { formula, height } = self;
        let formula = Formula::Not(Boxed::new(alloc, formula)?);
        Ok(Parsed {
            formula,
            height: height + 1,
        })
    }

    /// Without its height.
    pub(crate) fn into_formula(self) -> Formula
        ensures { result ≡ self.formula }
    {
        let Parsed { formula, .. } = self;
        formula
    }

    /// In parentheses.
    pub(crate) fn enclosed(self) -> Parsed
        requires { self.height + 1 < 2 ^ 32 }
        ensures { result ≡ enclosed self }
    {
        let Parsed { formula, height } = self;
        Parsed {
            formula,
            height: height + 1,
        }
    }
}

/// What is read of a chain that groups from the left. It ends as soon as the pairs are too high, so that none is ever much higher.
pub(crate) fn from_the_left(
    alloc: Global,
    level: Level,
    first: Parsed,
    others: Vec<Parsed>,
    room: u32,
) -> Result<Parsed, FormulaError>
    requires narrow { room + 1 < 2 ^ 32 }
    requires first_is_low { IsLow room first }
    requires others_are_low { All (IsLow room) others.items }
    ensures answers { Answers result (joined_from_the_left room level first others.items) }
    ensures low { IfOk result (IsLow room) }
{
    let mut whole = first;
    for next in others {
        whole = paired(alloc, level, whole, next)?;
        if whole.height > room {
            return Err(FormulaError::TooDeep);
        }
    }
    Ok(whole)
}

/// Two parts, joined by a node of two.
fn paired(alloc: Global, level: Level, left: Parsed, right: Parsed) -> Result<Parsed, AllocError>
    requires left_is_low { left.height + 1 < 2 ^ 32 }
    requires right_is_low { right.height + 1 < 2 ^ 32 }
    ensures { IfOk result (λ whole. whole ≡ paired (pair_of level) left right) }
{
    let height = left.height.max(right.height) + 1;
    let Parsed { formula, .. } = left;
    let before = Boxed::new(alloc, formula)?;
    let Parsed { formula, .. } = right;
    let after = Boxed::new(alloc, formula)?;
    let formula = match level {
        Level::Same => Formula::Same(before, after),
        _ => Formula::Implies(before, after),
    };
    Ok(Parsed { formula, height })
}

/// One node over these parts, of which the highest has this height.
pub(crate) fn one_node(
    level: Level,
    parts: Formulas,
    highest: u32,
    room: u32,
) -> Result<Parsed, FormulaError>
    requires { highest + 1 < 2 ^ 32 }
    ensures answers { Answers result (node_within room level parts highest) }
    ensures low { IfOk result (IsLow room) }
{
    if highest >= room {
        return Err(FormulaError::TooDeep);
    }
    let formula = match level {
        Level::Any => Formula::Any(parts),
        _ => Formula::All(parts),
    };
    Ok(Parsed {
        formula,
        height: highest + 1,
    })
}
