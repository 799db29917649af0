//! Formulas, and whether one is true in a set of features.
ghost use Rattle.std.specs.Prelude.{◌≡◌, length, All};
ghost use Rattle.std.specs.List.{list_all, list_any};
ghost use Rattle.feature_tree.specs.Truth.{truth};
ghost use Rattle.feature_tree.specs.Names.{NamesBelow};

use lists::Row;
use sqlite_items::Boxed;

/// A condition on a set of features: a cross-tree constraint, or a requirement.
#[derive(Debug, Drop)]
pub enum Formula {
    /// The feature with this number is in the set. A formula that is being read may have other numbers as names.
    Name(u32),
    Not(Boxed<Formula>),
    /// Every part is true, as where there is none.
    All(Formulas),
    /// Some part is true.
    Any(Formulas),
    /// The second is true where the first is.
    Implies(Boxed<Formula>, Boxed<Formula>),
    /// Both are true, or neither is.
    Same(Boxed<Formula>, Boxed<Formula>),
}

/// A list of formulas.
pub type Formulas = Row<Formula>;

impl Formula {
    /// Whether the formula is true in the set, of which `in_set` says for each feature whether it is in it.
    #[cycle(holds)]
    pub fn holds(&self, in_set: &[bool]) -> bool
        requires { NamesBelow (length in_set.now) self.now }
        ensures { result ≡ truth in_set.now self.now }
    {
        match self {
            Formula::Name(feature) => in_set[*feature as usize],
            Formula::Not(part) => !part.get().holds(in_set),
            Formula::All(parts) => all_hold(parts.as_slice(), in_set),
            Formula::Any(parts) => any_holds(parts.as_slice(), in_set),
            Formula::Implies(left, right) => !left.get().holds(in_set) || right.get().holds(in_set),
            Formula::Same(left, right) => left.get().holds(in_set) == right.get().holds(in_set),
        }
    }
}

/// Whether every formula is true in the set.
#[cycle(holds)]
pub fn all_hold(formulas: &[Formula], in_set: &[bool]) -> bool
    requires { All (NamesBelow (length in_set.now)) formulas.now }
    ensures { result ≡ list_all (truth in_set.now) formulas.now }
{
    for formula in formulas {
        if !formula.holds(in_set) {
            return false;
        }
    }
    true
}

/// Whether some formula is true in the set.
#[cycle(holds)]
fn any_holds(formulas: &[Formula], in_set: &[bool]) -> bool
    requires { All (NamesBelow (length in_set.now)) formulas.now }
    ensures { result ≡ list_any (truth in_set.now) formulas.now }
{
    for formula in formulas {
        if formula.holds(in_set) {
            return true;
        }
    }
    false
}
