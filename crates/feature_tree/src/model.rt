//! Feature models.
ghost use Rattle.std.specs.Prelude.{◌≡◌, IsTrue, ◌↔◌, length};
ghost use Rattle.feature_tree.specs.Product.{IsProduct};
ghost use Rattle.feature_tree.specs.Decided.{is_product};

use crate::feature::{Features, members_are_settled};
use crate::formula::{Formulas, all_hold};

/// A feature model, well formed: a tree of 1 to 65,535 features, and constraints that name no others.
#[derive(Debug, Drop)]
pub struct Model {
    /// Numbered by place; feature 0 is the root.
    pub features: Features,
    /// What every product makes true, with feature numbers as names.
    pub constraints: Formulas,
}

impl std::marker::Model for Model {
    ghost use Rattle.feature_tree.specs.FeatureModel.{FeatureModel};
    ghost use Rattle.feature_tree.specs.WellFormed.{IsWellFormed};

    ghost Value = { FeatureModel };

    ghost use Rattle.feature_tree.specs.contracts.formula.Formula as formula;
    ghost use Rattle.std.specs.Coded.{codes};

    ghost coded = { Prim.hlevel (codes, formula.the_row.coded) };

    ghost view = { λ model. record { features = model.features; constraints = model.constraints } };

    ghost invariant = { λ model. IsWellFormed model.features model.constraints };

    ghost inverse = { λ value. record { features = value.features; constraints = value.constraints } };
}

impl Model {
    /// Whether the set is a product of the model. `in_set` says for each feature whether it is in the set.
    pub fn is_product(&self, in_set: &[bool]) -> bool
        requires { length in_set.now ≡ length self.now.features }
        ensures product { IsTrue result ↔ IsProduct self.now in_set.now }
        ensures tested { result ≡ is_product self.now in_set.now }
    {
        let features = self.features.as_slice();
        let has_root = in_set[0];
        has_root
            && members_are_settled(features, in_set)
            && all_hold(self.constraints.as_slice(), in_set)
    }
}
