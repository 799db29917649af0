//! Features.
ghost use Rattle.std.specs.Prelude.{◌≡◌, IsTrue, ◌↔◌, length, All};
ghost use Rattle.feature_tree.specs.Product.{EachMember};
ghost use Rattle.feature_tree.specs.Decided.{is_settled as settled};
ghost use Rattle.feature_tree.specs.inside.Within.{IsWithin};

use crate::group::{Groups, are_met};
use crate::text::Text;
use lists::Row;

/// A feature, whose number is its place in the list of features.
#[derive(Debug, Drop)]
pub struct Feature {
    pub name: Text,
    /// The parent's number; none for the root alone.
    pub parent: Option<u32>,
    pub groups: Groups,
}

/// The features of a model, by number.
pub type Features = Row<Feature>;

impl Feature {
    /// Whether a product may hold this feature beside the others of the set.
    fn is_settled(&self, in_set: &[bool]) -> bool
        requires { IsWithin (length in_set.now) self.now }
        ensures { result ≡ settled in_set.now self.now }
    {
        let has_parent = match self.parent {
            Some(parent) => in_set[parent as usize],
            None => true,
        };
        has_parent && are_met(self.groups.as_slice(), in_set)
    }
}

/// Whether each feature of the set finds its parent there, and its groups met.
pub(crate) fn members_are_settled(features: &[Feature], in_set: &[bool]) -> bool
    requires sized { length in_set.now ≡ length features.now }
    requires within { All (IsWithin (length in_set.now)) features.now }
    ensures { IsTrue result ↔ EachMember features.now in_set.now (λ feature. IsTrue (settled in_set.now feature)) }
{
    for (i, feature) in features.iter().enumerate() {
        if in_set[i] && !feature.is_settled(in_set) {
            return false;
        }
    }
    true
}
