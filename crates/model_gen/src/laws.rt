//! What the generated model is.
ghost use Rattle.std.specs.Prelude.{◌≡◌, ◌≤◌, ◌<◌, ◌+◌, ◌-◌, ◌++◌, ℕ, List, suc, Some, Contains, slice_get};
ghost use Rattle.std.specs.List.{flat_map};
ghost use Rattle.feature_tree.specs.declared.group.GroupKind.{GroupKind};
ghost use Rattle.feature_tree.specs.Product.{IsProduct};
ghost use Rattle.model_gen.specs.Lines.{children};
ghost use Rattle.model_gen.specs.Texts.{feature_lines, tree, tree_within};
ghost use Rattle.model_gen.specs.Whole.{model_of, all_features, appearing, number_of};

/// The set of all features is a product of every generated model.
pub fn all_features_are_a_product()
    ensures { (seed size : ℕ) → 1 ≤ size → IsProduct (model_of seed size) (all_features size) }
{}

/// The count that bounds the depth of the tree is enough: a greater one changes nothing, and so the tree of a feature is
/// its lines and the trees of its children.
pub fn children_are_enough()
    ensures enough { (count : ℕ) (kinds : List GroupKind) (size depth feature : ℕ) → feature ≤ size → size - feature < count → tree_within count kinds size depth feature ≡ tree kinds size depth feature }
    ensures children { (kinds : List GroupKind) (size depth feature : ℕ) → feature ≤ size → tree kinds size depth feature ≡ feature_lines kinds size depth feature ++ flat_map (tree kinds size (depth + 1)) (children size feature) }
{}

/// The features that appear are 0 to `size`, and a feature's number is a place at which it appears.
pub fn features_appear()
    ensures only { (size feature : ℕ) → Contains (appearing size) feature → feature ≤ size }
    ensures number { (size feature : ℕ) → feature ≤ size → slice_get (appearing size) (number_of size feature) ≡ Some feature }
{}
