//! A tree of features that grows.
ghost use Rattle.std.specs.Prelude.{◌≡◌, [], ◌∷◌, ◌++◌, ◌<◌, ◌≤◌, length, All, Some, OnOk, OnErr, IfOk};
ghost use Rattle.feature_tree.specs.Growing.{changed_at, changed_last, new_feature, with_one_more, with_last_group, with_root, with_group, with_child, IsNewName};
ghost use Rattle.feature_tree.specs.Names.{NamesBelow};
ghost use Rattle.feature_tree.specs.WellFormed.{feature_names, groups_of, HasBounds};

use crate::feature::{Feature, Features};
use crate::formula::Formulas;
use crate::group::{Group, GroupKind, Groups};
use crate::model::Model;
use crate::text::Text;
use lists::Row;
use std::alloc::{AllocError, Global};

/// The features of a model while it is read: a root to which children come one by one, each with the next number.
/// After want of memory the tree is as it was.
#[derive(Debug, Drop)]
pub struct Tree {
    features: Features,
}

impl std::marker::Model for Tree {
    ghost use Rattle.std.specs.Prelude.{List};
    ghost use Rattle.feature_tree.specs.declared.feature.Feature.{Feature as One};
    ghost use Rattle.feature_tree.specs.WellFormed.{IsTree};

    ghost Value = { List One };

    ghost view = { λ tree. tree.features };

    ghost invariant = { λ tree. IsTree tree.features };
}

impl Tree {
    /// The tree of a root alone.
    pub fn new(alloc: Global, name: Text) -> Result<Tree, AllocError>
        ensures { IfOk result (λ tree. tree ≡ with_root name) }
    {
        let mut features = Row::new(alloc);
        features.push(Feature {
            name,
            parent: None,
            groups: Row::new(alloc),
        })?;
        Ok(Tree { features })
    }

    /// How many features there are, which is the number of the next one.
    pub fn len(&self) -> usize
        ensures value { result ≡ length self.now }
        ensures few { result ≤ 65535 }
    {
        self.features.len()
    }

    /// The features, by number.
    pub fn as_slice(&self) -> &[Feature]
        ensures { result.now ≡ self.now }
    {
        self.features.as_slice()
    }

    /// Adds a feature as the first child in a new group of `parent`, and answers its number.
    pub fn add_group(
        &mut self,
        alloc: Global,
        parent: u32,
        kind: GroupKind,
        low: u32,
        high: Option<u32>,
        name: Text,
    ) -> Result<u32, AllocError>
        requires parent { parent < length self.old }
        requires room { length self.old < 65535 }
        requires bounds { HasBounds kind low high }
        requires new { IsNewName self.old name }
        ensures ok { OnOk result (self.new ≡ with_group self.old parent kind low high name) }
        ensures names { OnOk result (feature_names self.new ≡ feature_names self.old ++ name ∷ []) }
        ensures number { IfOk result (λ child. child ≡ length self.old) }
        ensures err { OnErr result (self.new ≡ self.old) }
    {
        let child = self.features.len() as u32;
        let mut children = Row::new(alloc);
        children.push(child)?;
        let group = Group {
            kind,
            low,
            high,
            children,
        };
        push_group(&mut self.features, alloc, parent, group, name)
    }

    /// Adds a feature as the last child in the last group of `parent`, and answers its number.
    pub fn add_child(&mut self, alloc: Global, parent: u32, name: Text) -> Result<u32, AllocError>
        requires group { 0 < length (groups_of self.old parent) }
        requires room { length self.old < 65535 }
        requires new { IsNewName self.old name }
        ensures ok { OnOk result (self.new ≡ with_child self.old parent name) }
        ensures names { OnOk result (feature_names self.new ≡ feature_names self.old ++ name ∷ []) }
        ensures number { IfOk result (λ child. child ≡ length self.old) }
        ensures err { OnErr result (self.new ≡ self.old) }
    {
        push_child(&mut self.features, alloc, parent, name)
    }

    /// The model of these features, with these constraints.
    pub fn into_model(self, constraints: Formulas) -> Model
        requires { All (NamesBelow (length self)) constraints }
        ensures { result ≡ record { features = self; constraints = constraints } }
    {
        let Tree { features } = self;
        Model {
            features,
            constraints,
        }
    }
}

/// One more child in the last group.
fn push_last(groups: &mut Groups, child: u32) -> Result<(), AllocError>
    requires { 0 < length groups.old }
    ensures ok { OnOk result (groups.new ≡ changed_last (with_one_more child) groups.old) }
    ensures err { OnErr result (groups.new ≡ groups.old) }
{
    let last = groups.len() - 1;
    let group = groups.get_mut(last);
    group.children.push(child)?;
    Ok(())
}

/// One more feature, which is in no group yet.
fn push_feature(
    features: &mut Features,
    alloc: Global,
    parent: u32,
    name: Text,
) -> Result<(), AllocError>
    ensures ok { OnOk result (features.new ≡ features.old ++ new_feature name (Some parent) ∷ []) }
    ensures err { OnErr result (features.new ≡ features.old) }
{
    features.push(Feature {
        name,
        parent: Some(parent),
        groups: Row::new(alloc),
    })
}

/// One more feature, in the last group of its parent.
fn push_child(
    features: &mut Features,
    alloc: Global,
    parent: u32,
    name: Text,
) -> Result<u32, AllocError>
    requires group { 0 < length (groups_of features.old parent) }
    requires room { length features.old < 65535 }
    ensures ok { OnOk result (features.new ≡ with_child features.old parent name) }
    ensures number { IfOk result (λ child. child ≡ length features.old) }
    ensures err { OnErr result (features.new ≡ features.old) }
{
    let count = features.len();
    push_feature(features, alloc, parent, name)?;
    let feature = features.get_mut(parent as usize);
    if let Err(error) = push_last(&mut feature.groups, count as u32) {
        features.truncate(count);
        return Err(error);
    }
    Ok(count as u32)
}

/// One more feature, in a new group of its parent.
fn push_group(
    features: &mut Features,
    alloc: Global,
    parent: u32,
    group: Group,
    name: Text,
) -> Result<u32, AllocError>
    requires parent { parent < length features.old }
    requires room { length features.old < 65535 }
    ensures ok { OnOk result (features.new ≡ changed_at (with_last_group group) features.old parent ++ new_feature name (Some parent) ∷ []) }
    ensures number { IfOk result (λ child. child ≡ length features.old) }
    ensures err { OnErr result (features.new ≡ features.old) }
{
    let count = features.len();
    push_feature(features, alloc, parent, name)?;
    let feature = features.get_mut(parent as usize);
    if let Err(error) = feature.groups.push(group) {
        features.truncate(count);
        return Err(error);
    }
    Ok(count as u32)
}
