//! Groups of features.
ghost use Rattle.std.specs.Prelude.{◌≡◌, ◌<◌, nat_le, true, length, All};
ghost use Rattle.std.specs.List.{list_all};
ghost use Rattle.std.specs.Option.{option_map_or};
ghost use Rattle.feature_tree.specs.Product.{allows as allows_count, count_in as count_of};
ghost use Rattle.feature_tree.specs.Decided.{is_met as meets};
ghost use Rattle.feature_tree.specs.inside.Within.{ChildrenBelow};

use lists::{Numbers, Row};

/// How many of a group's children a product that holds the parent holds.
#[derive(Clone, Copy, PartialEq, Eq, Debug)]
pub enum GroupKind {
    /// All of them.
    Mandatory,
    /// Any number.
    Optional,
    /// At least one.
    Or,
    /// Exactly one.
    Alternative,
    /// As many as the group's `low` and `high` say.
    Range,
}

/// Children of one feature.
#[derive(Debug, Drop)]
pub struct Group {
    pub kind: GroupKind,
    /// The least number of children in a `Range`; else 0.
    pub low: u32,
    /// The greatest number of children in a `Range`, or none; else none.
    pub high: Option<u32>,
    /// The children's numbers.
    pub children: Numbers,
}

/// The groups of one feature, in order.
pub type Groups = Row<Group>;

impl Group {
    /// Whether so many of its children may be there.
    fn allows(&self, count: usize) -> bool
        ensures { result ≡ allows_count self.now.kind self.now.low self.now.high (length self.now.children) count }
    {
        match self.kind {
            GroupKind::Mandatory => count == self.children.len(),
            GroupKind::Optional => true,
            GroupKind::Or => 1 <= count,
            GroupKind::Alternative => count == 1,
            GroupKind::Range => self.low as usize <= count && is_at_most(count, self.high),
        }
    }

    /// Whether a product that holds the group's parent may hold just those of its children that are in the set.
    pub(crate) fn is_met(&self, in_set: &[bool]) -> bool
        requires { ChildrenBelow (length in_set.now) self.now }
        ensures { result ≡ meets in_set.now self.now }
    {
        self.allows(count_in(self.children.as_slice(), in_set))
    }
}

/// Whether the count is no higher than the bound, if there is one.
fn is_at_most(count: usize, high: Option<u32>) -> bool
    ensures { result ≡ option_map_or (λ most. nat_le count most) high true }
{
    match high {
        Some(most) => count <= most as usize,
        None => true,
    }
}

/// How many of the children are in the set.
fn count_in(children: &[u32], in_set: &[bool]) -> usize
    requires { All (λ child. child < length in_set.now) children.now }
    ensures { result ≡ count_of in_set.now children.now }
{
    let mut count = 0;
    for child in children {
        if in_set[*child as usize] {
            count += 1;
        }
    }
    count
}

/// Whether each group is met.
pub(crate) fn are_met(groups: &[Group], in_set: &[bool]) -> bool
    requires { All (ChildrenBelow (length in_set.now)) groups.now }
    ensures { result ≡ list_all (meets in_set.now) groups.now }
{
    for group in groups {
        if !group.is_met(in_set) {
            return false;
        }
    }
    true
}
