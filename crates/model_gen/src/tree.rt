//! The tree of the features, written from the root down.
ghost use Rattle.std.specs.Prelude.{◌≡◌, ◌++◌, ◌+◌, ◌*◌, ◌<◌, ◌≤◌, ℕ, List, OnOk, length, All, reverse, map};
ghost use Rattle.model_gen.specs.Lines.{children};
ghost use Rattle.model_gen.specs.Texts.{feature_lines, tree};
ghost use Rattle.model_gen.specs.inside.Nodes.{IsNode, trees, nodes_of};

use crate::lines::{push_feature, push_group};
use diag_base::Bytes;
use feature_tree::GroupKind;
use std::alloc::{AllocError, Global};

/// A feature whose lines are still to be written, and its depth, the root having 0.
#[derive(Clone, Copy)]
pub(crate) struct Node {
    pub feature: u32,
    pub depth: u32,
}

/// How many children a feature has.
fn child_count(size: u32, feature: u32) -> u32
    requires { feature ≤ 60000 }
    ensures { result ≡ length (children size feature) }
{
    size.saturating_sub(4 * feature).min(4)
}

/// The line of a feature, and that of its group, if there is a kind for it.
fn push_node(
    alloc: Global,
    text: &mut Bytes,
    size: u32,
    kinds: &[GroupKind],
    node: Node,
) -> Result<(), AllocError>
    requires node { IsNode size node }
    requires few { size ≤ 60000 }
    ensures { OnOk result (text.new ≡ text.old ++ feature_lines kinds.now size node.depth node.feature) }
{
    push_feature(alloc, text, 2 * node.depth + 1, node.feature)?;
    match kinds.get(node.feature as usize) {
        Some(kind) => {
            let count = child_count(size, node.feature);
            push_group(alloc, text, 2 * node.depth + 2, *kind, count)
        }
        None => Ok(()),
    }
}

/// Puts the children of a feature on the stack, the first on top.
fn push_children(waiting: &mut Vec<Node>, size: u32, node: Node) -> Result<(), AllocError>
    requires node { IsNode size node }
    requires few { size ≤ 60000 }
    ensures { OnOk result (waiting.new.items ≡ waiting.old.items ++ reverse (nodes_of size node)) }
{
    let count = child_count(size, node.feature);
    for i in 0..count {
        waiting.push(Node {
            feature: 4 * node.feature + (count - i),
            depth: node.depth + 1,
        })?;
    }
    Ok(())
}

/// The lines of the whole tree.
pub(crate) fn push_tree(
    alloc: Global,
    text: &mut Bytes,
    size: u32,
    kinds: &[GroupKind],
) -> Result<(), AllocError>
    requires few { size ≤ 60000 }
    ensures { OnOk result (text.new ≡ text.old ++ tree kinds.now size 0 0) }
{
    let mut waiting = Vec::new(alloc);
    waiting.push(Node {
        feature: 0,
        depth: 0,
    })?;
    'nodes: while let Some(node) = waiting.pop() {
        push_node(alloc, text, size, kinds, node)?;
        push_children(&mut waiting, size, node)?;
    }
    Ok(())
}
