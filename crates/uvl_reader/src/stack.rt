//! The lines that may still get children.
ghost use Rattle.std.specs.Prelude.{◌≡◌, [], ◌∷◌, length, OnOk, OnErr, reverse, take};
ghost use Rattle.uvl_reader.specs.inside.Standing.{still_open, meets, nearest_of};

use crate::kind::LineKind;
use std::alloc::{AllocError, Global};

/// An open line: its indent and what it is.
#[derive(Clone, Copy)]
pub(crate) struct Open {
    pub(crate) indent: u32,
    pub(crate) kind: LineKind,
    /// Of a feature its number, of a group that of its parent; else 0.
    pub(crate) feature: u32,
}

/// The open lines. Contracts see them with the nearest first.
#[derive(Drop)]
pub(crate) struct Stack {
    lines: Vec<Open>,
}

impl std::marker::Model for Stack {
    ghost use Rattle.std.specs.Prelude.{List, reverse};
    ghost use Rattle.uvl_reader.specs.declared.stack.Open.{Open as One};

    ghost Value = { List One };

    ghost view = { λ stack. reverse stack.lines.items };
}

impl Stack {
    pub(crate) fn new(alloc: Global) -> Stack
        ensures { result ≡ [] }
    {
        Stack {
            lines: Vec::new(alloc),
        }
    }

    pub(crate) fn len(&self) -> usize
        ensures { result ≡ length self.now }
    {
        self.lines.len()
    }

    /// The nearest line.
    pub(crate) fn nearest(&self) -> Option<Open>
        ensures { result ≡ nearest_of self.now }
    {
        self.lines.last().copied()
    }

    /// One line more, the nearest.
    pub(crate) fn push(&mut self, line: Open) -> Result<(), AllocError>
        ensures ok { OnOk result (self.new ≡ line ∷ self.old) }
        ensures err { OnErr result (self.new ≡ self.old) }
    {
        self.lines.push(line)?;
        Ok(())
    }

    /// Closes the lines that are indented at least so far, and answers whether one of them is indented just so far.
    pub(crate) fn close(&mut self, indent: u32) -> bool
        ensures left { self.new ≡ still_open indent self.old }
        ensures met { result ≡ meets indent self.old }
    {
        let (count, met) = still_open(self.lines.as_slice(), indent);
        self.lines.truncate(count);
        met
    }
}

/// How many lines stay open, the nearest of which is the last, and whether one of the others is indented just so far.
fn still_open(lines: &[Open], indent: u32) -> (usize, bool)
    ensures left { reverse (take result.0 lines.now) ≡ still_open indent (reverse lines.now) }
    ensures met { result.1 ≡ meets indent (reverse lines.now) }
{
    let mut count = lines.len();
    let mut met = false;
    while 0 < count && indent <= lines[count - 1].indent {
        count -= 1;
        met = met || lines[count].indent == indent;
    }
    (count, met)
}
