//! The list that every layer keeps its items in.
ghost use Rattle.std.specs.Prelude.{◌≡◌, [], ◌∷◌, ◌++◌, ◌<◌, ◌==◌, length, take, slice_get, slice_set, OnOk, OnErr, IfOk, Some};
ghost use Rattle.std.specs.Borrow.{sem, Lends};
ghost use Rattle.std.specs.Cmp.Lexicographic.{pointwise};
ghost use Rattle.std.specs.Cmp.Rules.{comparing};
ghost use Rattle.std.specs.Hash.{items_Alike};
ghost use Rattle.std.specs.Hash as fed;
ghost use Rattle.std.proofs.Common.{rules};

use std::alloc::{AllocError, Global};
use std::hash::{Hash, Hasher};
use std::marker::Model;

/// A list over one `Vec`. Two are equal where their items are, and then hash alike.
///
/// A type may reach itself through it: an enum with a variant that holds a `Row` of the enum.
#[derive(Debug, Drop)]
pub struct Row<T> {
    items: Vec<T>,
}

impl<T> Model for Row<T> {
    ghost use Rattle.std.specs.Prelude.{List};
    ghost use Rattle.std.specs.Coded.{coded_list};

    ghost Value = { List T };

    ghost coded = { coded_list T.code };

    ghost view = { λ row. row.items.items };
}

impl<T> Row<T> {
    ghost use Rattle.lists.specs.contracts.row.Row.{the_row};

    /// The empty list, which takes no memory.
    pub fn new(alloc: Global) -> Row<T>
        ensures { result ≡ [] }
    {
        Row {
            items: Vec::new(alloc),
        }
    }

    /// The list of the vector's items.
    pub fn from_vec(items: Vec<T>) -> Row<T>
        ensures { result ≡ items.items }
    {
        Row { items }
    }

    pub fn as_slice(&self) -> &[T]
        ensures { result.now ≡ self.now }
    {
        self.items.as_slice()
    }

    pub fn len(&self) -> usize
        ensures { result ≡ length self.now }
    {
        self.items.len()
    }

    pub fn is_empty(&self) -> bool
        ensures { result ≡ (length self.now == 0) }
    {
        self.items.is_empty()
    }

    pub fn get(&self, i: usize) -> &T
        requires { i < length self.now }
        ensures { slice_get self.now i ≡ Some result.now }
    {
        &self.items[i]
    }

    pub fn get_mut(&mut self, i: usize) -> &mut T
        requires { i < length self.old }
        ensures* writes_back { sem 𝓛 (Lends (the_row T.row) T.row self.entry result (slice_set self.old i)) }
        ensures value { slice_get self.old i ≡ Some result.now }
    {
        &mut self.items[i]
    }

    /// What the list takes its memory from.
    pub fn allocator(&self) -> Global {
        *self.items.allocator()
    }
}

impl<T: Copy> Row<T> {
    /// A copy of the slice.
    pub fn from_slice(alloc: Global, items: &[T]) -> Result<Row<T>, AllocError>
        ensures { IfOk result (λ row. row ≡ items.now) }
    {
        let items = Vec::from_slice(alloc, items)?;
        Ok(Row { items })
    }

    /// Appends a slice whole, or nothing.
    pub fn extend_from_slice(&mut self, more: &[T]) -> Result<(), AllocError>
        ensures ok { OnOk result (self.new ≡ self.old ++ more.now) }
        ensures err { OnErr result (self.new ≡ self.old) }
    {
        self.items.extend_from_slice(more)
    }
}

impl<T: Drop> Row<T> {
    pub fn push(&mut self, item: T) -> Result<(), AllocError>
        ensures ok { OnOk result (self.new ≡ self.old ++ item ∷ []) }
        ensures err { OnErr result (self.new ≡ self.old) }
    {
        self.items.push(item)?;
        Ok(())
    }

    /// Keeps the first items, at most so many.
    pub fn truncate(&mut self, len: usize)
        ensures { self.new ≡ take len self.old }
    {
        self.items.truncate(len);
    }
}

impl<T: PartialEq> PartialEq for Row<T> {
    ghost eq = { pointwise T.eq };

    ghost laws = { Prim.search (comparing, rules) };

    fn eq(&self, other: &Row<T>) -> bool {
        self.items == other.items
    }
}

impl<T: Eq> Eq for Row<T> {
    ghost laws = { Prim.search (comparing, rules) };
}

impl<T: Hash> Hash for Row<T> {
    ghost hash_input = { λ row. fed.slice T.hash_input row };

    ghost respects_eq = { (items_Alike (record { fed = T.respects_eq })).fed };

    fn hash<H: Hasher>(&self, state: &mut H) {
        self.items.hash(state);
    }
}

/// A list of numbers.
pub type Numbers = Row<u32>;
