//! Names with their numbers.
ghost use Rattle.std.specs.Prelude.{◌≡◌, ◌++◌, [], ◌∷◌, length, None, OnOk, OnErr};
ghost use Rattle.name_table.specs.Numbers.{number_of};

use crate::key::Key;
use crate::seed::Seed;
use indexmap::IndexMap;
use std::alloc::{AllocError, Global};
use std::marker::Model;

/// Names with their numbers. Contracts see the list of them.
#[derive(Drop)]
pub struct Names<'a> {
    numbers: IndexMap<Key<'a>, u32, Seed>,
}

impl<'a> Model for Names<'a> {
    ghost use Rattle.std.specs.Prelude.{List, ℕ, map};

    ghost Value = { List (List ℕ × ℕ) };

    ghost view = { λ names. map (λ e. (e.0.bytes.now, e.1)) names.numbers.entries };
}

impl<'a> Names<'a> {
    /// No names.
    pub fn new(alloc: Global, seed: Seed) -> Names<'a>
        ensures { result ≡ [] }
    {
        Names {
            numbers: IndexMap::with_hasher(alloc, seed),
        }
    }

    /// How many there are.
    pub fn len(&self) -> usize
        ensures { result ≡ length self.now }
    {
        self.numbers.len()
    }

    /// The number beside the name.
    pub fn get(&self, name: &[u8]) -> Option<u32>
        ensures { result ≡ number_of self.now name.now }
    {
        self.numbers.get(&Key::new(name)).copied()
    }

    /// One name more, with its number.
    pub fn insert(&mut self, name: &'a [u8], number: u32) -> Result<(), AllocError>
        requires { number_of self.old name.now ≡ None }
        ensures ok { OnOk result (self.new ≡ self.old ++ (name.now, number) ∷ []) }
        ensures err { OnErr result (self.new ≡ self.old) }
    {
        self.numbers.insert(Key::new(name), number)?;
        Ok(())
    }
}
