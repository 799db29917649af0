//! The told pairs.
ghost use Rattle.std.specs.Prelude.{◌≡◌, [], ◌∷◌, ◌++◌, length, ◌==◌, None, IfOk, OnOk, OnErr};
ghost use Rattle.std.specs.Arc.{arc_value};
ghost use Rattle.std.specs.Map.{lookup};
ghost use Rattle.req_keys.specs.Order.{key_eq};
ghost use Rattle.script.specs.Job.{verdict_in};

use indexmap::IndexMap;
use req_keys::{Key, Verdict};
use std::alloc::{AllocError, Global};
use std::marker::Model;
use std::sync::Arc;

/// The keys that were asked, each with its verdict, in the order in which they were told. Copies share what was told before
/// them.
#[derive(Drop)]
pub struct Used {
    /// What is shared with copies.
    base: Arc<IndexMap<Key, Verdict>>,
    /// What was told since, while the base was shared.
    more: Vec<(Key, Verdict)>,
}

impl Model for Used {
    ghost use Rattle.std.specs.Prelude.{List, ◌++◌};
    ghost use Rattle.std.specs.Arc.{arc_value};
    ghost use Rattle.req_keys.specs.Key.{PositionSet};
    ghost use Rattle.req_keys.specs.declared.verdict.Verdict.{Verdict as Answer};

    ghost Value = { List (PositionSet × Answer) };

    ghost view = { λ a. (arc_value a.base).entries ++ a.more.items };
}

/// What the pairs say of a key.
fn verdict_among(pairs: &[(Key, Verdict)], key: &Key) -> Option<Verdict>
    ensures { result ≡ lookup (key_eq key.now) pairs.now }
{
    for (other, verdict) in pairs {
        if key == other {
            return Some(*verdict);
        }
    }
    None
}

/// Equal pairs, with room for one more.
fn copy_pairs(alloc: Global, pairs: &[(Key, Verdict)]) -> Result<Vec<(Key, Verdict)>, AllocError>
    ensures { IfOk result (λ copies. copies.items ≡ pairs.now) }
{
    let mut copies = Vec::with_capacity(alloc, pairs.len().saturating_add(1))?;
    for (key, verdict) in pairs {
        copies.push((key.copy()?, *verdict))?;
    }
    Ok(copies)
}

impl Used {
    /// Nothing is told.
    pub(crate) fn new(alloc: Global) -> Result<Used, AllocError>
        ensures { IfOk result (λ used. used ≡ []) }
    {
        Ok(Used {
            base: Arc::new(alloc, IndexMap::new(alloc))?,
            more: Vec::new(alloc),
        })
    }

    /// How many pairs were told.
    pub fn len(&self) -> u64
        ensures { result ≡ length self.now }
    {
        (self.base.len() + self.more.len()) as u64
    }

    /// What the list is kept by.
    pub(crate) fn allocator(&self) -> Global {
        *self.more.allocator()
    }

    /// Whether nothing was told.
    pub fn is_empty(&self) -> bool
        ensures { result ≡ (length self.now == 0) }
    {
        self.len() == 0
    }

    /// The verdict that was told of the key.
    pub fn verdict_of(&self, key: &Key) -> Option<Verdict>
        ensures { result ≡ verdict_in self.now key.now }
    {
        match self.base.get(key) {
            Some(verdict) => Some(*verdict),
            None => verdict_among(&self.more, key),
        }
    }

    /// Appends a pair. After want of memory the list is as it was.
    pub(crate) fn tell(&mut self, key: Key, verdict: Verdict) -> Result<(), AllocError>
        requires new { verdict_in self.old key ≡ None }
        ensures ok { OnOk result (self.new ≡ self.old ++ (key, verdict) ∷ []) }
        ensures err { OnErr result (self.new ≡ self.old) }
    {
        if self.more.is_empty() {
            if let Some(base) = Arc::get_mut(&mut self.base) {
                base.insert(key, verdict)?;
                return Ok(());
            }
        }
        self.more.push((key, verdict))?;
        Ok(())
    }

    /// The same list. It copies only what was told while the base was shared.
    pub(crate) fn copy(&self) -> Result<Used, AllocError>
        ensures { IfOk result (λ used. used ≡ self.now) }
    {
        let more = copy_pairs(*self.more.allocator(), &self.more)?;
        Ok(Used {
            base: self.base.clone()?,
            more,
        })
    }
}
