//! What a job is about, and how it ends.
ghost use Rattle.std.specs.Prelude.{◌≡◌, IfOk};

use req_keys::{Key, Keys};
use std::alloc::{AllocError, Global};

/// What is asked: about how many requirements, and whether the minimal diagnoses are listed, up to which size. Both numbers
/// are at most 4,096.
#[derive(Clone, Copy)]
pub struct JobPlan {
    pub requirements: u32,
    pub list: Option<u32>,
}

/// The parts of a job, in the order in which they run.
#[derive(Clone, Copy, Debug, PartialEq, Eq)]
pub enum Part {
    /// Whether all requirements can be met together.
    All,
    /// Whether there is a product at all.
    Background,
    /// The requirements that are kept, by FastDiag.
    Kept,
    /// The preferred conflict, by QuickXplain.
    Conflict,
    /// The minimal diagnoses, by the tree of hitting sets.
    Listing,
}

/// What the finished parts found.
#[derive(Drop)]
pub struct Parts {
    pub kept: Option<Key>,
    pub conflict: Option<Key>,
    pub listing: Option<Keys>,
}

/// How a job ends.
#[derive(Drop)]
pub enum Outcome {
    /// All requirements can be met together.
    Consistent,
    /// There is no product.
    Background,
    /// Neither: the kept set and the conflict are there, and the listing where it is asked for.
    Explained(Parts),
    /// The search for a key that a part asked spent its allowance; these parts were finished before.
    LimitAt { part: Part, key: Key, before: Parts },
}

/// Equal keys.
pub(crate) fn copy_keys(alloc: Global, keys: &Keys) -> Result<Keys, AllocError>
    ensures { IfOk result (λ copies. copies ≡ keys.now) }
{
    let mut copies = Keys::new(alloc);
    for key in keys.as_slice() {
        copies.push(key.copy()?)?;
    }
    Ok(copies)
}

/// An equal key, where there is one.
fn copy_key(key: &Option<Key>) -> Result<Option<Key>, AllocError>
    ensures { IfOk result (λ copy. copy ≡ key.now) }
{
    match key {
        None => Ok(None),
        Some(key) => Ok(Some(key.copy()?)),
    }
}

impl Parts {
    /// The same parts.
    pub(crate) fn copy(&self, alloc: Global) -> Result<Parts, AllocError>
        ensures { IfOk result (λ parts. parts ≡ self.now) }
    {
        let kept = copy_key(&self.kept)?;
        let conflict = copy_key(&self.conflict)?;
        match &self.listing {
            None => Ok(Parts {
                kept,
                conflict,
                listing: None,
            }),
            Some(keys) => {
                let listing = Some(copy_keys(alloc, keys)?);
                Ok(Parts {
                    kept,
                    conflict,
                    listing,
                })
            }
        }
    }
}

impl Outcome {
    /// The same outcome.
    pub(crate) fn copy(&self, alloc: Global) -> Result<Outcome, AllocError>
        ensures { IfOk result (λ outcome. outcome ≡ self.now) }
    {
        match self {
            Outcome::Consistent => Ok(Outcome::Consistent),
            Outcome::Background => Ok(Outcome::Background),
            Outcome::Explained(parts) => Ok(Outcome::Explained(parts.copy(alloc)?)),
            Outcome::LimitAt { part, key, before } => Ok(Outcome::LimitAt {
                part: *part,
                key: key.copy()?,
                before: before.copy(alloc)?,
            }),
        }
    }
}
