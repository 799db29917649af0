//! Where files are fetched from.
ghost use Rattle.std.specs.Prelude.{◌≡◌, ℕ, ◌<◌, ◌≤◌, ◌^◌, List, Option, IfSome, IsErrOf};
ghost use Rattle.diag_base.specs.declared.shelf.FetchError.TheVariants.{Memory};
ghost use Rattle.diag_base.specs.Faults.{Rises};
ghost use Rattle.diag_base.specs.Shelf.{Files, IsShort, Tells, Loses};

use crate::Bytes;
use std::alloc::{AllocError, AllocFailed, Global};

/// A file, as far as it was asked for.
#[derive(Debug, Drop)]
pub enum Fetched {
    /// All its bytes.
    Whole(Bytes),
    /// It has more bytes than were asked for.
    Longer,
}

/// Why a file was not fetched.
#[derive(Clone, Copy, Debug, PartialEq, Eq)]
pub enum FetchError {
    /// The shelf failed: the name isn't there, or the file could not be read.
    Failed,
    /// There was no memory for the bytes or for the name.
    Memory,
}

impl From<AllocError> for FetchError {
    ghost from_gives = { λ _ e. e ≡ Memory };

    fn from(_: AllocError) -> FetchError {
        FetchError::Memory
    }
}

impl<T: Drop> From<AllocFailed<T>> for FetchError {
    ghost from_gives = { λ _ e. e ≡ Memory };

    fn from(_: AllocFailed<T>) -> FetchError {
        FetchError::Memory
    }
}

/// Where files are fetched from. A shelf in memory tells what it has; one over real files tells nothing, and
/// then only the count of faults is known.
pub trait Shelf {
    /// The files, where the shelf tells them.
    ghost files: { Self → Option Files };

    /// The name of the last fetch that failed, where the shelf tells its files: none at first.
    ghost lost: { Self → Option (List ℕ) };

    /// How often the shelf has failed, up to the last number of 64 bits.
    ghost faults: { Self → ℕ };

    /// Fetches the file with this name, if it has at most `most` bytes.
    fn fetch(&mut self, alloc: Global, name: &str, most: usize) -> Result<Fetched, FetchError>
        requires { most < 2 ^ 31 }
        ensures short { IsShort most result }
        ensures told { IfSome (files self.old) (λ told. Tells told name.now most result) }
        ensures lost { IfSome (files self.old) (λ told. Loses name.now (lost self.old) (lost self.new) result) }
        ensures failed { IsErrOf result FetchError.Failed → Rises (faults self.old) (faults self.new) }
        ensures never_falls { faults self.old ≤ faults self.new }
        ensures same { files self.new ≡ files self.old };
}
