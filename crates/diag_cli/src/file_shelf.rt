//! A shelf over the files of the system.
ghost use Rattle.std.specs.Prelude.{◌≤◌, ◌<◌, ◌^◌, length, IfOk, IsErrOf};
ghost use Rattle.diag_base.specs.Faults.{Rises};
ghost use Rattle.diag_base.specs.Shelf.{Counts, IsShort};

use diag_base::{Bytes, FetchError, Fetched, Shelf};
use std::alloc::{AllocError, Global};
use std::fs;
use std::io::{self, Read};
use std::rt::Files;

/// The files of the system. It tells no bytes; only its count of faults is known.
#[derive(Drop)]
pub struct FileShelf<R: Files> {
    files: R,
    faults: u64,
}

impl<R: Files> FileShelf<R> {
    pub fn new(files: R) -> FileShelf<R> {
        FileShelf { files, faults: 0 }
    }
}

impl<R: Files> Shelf for FileShelf<R> {
    ghost use Rattle.std.specs.Prelude.{None};

    ghost files = { λ _. None };

    ghost lost = { λ _. None };

    ghost faults = { λ shelf. shelf.faults };

    fn fetch(&mut self, alloc: Global, name: &str, most: usize) -> Result<Fetched, FetchError>
        requires { most < 2 ^ 31 }
        ensures short { IsShort most result }
        ensures failed { IsErrOf result FetchError.Failed → Rises self.old.faults self.new.faults }
        ensures never_falls { self.old.faults ≤ self.new.faults }

        // It counts each failure once.
        ensures counts { Counts self.old.faults self.new.faults result }
    {
        let fetched = match fs::open(&self.files, name) {
            Ok(file) => read_most(alloc, file, most),
            Err(error) => Err(fault_of(&error)),
        };
        if let Err(FetchError::Failed) = fetched {
            self.faults = self.faults.saturating_add(1);
        }
        fetched
    }
}

/// Reads all bytes, or one more than `most`. A read that was interrupted is made again.
fn read_most<F: Read + Drop>(alloc: Global, file: F, most: usize) -> Result<Fetched, FetchError>
    requires { most < 2 ^ 31 }
    ensures { IsShort most result }
{
    let mut bytes = Vec::new(alloc);
    match file.take(most as u64 + 1).read_to_end(&mut bytes) {
        Err(error) => Err(fault_of(&error)),
        Ok(_) if bytes.len() <= most => Ok(Fetched::Whole(Bytes::from_vec(bytes))),
        Ok(_) => Ok(Fetched::Longer),
    }
}

/// What an error of the system is to a fetch.
fn fault_of(error: &io::Error) -> FetchError {
    match error.kind() {
        io::ErrorKind::OutOfMemory => FetchError::Memory,
        _ => FetchError::Failed,
    }
}
