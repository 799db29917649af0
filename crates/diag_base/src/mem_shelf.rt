//! A shelf in memory.
ghost use Rattle.std.specs.Prelude.{◌≡◌, ◌≢◌, ◌==◌, ℕ, ◌+◌, ◌<◌, ◌≤◌, ◌^◌, ◌++◌, ◌↔◌, [], ◌∷◌, None, Some, IfSome, OnOk, OnErr, IsErrOf, min, cond, List, ◌⊎◌, Err};
ghost use Rattle.diag_base.specs.Faults.{Rises, LAST};
ghost use Rattle.diag_base.specs.Shelf.{IsShort, Tells, Loses, Counts};
ghost use Rattle.std.specs.Str.{bytes_eq};

use crate::{Bytes, FetchError, Fetched, Shelf};
use std::alloc::{AllocError, Global};
use std::collections::BTreeMap;

/// A shelf in memory, which fails at the fetches that it was told to fail at, and at a name that isn't there.
#[derive(Drop)]
pub struct MemShelf {
    files: BTreeMap<String, Bytes>,
    failing: Vec<u64>,
    calls: u64,
    faults: u64,
    lost: Option<String>,
}

impl MemShelf {
    ghost use Rattle.diag_base.specs.MemShelf.{files_of, failing_of, calls_of, faults_of, lost_of, KeepsPlan};

    /// A shelf without files that is told to fail nowhere.
    pub fn new(alloc: Global) -> MemShelf
        ensures files { (name : List ℕ) → files_of result name ≡ None }
        ensures failing { failing_of result ≡ [] }
        ensures calls { calls_of result ≡ 0 }
        ensures faults { faults_of result ≡ 0 }
        ensures lost { lost_of result ≡ None }
    {
        MemShelf {
            files: BTreeMap::new(alloc),
            failing: Vec::new(alloc),
            calls: 0,
            faults: 0,
            lost: None,
        }
    }

    /// Sets the bytes under a name, in place of what was there.
    pub fn set(&mut self, alloc: Global, name: &str, bytes: &[u8]) -> Result<(), AllocError>
        ensures ok { OnOk result ((other : List ℕ) → files_of self.new other ≡ cond (bytes_eq other name.now) (Some bytes.now) (files_of self.old other)) }
        ensures err { OnErr result ((other : List ℕ) → files_of self.new other ≡ files_of self.old other) }
        ensures plan { KeepsPlan self.old self.new }
    {
        let name = String::from_str(alloc, name)?;
        let bytes = Bytes::from_slice(alloc, bytes)?;
        self.files.insert(name, bytes)?;
        Ok(())
    }

    /// Lets the fetch with this number fail, counted from 0.
    pub fn fail_on(&mut self, call: u64) -> Result<(), AllocError>
        ensures ok { OnOk result (failing_of self.new ≡ failing_of self.old ++ call ∷ []) }
        ensures err { OnErr result (failing_of self.new ≡ failing_of self.old) }
        ensures files { (name : List ℕ) → files_of self.new name ≡ files_of self.old name }
        ensures calls { calls_of self.new ≡ calls_of self.old }
        ensures faults { faults_of self.new ≡ faults_of self.old }
        ensures lost { lost_of self.new ≡ lost_of self.old }
    {
        self.failing.push(call)?;
        Ok(())
    }

    /// Counts a failed fetch and keeps its name.
    fn lose(&mut self, alloc: Global, name: &str) -> FetchError
        ensures error { (result ≡ FetchError.Failed) ⊎ (result ≡ FetchError.Memory) }
        ensures lost { result ≡ FetchError.Failed → lost_of self.new ≡ Some name.now }
        ensures kept { result ≡ FetchError.Memory → lost_of self.new ≡ lost_of self.old }
        ensures faults { result ≡ FetchError.Failed → faults_of self.new ≡ min (faults_of self.old + 1) LAST }
        ensures faults_kept { result ≡ FetchError.Memory → faults_of self.new ≡ faults_of self.old }
        ensures faults_grow { faults_of self.old ≤ faults_of self.new }
        ensures files { self.new.files ≡ self.old.files }
        ensures failing { failing_of self.new ≡ failing_of self.old }
        ensures calls { calls_of self.new ≡ calls_of self.old }
    {
        match String::from_str(alloc, name) {
            Ok(copy) => {
                self.lost = Some(copy);
                self.faults = self.faults.saturating_add(1);
                FetchError::Failed
            }
            Err(_) => FetchError::Memory,
        }
    }
}

impl Shelf for MemShelf {
    ghost use Rattle.std.specs.Prelude.{Some};
    ghost use Rattle.diag_base.specs.MemShelf.{files_of, failing_of, calls_of, faults_of, lost_of, MustFail};

    ghost files = { λ shelf. Some (files_of shelf) };

    ghost lost = { lost_of };

    ghost faults = { faults_of };

    fn fetch(&mut self, alloc: Global, name: &str, most: usize) -> Result<Fetched, FetchError>
        requires { most < 2 ^ 31 }
        ensures short { IsShort most result }
        ensures told { IfSome (Some (files_of self.old)) (λ told. Tells told name.now most result) }
        ensures lost { IfSome (Some (files_of self.old)) (λ told. Loses name.now (lost_of self.old) (lost_of self.new) result) }
        ensures failed { IsErrOf result FetchError.Failed → Rises (faults_of self.old) (faults_of self.new) }
        ensures never_falls { faults_of self.old ≤ faults_of self.new }
        ensures same { Some (files_of self.new) ≡ Some (files_of self.old) }

        // It fails exactly where it was told to, and at a name that isn't there, and counts each failure once.
        ensures counts { Counts (faults_of self.old) (faults_of self.new) result }
        ensures fails { result ≢ Err FetchError.Memory → IsErrOf result FetchError.Failed ↔ MustFail self.old name.now }
        ensures calls { calls_of self.new ≡ min (calls_of self.old + 1) LAST }
        ensures failing { failing_of self.new ≡ failing_of self.old }
    {
        let planned = self.failing.contains(&self.calls);
        self.calls = self.calls.saturating_add(1);
        if planned {
            return Err(self.lose(alloc, name));
        }
        match self.files.get(name) {
            None => Err(self.lose(alloc, name)),
            Some(bytes) if most < bytes.len() => Ok(Fetched::Longer),
            Some(bytes) => Ok(Fetched::Whole(Bytes::from_slice(alloc, bytes.as_slice())?)),
        }
    }
}
