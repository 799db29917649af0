//! A sink in memory.
ghost use Rattle.std.specs.Prelude.{◌≡◌, ◌==◌, ℕ, ◌+◌, ◌<◌, ◌≤◌, ◌++◌, ◌↔◌, [], ◌∷◌, Some, IfOk, OnOk, OnErr, IsErr, min, take, length};
ghost use Rattle.std.specs.Vec.{vec_capacity};
ghost use Rattle.diag_base.specs.Faults.{Rises, LAST};
ghost use Rattle.diag_base.specs.Sink.{Gains, GainsPart, Counts};

use crate::{PutFailed, Sink};
use std::alloc::{AllocError, Global};

/// A sink in memory with a room that is reserved from the start. It fails at the puts that it was told to fail at,
/// and past its room.
#[derive(Drop)]
pub struct MemSink {
    written: Vec<u8>,
    room: usize,
    failing: Vec<(u64, usize)>,
    puts: u64,
    faults: u64,
    ghost reserved: { room ≤ vec_capacity written },
}

impl MemSink {
    ghost use Rattle.diag_base.specs.MemSink.{written_of, room_of, failing_of, puts_of, faults_of, stop_of, left_of};

    /// An empty sink with room for so many bytes.
    pub fn new(alloc: Global, room: usize) -> Result<MemSink, AllocError>
        ensures written { IfOk result (λ sink. written_of sink ≡ []) }
        ensures room { IfOk result (λ sink. room_of sink ≡ room) }
        ensures failing { IfOk result (λ sink. failing_of sink ≡ []) }
        ensures puts { IfOk result (λ sink. puts_of sink ≡ 0) }
        ensures faults { IfOk result (λ sink. faults_of sink ≡ 0) }
    {
        Ok(MemSink {
            written: Vec::with_capacity(alloc, room)?,
            room,
            failing: Vec::new(alloc),
            puts: 0,
            faults: 0,
        })
    }

    /// Lets the put with this number, counted from 0, fail after it took so many bytes of its piece, or all of a
    /// shorter piece. Of two numbers of bytes for one put the first counts.
    pub fn fail_on(&mut self, call: u64, after: usize) -> Result<(), AllocError>
        ensures ok { OnOk result (failing_of self.new ≡ failing_of self.old ++ (call, after) ∷ []) }
        ensures err { OnErr result (failing_of self.new ≡ failing_of self.old) }
        ensures written { written_of self.new ≡ written_of self.old }
        ensures room { room_of self.new ≡ room_of self.old }
        ensures puts { puts_of self.new ≡ puts_of self.old }
        ensures faults { faults_of self.new ≡ faults_of self.old }
    {
        self.failing.push((call, after))?;
        Ok(())
    }

    /// All bytes that were put so far.
    pub fn written(&self) -> &[u8]
        ensures { result.now ≡ written_of self.now }
    {
        self.written.as_slice()
    }

    /// Where the next put is to stop, if it is to fail.
    fn stop(&self) -> Option<usize>
        ensures { result ≡ stop_of self.now }
    {
        for (call, after) in &self.failing {
            if *call == self.puts {
                return Some(*after);
            }
        }
        None
    }

    /// Puts bytes that fit behind what was written.
    fn append(&mut self, bytes: &[u8])
        requires { length bytes.now ≤ left_of self.old }
        ensures room { room_of self.new ≡ room_of self.old }
        ensures failing { failing_of self.new ≡ failing_of self.old }
        ensures puts { puts_of self.new ≡ puts_of self.old }
        ensures faults { faults_of self.new ≡ faults_of self.old }
        ensures written { written_of self.new ≡ written_of self.old ++ bytes.now }
    {
        let _ = self.written.extend_from_slice(bytes);
    }
}

impl Sink for MemSink {
    ghost use Rattle.std.specs.Prelude.{Some};
    ghost use Rattle.diag_base.specs.MemSink.{written_of, room_of, failing_of, puts_of, faults_of, stop_of, left_of, taken_of, MustFail};

    ghost written = { λ sink. Some (written_of sink) };

    ghost faults = { faults_of };

    fn put(&mut self, bytes: &[u8]) -> Result<(), PutFailed>
        ensures ok { OnOk result (Gains bytes.now (Some (written_of self.old)) (Some (written_of self.new))) }
        ensures err { OnErr result (GainsPart bytes.now (Some (written_of self.old)) (Some (written_of self.new))) }
        ensures failed { OnErr result (Rises (faults_of self.old) (faults_of self.new)) }
        ensures never_falls { faults_of self.old ≤ faults_of self.new }

        // It fails exactly where it was told to, and past its room, and takes what it was told and what fits. It counts
        // each failure once.
        ensures counts { Counts (faults_of self.old) (faults_of self.new) result }
        ensures fails { IsErr result ↔ MustFail self.old bytes.now }
        ensures taken { OnErr result (written_of self.new ≡ written_of self.old ++ take (taken_of self.old bytes.now) bytes.now) }
        ensures puts { puts_of self.new ≡ min (puts_of self.old + 1) LAST }
        ensures room { room_of self.new ≡ room_of self.old }
        ensures failing { failing_of self.new ≡ failing_of self.old }
    {
        let stop = self.stop();
        self.puts = self.puts.saturating_add(1);
        let left = self.room.saturating_sub(self.written.len());
        if stop.is_none() && bytes.len() <= left {
            self.append(bytes);
            return Ok(());
        }
        let taken = stop.unwrap_or(bytes.len()).min(left).min(bytes.len());
        self.append(&bytes[..taken]);
        self.faults = self.faults.saturating_add(1);
        Err(PutFailed)
    }
}
