//! A sink over a writer.
ghost use Rattle.std.specs.Prelude.{◌≤◌, OnErr};
ghost use Rattle.diag_base.specs.Faults.{Rises};
ghost use Rattle.diag_base.specs.Sink.{Counts};

use diag_base::{PutFailed, Sink};
use std::io::Write;

/// A sink over a writer, as standard output. It tells no bytes; only its count of faults is known.
#[derive(Drop)]
pub struct OutSink<W: Write> {
    out: W,
    faults: u64,
}

impl<W: Write> OutSink<W> {
    pub fn new(out: W) -> OutSink<W> {
        OutSink { out, faults: 0 }
    }
}

impl<W: Write> Sink for OutSink<W> {
    ghost use Rattle.std.specs.Prelude.{None};

    ghost written = { λ _. None };

    ghost faults = { λ sink. sink.faults };

    /// A write that was interrupted is made again; one that takes nothing of a piece that isn't empty is a fault.
    fn put(&mut self, bytes: &[u8]) -> Result<(), PutFailed>
        ensures failed { OnErr result (Rises self.old.faults self.new.faults) }
        ensures never_falls { self.old.faults ≤ self.new.faults }

        // It counts each failure once.
        ensures counts { Counts self.old.faults self.new.faults result }
    {
        if self.out.write_all(bytes).is_err() {
            self.faults = self.faults.saturating_add(1);
            return Err(PutFailed);
        }
        Ok(())
    }
}
