//! Where text is put.
ghost use Rattle.std.specs.Prelude.{ℕ, ◌≤◌, List, Option, OnOk, OnErr};
ghost use Rattle.diag_base.specs.Faults.{Rises};
ghost use Rattle.diag_base.specs.Sink.{Gains, GainsPart};

/// A put failed. The sink may have written none of the piece, its first bytes, or all of it.
#[derive(Clone, Copy, Debug, PartialEq, Eq)]
pub struct PutFailed;

/// Where text is put. A sink in memory tells what it has; standard output tells nothing, and then only the count
/// of faults is known.
pub trait Sink {
    /// All bytes so far, where the sink tells them.
    ghost written: { Self → Option (List ℕ) };

    /// How often the sink has failed, up to the last number of 64 bits.
    ghost faults: { Self → ℕ };

    /// Puts a piece behind what was written. It takes no memory.
    fn put(&mut self, bytes: &[u8]) -> Result<(), PutFailed>
        ensures ok { OnOk result (Gains bytes.now (written self.old) (written self.new)) }
        ensures err { OnErr result (GainsPart bytes.now (written self.old) (written self.new)) }
        ensures failed { OnErr result (Rises (faults self.old) (faults self.new)) }
        ensures never_falls { faults self.old ≤ faults self.new };
}
