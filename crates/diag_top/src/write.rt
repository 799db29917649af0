//! Putting a text into a sink, piece by piece.
ghost use Rattle.std.specs.Prelude.{◌≤◌, OnOk, OnErr};
ghost use Rattle.diag_base.specs.Faults.{Rises};
ghost use Rattle.diag_base.specs.Sink.{Gains, GainsPart};

use diag_base::{PutFailed, Sink};

/// How many bytes a piece has; the last may have fewer.
const PIECE: usize = 4096;

/// Puts a whole text into the sink, piece by piece. After a failure the sink has a prefix of it.
pub fn put_whole<K: Sink>(sink: &mut K, text: &[u8]) -> Result<(), PutFailed>
    ensures ok { OnOk result (Gains text.now (K.written sink.old) (K.written sink.new)) }
    ensures err { OnErr result (GainsPart text.now (K.written sink.old) (K.written sink.new)) }
    ensures failed { OnErr result (Rises (K.faults sink.old) (K.faults sink.new)) }
    ensures never_falls { K.faults sink.old ≤ K.faults sink.new }
{
    let mut rest = text;
    'pieces: while !rest.is_empty() {
        let (piece, after) = rest.split_at(rest.len().min(PIECE));
        sink.put(piece)?;
        rest = after;
    }
    Ok(())
}
