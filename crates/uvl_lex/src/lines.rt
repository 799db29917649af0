//! The logical lines of a text.
ghost use Rattle.std.specs.Prelude.{◌≡◌, ◌≤◌, ◌==◌, [], length, IfOk, IfErr, count_by};
ghost use Rattle.uvl_lex.specs.Reading.{reading, run_of, on_ok, all_lines, IsRefusal};
ghost use Rattle.uvl_lex.specs.Laws.{AreLines};
ghost use Rattle.uvl_lex.specs.Pieces.{pieces_from};
ghost use Rattle.uvl_lex.specs.inside.Cursors.{left};

use crate::cursor::Cursor;
use crate::error::{LexError, LexReason};
use crate::piece::next_piece;
use crate::reader::Reader;
use crate::token::Lines;
use std::alloc::Global;
use std::str;

/// Cuts a text into its logical lines, or names its first fault. Takes at most 16 MiB.
pub fn logical_lines(alloc: Global, bytes: &[u8]) -> Result<Lines, LexError>
    requires { length bytes.now ≤ 16777216 }
    ensures lines { IfOk result (λ lines. reading bytes.now ≡ Ok lines) }
    ensures refused { IfErr result (λ e. IsRefusal e (reading bytes.now)) }
    ensures well_formed { IfOk result (AreLines bytes.now) }
{
    match str::from_utf8(bytes) {
        Ok(text) => read_from(alloc, Cursor::new(text)),
        Err(fault) => Err(LexError::Refused {
            line: 1 + line_feeds(&bytes[..fault.valid_up_to()]),
            reason: LexReason::NotUtf8,
        }),
    }
}

/// How many line feeds there are.
fn line_feeds(bytes: &[u8]) -> u32
    requires { length bytes.now ≤ 16777216 }
    ensures { result ≡ count_by (λ b. b == 10) bytes.now }
{
    bytes.iter().filter(|b| **b == b'\n').count() as u32
}

/// The lines from the cursor on.
fn read_from(alloc: Global, start: Cursor<'_>) -> Result<Lines, LexError>
    ensures lines { IfOk result (λ lines. on_ok all_lines (run_of [] (pieces_from start.entry.place (left start.entry))) ≡ Ok lines) }
    ensures refused { IfErr result (λ e. IsRefusal e (on_ok all_lines (run_of [] (pieces_from start.entry.place (left start.entry))))) }
{
    let mut reader = Reader::new(alloc);
    let mut cursor = start;
    'pieces: while !cursor.is_at_end() {
        let (what, after) = next_piece(cursor);
        reader.take(alloc, what, cursor.place(), after.place())?;
        cursor = after;
    }
    reader.finish(alloc)
}
