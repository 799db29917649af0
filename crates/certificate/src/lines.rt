//! The lines of a file, one after another.
ghost use Rattle.std.specs.Prelude.{◌≡◌, ◌≤◌, [], length, option_map, unwrap_or};
ghost use Rattle.certificate.specs.Words.{lines_of};
ghost use Rattle.certificate.specs.inside.Ahead.{NextIs};

use crate::cutting::cut;
use std::marker::Model;

/// What is left of a file, and the number of the line that comes next.
#[derive(Drop)]
pub(crate) struct Lines<'a> {
    rest: &'a [u8],
    number: u32,
}

impl<'a> Model for Lines<'a> {
    ghost use Rattle.certificate.specs.Words.{lines_of as all_lines};
    ghost use Rattle.certificate.specs.inside.Ahead as ahead;
    ghost use Rattle.std.specs.Prelude.{◌≤◌, ◌+◌, length};

    ghost Value = { ahead.Ahead };

    ghost view = { λ a. record { number = a.number; lines = all_lines a.rest.now } };

    ghost invariant = { λ a. a.number + length a.rest.now ≤ 268435457 };
}

impl<'a> Lines<'a> {
    pub(crate) fn new(bytes: &'a [u8]) -> Lines<'a>
        requires { length bytes.now ≤ 268435456 }
        ensures { result ≡ record { number = 1; lines = lines_of bytes.now } }
    {
        Lines {
            rest: bytes,
            number: 1,
        }
    }

    /// The number of the line that comes next, or of the end.
    pub(crate) fn number(&self) -> u32
        ensures { result ≡ self.now.number }
    {
        self.number
    }

    /// The next line.
    pub(crate) fn next(&mut self) -> Option<&'a [u8]>
        ensures { NextIs self.old self.new result }
    {
        if self.rest.is_empty() {
            return None;
        }
        let (line, behind) = cut(self.rest, b'\n');
        self.rest = or_nothing(behind);
        self.number += 1;
        Some(line)
    }
}

/// What is there, or no bytes.
fn or_nothing(bytes: Option<&[u8]>) -> &[u8]
    ensures { result.now ≡ unwrap_or (option_map (λ some. some.now) bytes.entry) [] }
{
    match bytes {
        Some(bytes) => bytes,
        None => &[],
    }
}
