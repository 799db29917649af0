//! Places in a text.
ghost use Rattle.std.specs.Prelude.{◌≡◌, ◌+◌, ◌<◌, ◌^◌};
ghost use Rattle.uvl_lex.specs.Places.{after};

/// A place between two characters: how many bytes stand before it, its physical line counted from
/// 1, and its column counted from 0. It is public because the definition of a text's lines names it.
#[derive(Clone, Copy, Debug, PartialEq, Eq)]
pub struct Place {
    pub offset: u32,
    pub line: u32,
    pub column: u32,
}

/// The place after the character, where it stands at the place.
#[inline]
pub(crate) fn place_after(place: Place, c: char) -> Place
    requires offset { place.offset + 4 < 2 ^ 32 }
    requires line { place.line + 1 < 2 ^ 32 }
    requires column { place.column + 8 < 2 ^ 32 }
    ensures { result ≡ after place c }
{
    let offset = place.offset + c.len_utf8() as u32;
    match c {
        '\n' => Place {
            offset,
            line: place.line + 1,
            column: 0,
        },
        '\t' => Place {
            offset,
            line: place.line,
            column: 8 * (place.column / 8 + 1),
        },
        '\r' => Place { offset, ..place },
        _ => Place {
            offset,
            line: place.line,
            column: place.column + 1,
        },
    }
}
