//! The cursor that goes over the characters of a text.
ghost use Rattle.std.specs.Prelude.{◌+◌, ◌*◌, ◌≤◌, length, IsTrue};
ghost use Rattle.std.specs.Str.{is_utf8};

use crate::class::Class;
use crate::place::{Place, place_after};

/// The text that is still to be read, and the place where it begins.
#[derive(Clone, Copy)]
pub(crate) struct Cursor<'a> {
    rest: &'a str,
    place: Place,
    ghost text: { IsTrue (is_utf8 rest.now) },
    ghost fits: { (place.offset + length rest.now ≤ 16777216) × (place.line ≤ place.offset + 1) × (place.column ≤ 8 * place.offset) },
}

impl<'a> Cursor<'a> {
    ghost use Rattle.std.specs.Prelude.{◌≡◌, ◌≤◌, ◌+◌, ◌-◌, length, take, MatchOption, IsTrue, ◌↔◌, [], ◌∷◌};
    ghost use Rattle.std.specs.List.{prefix_len};
    ghost use Rattle.std.specs.Str.{chars};
    ghost use Rattle.uvl_lex.specs.Places.{after, beginning, unmarked};
    ghost use Rattle.uvl_lex.specs.Pieces.{first};
    ghost use Rattle.uvl_lex.specs.inside.Cursors.{left, GoesOn, StepsOver};
    ghost use Rattle.uvl_lex.specs.inside.Classes.{in_class};

    /// At the beginning of a text, after its byte order mark if it has one.
    pub fn new(text: &'a str) -> Cursor<'a>
        requires { length text.now ≤ 16777216 }
        ensures left { left result ≡ unmarked (chars text.now) }
        ensures place { result.place ≡ beginning (chars text.now) }
    {
        let start = Cursor {
            rest: text,
            place: Place {
                offset: 0,
                line: 1,
                column: 0,
            },
        };
        match start.step() {
            Some(('\u{FEFF}', after)) => Cursor {
                rest: after.rest,
                place: Place {
                    offset: 3,
                    line: 1,
                    column: 0,
                },
            },
            _ => start,
        }
    }

    /// The place of the next character.
    pub fn place(self) -> Place
        ensures { result ≡ self.entry.place }
    {
        self.place
    }

    /// Whether no character is left.
    pub fn is_at_end(self) -> bool
        ensures { IsTrue result ↔ (left self.entry ≡ []) }
    {
        self.rest.is_empty()
    }

    /// The bytes up to another cursor, which has gone on from here.
    pub fn bytes_up_to(self, later: Cursor<'a>) -> &'a [u8]
        requires { length later.rest.now ≤ length self.rest.now }
        ensures { result.now ≡ take (length self.entry.rest.now - length later.entry.rest.now) self.entry.rest.now }
    {
        &self.rest.as_bytes()[..self.rest.len() - later.rest.len()]
    }

    /// The next character and the cursor after it.
    #[inline]
    pub fn step(self) -> Option<(char, Cursor<'a>)>
        ensures { MatchOption result (left self.entry ≡ []) (λ r. StepsOver self.entry r.0 r.1) }
    {
        let mut chars = self.rest.chars();
        match chars.next() {
            Some(c) => Some((
                c,
                Cursor {
                    rest: chars.as_str(),
                    place: place_after(self.place, c),
                },
            )),
            None => None,
        }
    }

    /// The next character, or NUL at the end of the text: no piece but a fault begins with NUL.
    #[inline]
    pub fn first(self) -> char
        ensures { result ≡ first (left self.entry) }
    {
        match self.rest.chars().next() {
            Some(c) => c,
            None => '\0',
        }
    }

    /// After the next character.
    #[inline]
    pub fn skip(self) -> Cursor<'a>
        ensures { GoesOn self.entry 1 result }
    {
        match self.step() {
            Some((_, after)) => after,
            None => self,
        }
    }

    /// After all characters of the class that come next, and how many these are.
    #[inline]
    pub fn skip_while(self, class: Class) -> (usize, Cursor<'a>)
        ensures count { result.0 ≡ prefix_len (in_class class) (left self.entry) }
        ensures after { GoesOn self.entry (prefix_len (in_class class) (left self.entry)) result.1 }
    {
        let (mut count, mut at) = self.skip_columns(class);
        while let Some((c, after)) = at.step() {
            if !class.contains(c) {
                break;
            }
            let (more, next) = after.skip_columns(class);
            count += 1 + more;
            at = next;
        }
        (count, at)
    }

    /// After the characters of the class that come first and take one byte and one column each, and how many these are.
    #[inline]
    fn skip_columns(self, class: Class) -> (usize, Cursor<'a>)
        ensures after { GoesOn self.entry result.0 result.1 }
        ensures passed { result.0 + prefix_len (in_class class) (left result.1) ≡ prefix_len (in_class class) (left self.entry) }
    {
        let count = class.columns(self.rest.as_bytes());
        let Place {
            offset,
            line,
            column,
        } = self.place;
        let place = Place {
            offset: offset + count as u32,
            line,
            column: column + count as u32,
        };
        let rest = &self.rest[count..];
        (count, Cursor { rest, place })
    }
}
