//! Classes of characters.
ghost use Rattle.std.specs.Prelude.{◌≡◌, ◌≤◌, ◌||◌, ◌==◌, length};
ghost use Rattle.std.specs.Char.{is_ascii_alphanumeric};
ghost use Rattle.std.specs.List.{prefix_len};
ghost use Rattle.unicode_ident.specs.Ident.{is_xid_start, is_xid_continue};
ghost use Rattle.uvl_lex.specs.inside.Classes.{in_class, is_column};
ghost use Rattle.uvl_lex.specs.Pieces.{starts_name, is_in_name};

/// A class of characters.
#[derive(Clone, Copy)]
pub(crate) enum Class {
    /// All but the line feed.
    InLine,
    /// What may follow the first character of a name.
    InName,
    /// 0 to 9.
    Digit,
    /// What may stand before the closing quote.
    Inside(char),
    /// What may stand in a name between double quotes.
    Plain,
}

impl Class {
    /// Whether the character belongs to the class.
    #[inline]
    pub fn contains(self, c: char) -> bool
        ensures { result ≡ in_class self c }
    {
        match self {
            Class::InLine => c != '\n',
            Class::InName => is_in_name(c),
            Class::Digit => c.is_ascii_digit(),
            Class::Inside(mark) => c != mark && c != '\n' && c != '\r',
            Class::Plain => c != '"' && c != '.' && c != '\n' && c != '\r',
        }
    }

    /// Whether the byte is a character of the class that takes one byte and one column.
    #[inline]
    fn is_column(self, byte: u8) -> bool
        ensures { result ≡ is_column self byte }
    {
        32 <= byte && byte < 127 && self.contains(byte as char)
    }

    /// How many such bytes come first.
    #[inline]
    pub fn columns(self, bytes: &[u8]) -> usize
        ensures value { result ≡ prefix_len (is_column self) bytes.now }
        ensures within { result ≤ length bytes.now }
    {
        let mut count = 0;
        while count < bytes.len() && self.is_column(bytes[count]) {
            count += 1;
        }
        count
    }
}

/// Whether a name may begin with the character.
#[inline]
pub(crate) fn starts_name(c: char) -> bool
    ensures { result ≡ starts_name c }
{
    starts_identifier(c) || c == '_'
}

/// Whether the character may stand in a name after the first.
#[inline]
fn is_in_name(c: char) -> bool
    ensures { result ≡ is_in_name c }
{
    is_in_identifier(c) || matches!(c, '#' | '%' | '?' | '\'' | '\\' | '§')
}

/// Whether an identifier may begin with the character. Most are ASCII, which needs no table.
#[inline]
fn starts_identifier(c: char) -> bool
    ensures { result ≡ is_xid_start c }
{
    if c.is_ascii() {
        c.is_ascii_alphabetic()
    } else {
        unicode_ident::is_xid_start(c)
    }
}

/// Whether the character may stand in an identifier. Most are ASCII, which needs no table.
#[inline]
fn is_in_identifier(c: char) -> bool
    ensures { result ≡ is_xid_continue c }
{
    if c.is_ascii() {
        is_word(c)
    } else {
        unicode_ident::is_xid_continue(c)
    }
}

/// A letter or digit of ASCII, or `_`.
#[inline]
fn is_word(c: char) -> bool
    ensures { result ≡ (is_ascii_alphanumeric c || (c == 95)) }
{
    c.is_ascii_alphanumeric() || c == '_'
}
