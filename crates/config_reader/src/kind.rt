//! What a file and its lines are, by their first tokens.
ghost use Rattle.std.specs.Prelude.{◌≡◌, All};
ghost use Rattle.config_reader.specs.Kinds.{is_plain, is_number, begins_formula, spells, is_word, is_version_line, version_of, kind_by, kind_of, kind_in};
ghost use Rattle.uvl_lex.specs.Laws.{IsLine};
ghost use Rattle.uvl_lex.specs.Text.{IsSpanOf};

use uvl_lex::{Line, Mark, Token, TokenKind, text_of};

/// Which form a file has. It is public because the definition names it.
#[derive(Clone, Copy, Debug, PartialEq, Eq)]
pub enum Version {
    /// Every line is a requirement.
    First,
    /// A first line says so; there may be tiers and musts.
    Second,
}

/// What a line is. It is public because the definition names it.
#[derive(Clone, Copy, Debug, PartialEq, Eq)]
pub enum Kind {
    /// It sets the tier of the requirements below it, up to the next such line.
    Tier,
    /// It states a must.
    Must,
    /// It states a requirement.
    Wanted,
}

impl Version {
    /// The version of a file with these lines.
    pub(crate) fn of(bytes: &[u8], lines: &[Line]) -> Version
        requires { All (IsLine bytes.now) lines.now }
        ensures { result ≡ version_of bytes.now lines.now }
    {
        match lines {
            [line, ..] if is_version_line(bytes, line.tokens.as_slice()) => Version::Second,
            _ => Version::First,
        }
    }
}

impl Kind {
    /// What a line with these tokens is in a file of this version.
    pub(crate) fn in_version(version: Version, bytes: &[u8], tokens: &[Token]) -> Kind
        requires { All (IsSpanOf bytes.now) tokens.now }
        ensures { result ≡ kind_in version bytes.now tokens.now }
    {
        match version {
            Version::First => Kind::Wanted,
            Version::Second => Kind::of(bytes, tokens),
        }
    }

    /// What a line with these tokens is in a file of version 2.
    fn of(bytes: &[u8], tokens: &[Token]) -> Kind
        requires { All (IsSpanOf bytes.now) tokens.now }
        ensures { result ≡ kind_of bytes.now tokens.now }
    {
        match tokens {
            [first, second, ..] => Kind::by(bytes, first, second),
            _ => Kind::Wanted,
        }
    }

    /// What a line is that begins so.
    fn by(bytes: &[u8], first: &Token, second: &Token) -> Kind
        requires { IsSpanOf bytes.now first.now }
        ensures { result ≡ kind_by bytes.now first.now second.now }
    {
        if is_word(bytes, b"tier", first) && is_number(second.kind) {
            return Kind::Tier;
        }
        if is_word(bytes, b"must", first) && begins_formula(second.kind) {
            return Kind::Must;
        }
        Kind::Wanted
    }
}

/// Whether a first line says that a file is of version 2.
fn is_version_line(bytes: &[u8], tokens: &[Token]) -> bool
    requires { All (IsSpanOf bytes.now) tokens.now }
    ensures { result ≡ is_version_line bytes.now tokens.now }
{
    match tokens {
        [first, second] => {
            is_word(bytes, b"version", first)
                && is_number(second.kind)
                && spells(bytes, b"2", second)
        }
        _ => false,
    }
}

/// Whether the token is this word without quotes.
fn is_word(bytes: &[u8], word: &[u8], token: &Token) -> bool
    requires { IsSpanOf bytes.now token.now }
    ensures { result ≡ is_word bytes.now word.now token.now }
{
    is_plain(token.kind) && spells(bytes, word, token)
}

/// Whether the token has these bytes.
fn spells(bytes: &[u8], word: &[u8], token: &Token) -> bool
    requires { IsSpanOf bytes.now token.now }
    ensures { result ≡ spells bytes.now word.now token.now }
{
    text_of(bytes, token) == word
}

/// Whether the token is a name without quotes.
fn is_plain(kind: TokenKind) -> bool
    ensures { result ≡ is_plain kind }
{
    matches!(kind, TokenKind::Name)
}

/// Whether the token is a number.
fn is_number(kind: TokenKind) -> bool
    ensures { result ≡ is_number kind }
{
    matches!(kind, TokenKind::Number)
}

/// Whether a formula may begin with such a token.
fn begins_formula(kind: TokenKind) -> bool
    ensures { result ≡ begins_formula kind }
{
    matches!(
        kind,
        TokenKind::Name
            | TokenKind::Quoted
            | TokenKind::Mark(Mark::Bang)
            | TokenKind::Mark(Mark::OpenRound)
    )
}
