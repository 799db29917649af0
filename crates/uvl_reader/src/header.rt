//! What stands on a group line.
ghost use Rattle.std.specs.Prelude.{◌≡◌, ◌≤◌, ◌<◌, ◌^◌, All, length, IfSome, true};
ghost use Rattle.feature_tree.specs.WellFormed.{HasBounds};
ghost use Rattle.uvl_lex.specs.Text.{IsSpanOf};
ghost use Rattle.std.specs.List.{list_all};
ghost use Rattle.uvl_reader.specs.Shapes.{is_digit, range, value_of, bound_of_digits, bound_by, bound_of, plain, range_if, header_of_word, header_of_one, header_of_two, header_of, opens_square, closes_square, is_dots};

use feature_tree::GroupKind;
use uvl_lex::{Keyword, Mark, Token, TokenKind, text_of};

/// What a group line says. It is public because the definition names it.
#[derive(Clone, Copy, Debug, PartialEq, Eq)]
pub struct Header {
    pub kind: GroupKind,
    /// The least number of children in a `Range`; else 0.
    pub low: u32,
    /// The greatest number of children in a `Range`, or none; else none.
    pub high: Option<u32>,
}

impl Header {
    /// What a group line with these tokens says, if it is one.
    pub(crate) fn of(bytes: &[u8], tokens: &[Token]) -> Option<Header>
        requires { All (IsSpanOf bytes.now) tokens.now }
        ensures is { result ≡ header_of bytes.now tokens.now }
        ensures bounds { IfSome result (λ header. HasBounds header.kind header.low header.high) }
    {
        match tokens {
            [word] => Header::word(word.kind),
            [left, n, right] if opens_square(left.kind) && closes_square(right.kind) => {
                Header::one(bytes, n)
            }
            [left, n, dots, m, right]
                if opens_square(left.kind) && is_dots(dots.kind) && closes_square(right.kind) => {
                Header::two(bytes, n, m)
            }
            _ => None,
        }
    }

    /// A kind without bounds.
    fn plain(kind: GroupKind) -> Header
        ensures { result ≡ plain kind }
    {
        Header {
            kind,
            low: 0,
            high: None,
        }
    }

    /// One word.
    fn word(kind: TokenKind) -> Option<Header>
        ensures is { result ≡ header_of_word kind }
        ensures bounds { IfSome result (λ header. HasBounds header.kind header.low header.high) }
    {
        match kind {
            TokenKind::Keyword(Keyword::Mandatory) => Some(Header::plain(GroupKind::Mandatory)),
            TokenKind::Keyword(Keyword::Optional) => Some(Header::plain(GroupKind::Optional)),
            TokenKind::Keyword(Keyword::Or) => Some(Header::plain(GroupKind::Or)),
            TokenKind::Keyword(Keyword::Alternative) => Some(Header::plain(GroupKind::Alternative)),
            _ => None,
        }
    }

    /// `[n]`, and `[*]`.
    fn one(bytes: &[u8], n: &Token) -> Option<Header>
        requires { IsSpanOf bytes.now n.now }
        ensures is { result ≡ header_of_one bytes.now n.now n.now.kind }
        ensures bounds { IfSome result (λ header. HasBounds header.kind header.low header.high) }
    {
        if let TokenKind::Mark(Mark::Star) = n.kind {
            return Some(Header::range(0, None));
        }
        let n = bound_of(bytes, n)?;
        Header::range_if(n, n)
    }

    /// `[n..m]`, and `[n..*]`.
    fn two(bytes: &[u8], n: &Token, m: &Token) -> Option<Header>
        requires low { IsSpanOf bytes.now n.now }
        requires high { IsSpanOf bytes.now m.now }
        ensures is { result ≡ header_of_two bytes.now n.now m.now m.now.kind }
        ensures bounds { IfSome result (λ header. HasBounds header.kind header.low header.high) }
    {
        let low = bound_of(bytes, n)?;
        if let TokenKind::Mark(Mark::Star) = m.kind {
            return Some(Header::range(low, None));
        }
        Header::range_if(low, bound_of(bytes, m)?)
    }

    fn range(low: u32, high: Option<u32>) -> Header
        ensures { result ≡ range low high }
    {
        Header {
            kind: GroupKind::Range,
            low,
            high,
        }
    }

    /// A range, unless its least number is above its greatest.
    fn range_if(low: u32, high: u32) -> Option<Header>
        ensures is { result ≡ range_if low high }
        ensures bounds { IfSome result (λ header. HasBounds header.kind header.low header.high) }
    {
        if low <= high {
            Some(Header::range(low, Some(high)))
        } else {
            None
        }
    }
}

/// The number of a cardinality that the token is, if it is one.
fn bound_of(bytes: &[u8], token: &Token) -> Option<u32>
    requires { IsSpanOf bytes.now token.now }
    ensures { result ≡ bound_of bytes.now token.now }
{
    match token.kind {
        TokenKind::Number => bound_of_digits(text_of(bytes, token)),
        _ => None,
    }
}

/// The number that one to nine digits write.
fn bound_of_digits(text: &[u8]) -> Option<u32>
    ensures { result ≡ bound_of_digits text.now }
{
    let short = 1 <= text.len() && text.len() <= 9;
    if short && are_digits(text) {
        Some(value_of(text))
    } else {
        None
    }
}

fn opens_square(kind: TokenKind) -> bool
    ensures { result ≡ opens_square kind }
{
    matches!(kind, TokenKind::Mark(Mark::OpenSquare))
}

fn closes_square(kind: TokenKind) -> bool
    ensures { result ≡ closes_square kind }
{
    matches!(kind, TokenKind::Mark(Mark::CloseSquare))
}

fn is_dots(kind: TokenKind) -> bool
    ensures { result ≡ is_dots kind }
{
    matches!(kind, TokenKind::Mark(Mark::Dots))
}

/// Whether each byte is a digit.
fn are_digits(text: &[u8]) -> bool
    ensures { result ≡ list_all is_digit text.now }
{
    for byte in text {
        if !byte.is_ascii_digit() {
            return false;
        }
    }
    true
}

/// The number that at most nine digits write.
fn value_of(digits: &[u8]) -> u32
    requires few { length digits.now ≤ 9 }
    requires digits { list_all is_digit digits.now ≡ true }
    ensures { result ≡ value_of digits.now }
{
    let mut value = 0u32;
    for digit in digits {
        value = 10 * value + u32::from(*digit - b'0');
    }
    value
}
