//! What stands on a feature line.
ghost use Rattle.std.specs.Prelude.{◌≡◌, ◌+◌, ◌≤◌, ◌<◌, ◌^◌, All, length, option_map, IfSome};
ghost use Rattle.uvl_lex.specs.Text.{IsSpanOf};
ghost use Rattle.uvl_reader.specs.Shapes.{is_name, opens_curly, open_after, enclosed, attributes_of, is_boolean, untyped, feature_by, feature_of, is_other_type, is_beyond, goes_beyond, has_other_type, is_unsupported};

use uvl_lex::{Keyword, Mark, Token, TokenKind};

/// A feature line: the token of its name, and the tokens between its braces. Contracts see both.
#[derive(Drop)]
pub(crate) struct Shape<'a> {
    pub(crate) name: Token,
    pub(crate) attributes: &'a [Token],
}

impl<'a> std::marker::Model for Shape<'a> {
    ghost use Rattle.uvl_reader.specs.Shapes.{FeatureShape};

    ghost Value = { FeatureShape };

    ghost view = { λ shape. record { name = shape.name; attributes = shape.attributes.now } };
}

impl<'a> Shape<'a> {
    /// What a feature line with these tokens says, if it is one.
    pub(crate) fn of(tokens: &'a [Token]) -> Option<Shape<'a>>
        requires { length tokens.now < 2 ^ 31 }
        ensures { result ≡ feature_of tokens.now }
    {
        match untyped(tokens) {
            [name, rest @ ..] if is_name(name.kind) => {
                let attributes = attributes_of(rest)?;
                Some(Shape {
                    name: *name,
                    attributes,
                })
            }
            _ => None,
        }
    }
}

/// The tokens between the braces, if there is nothing else.
fn attributes_of(tokens: &[Token]) -> Option<&[Token]>
    requires { length tokens.now < 2 ^ 31 }
    ensures { option_map (λ inside. inside.now) result ≡ attributes_of tokens.now }
{
    match tokens {
        [] => Some(tokens),
        [left, rest @ ..] if opens_curly(left.kind) => enclosed(rest),
        _ => None,
    }
}

/// Where one bracket is open: the tokens before the last one, if it is the one that closes it.
pub(crate) fn enclosed(tokens: &[Token]) -> Option<&[Token]>
    requires { length tokens.now < 2 ^ 31 }
    ensures is { option_map (λ inside. inside.now) result ≡ enclosed 1 tokens.now }
    ensures shorter { IfSome result (λ inside. length inside.now ≤ length tokens.now) }
{
    let mut depth = 1;
    for (i, token) in tokens.iter().enumerate() {
        depth = open_after(depth, token.kind);
        if depth == 0 {
            return if i + 1 == tokens.len() {
                Some(&tokens[..i])
            } else {
                None
            };
        }
    }
    None
}

/// How many brackets are open after a token.
pub(crate) fn open_after(depth: u32, kind: TokenKind) -> u32
    requires { depth + 1 < 2 ^ 32 }
    ensures is { result ≡ open_after depth kind }
    ensures most { result ≤ depth + 1 }
{
    match kind {
        TokenKind::Mark(Mark::OpenRound | Mark::OpenSquare | Mark::OpenCurly) => depth + 1,
        TokenKind::Mark(Mark::CloseRound | Mark::CloseSquare | Mark::CloseCurly) => {
            depth.saturating_sub(1)
        }
        _ => depth,
    }
}

/// The tokens behind the word `Boolean`.
fn untyped(tokens: &[Token]) -> &[Token]
    ensures { result.now ≡ untyped tokens.now }
{
    match tokens {
        [first, rest @ ..] if is_boolean(first.kind) => rest,
        _ => tokens,
    }
}

/// Whether the tokens of a feature line are what UVL has beyond Boolean features.
pub(crate) fn is_unsupported(tokens: &[Token]) -> bool
    ensures { result ≡ is_unsupported tokens.now }
{
    has_other_type(tokens) || goes_beyond(untyped(tokens))
}

fn has_other_type(tokens: &[Token]) -> bool
    ensures { result ≡ has_other_type tokens.now }
{
    match tokens {
        [first, ..] => is_other_type(first.kind),
        [] => false,
    }
}

fn goes_beyond(tokens: &[Token]) -> bool
    ensures { result ≡ goes_beyond tokens.now }
{
    match tokens {
        [name, next, ..] => is_name(name.kind) && is_beyond(next.kind),
        _ => false,
    }
}

/// Whether the token is a name, quoted or not.
pub(crate) fn is_name(kind: TokenKind) -> bool
    ensures { result ≡ is_name kind }
{
    matches!(kind, TokenKind::Name | TokenKind::Quoted)
}

fn opens_curly(kind: TokenKind) -> bool
    ensures { result ≡ opens_curly kind }
{
    matches!(kind, TokenKind::Mark(Mark::OpenCurly))
}

fn is_boolean(kind: TokenKind) -> bool
    ensures { result ≡ is_boolean kind }
{
    matches!(kind, TokenKind::Keyword(Keyword::Boolean))
}

fn is_other_type(kind: TokenKind) -> bool
    ensures { result ≡ is_other_type kind }
{
    matches!(
        kind,
        TokenKind::Keyword(Keyword::Integer | Keyword::Real | Keyword::String)
    )
}

fn is_beyond(kind: TokenKind) -> bool
    ensures { result ≡ is_beyond kind }
{
    matches!(
        kind,
        TokenKind::Keyword(Keyword::Cardinality) | TokenKind::Mark(Mark::Dot)
    )
}
