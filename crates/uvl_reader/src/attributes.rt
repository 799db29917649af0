//! The formulas in a feature's attributes.
ghost use Rattle.std.specs.Prelude.{◌≡◌, ◌<◌, ◌^◌, All, length, map, option_map, IfOk};
ghost use Rattle.uvl_lex.specs.Text.{IsSpanOf};
ghost use Rattle.uvl_reader.specs.Attributes.{is_comma, items_of, listed, bracketed, formulas_behind, formulas_of_item};
ghost use Rattle.uvl_reader.specs.Shapes.{opens_square};

use crate::shape::{enclosed, open_after};
use std::alloc::{AllocError, Global};
use uvl_lex::{Keyword, Mark, Token, TokenKind, text_of};

/// The items between the commas that stand outside all brackets.
pub(crate) fn items_of<'a>(
    alloc: Global,
    tokens: &'a [Token],
) -> Result<Vec<&'a [Token]>, AllocError>
    requires { length tokens.now < 2 ^ 31 }
    ensures { IfOk result (λ items. map (λ item. item.now) items.items ≡ items_of tokens.now) }
{
    let mut items: Vec<&'a [Token]> = Vec::new(alloc);
    let mut from = 0;
    let mut depth = 0;
    for (i, token) in tokens.iter().enumerate() {
        if is_comma(depth, token.kind) {
            items.push(&tokens[from..i])?;
            from = i + 1;
        }
        depth = open_after(depth, token.kind);
    }
    items.push(&tokens[from..])?;
    Ok(items)
}

/// Whether the token is a comma outside all brackets.
fn is_comma(depth: u32, kind: TokenKind) -> bool
    ensures { result ≡ is_comma depth kind }
{
    depth == 0 && matches!(kind, TokenKind::Mark(Mark::Comma))
}

/// The lists of tokens that an item gives as formulas; nothing where it has a wrong form.
pub(crate) fn formulas_of_item<'a>(
    alloc: Global,
    bytes: &[u8],
    item: &'a [Token],
) -> Result<Option<Vec<&'a [Token]>>, AllocError>
    requires few { length item.now < 2 ^ 31 }
    requires spans { All (IsSpanOf bytes.now) item.now }
    ensures { IfOk result (λ found. option_map (λ formulas. map (λ tokens. tokens.now) formulas.items) found ≡ formulas_of_item bytes.now item.now) }
{
    let [first, rest @ ..] = item else {
        return Ok(Some(Vec::new(alloc)));
    };
    match first.kind {
        TokenKind::Name if text_of(bytes, first) == b"constraint".as_slice() => {
            let mut formulas: Vec<&'a [Token]> = Vec::new(alloc);
            formulas.push(rest)?;
            Ok(Some(formulas))
        }
        TokenKind::Keyword(Keyword::Constraints) => bracketed(alloc, rest),
        _ => Ok(Some(Vec::new(alloc))),
    }
}

/// The lists of tokens between square brackets.
fn bracketed<'a>(alloc: Global, tokens: &'a [Token]) -> Result<Option<Vec<&'a [Token]>>, AllocError>
    requires { length tokens.now < 2 ^ 31 }
    ensures { IfOk result (λ found. option_map (λ formulas. map (λ tokens. tokens.now) formulas.items) found ≡ bracketed tokens.now) }
{
    match tokens {
        [left, rest @ ..] if opens_square(left.kind) => match enclosed(rest) {
            Some(inside) => Ok(Some(listed(alloc, inside)?)),
            None => Ok(None),
        },
        _ => Ok(None),
    }
}

/// One list for each item, and none for no tokens.
fn listed<'a>(alloc: Global, tokens: &'a [Token]) -> Result<Vec<&'a [Token]>, AllocError>
    requires { length tokens.now < 2 ^ 31 }
    ensures { IfOk result (λ formulas. map (λ tokens. tokens.now) formulas.items ≡ listed tokens.now) }
{
    match tokens {
        [] => Ok(Vec::new(alloc)),
        _ => items_of(alloc, tokens),
    }
}

fn opens_square(kind: TokenKind) -> bool
    ensures { result ≡ opens_square kind }
{
    matches!(kind, TokenKind::Mark(Mark::OpenSquare))
}
