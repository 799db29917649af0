//! The texts of requirements.
ghost use Rattle.std.specs.Prelude.{◌≡◌, ◌++◌, All, IfOk, OnOk};
ghost use Rattle.config_reader.specs.Texts.{text, beginning, gap, span};
ghost use Rattle.uvl_lex.specs.Text.{IsSpanOf};

use feature_tree::Text;
use std::alloc::{AllocError, Global};
use uvl_lex::Token;

/// The text of these tokens.
pub(crate) fn text_of_tokens(
    alloc: Global,
    bytes: &[u8],
    tokens: &[Token],
) -> Result<Text, AllocError>
    requires { All (IsSpanOf bytes.now) tokens.now }
    ensures { IfOk result (λ words. words ≡ text bytes.now tokens.now) }
{
    let mut out = Vec::new(alloc);
    let mut end = beginning(tokens);
    for token in tokens {
        push_token(&mut out, bytes, end, token)?;
        end = token.end;
    }
    Text::from_slice(alloc, out.as_slice())
}

/// Where the first token begins.
fn beginning(tokens: &[Token]) -> u32
    ensures { result ≡ beginning tokens.now }
{
    match tokens {
        [token, ..] => token.start,
        [] => 0,
    }
}

/// One token more, where the one before it ended at this byte.
fn push_token(out: &mut Vec<u8>, bytes: &[u8], end: u32, token: &Token) -> Result<(), AllocError>
    requires { IsSpanOf bytes.now token.now }
    ensures { OnOk result (out.new.items ≡ out.old.items ++ gap end token.now ++ span bytes.now token.now) }
{
    if end != token.start {
        out.push(b' ')?;
    }
    out.extend_from_slice(&bytes[token.start as usize..token.end as usize])
}
