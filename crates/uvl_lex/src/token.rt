//! Tokens and logical lines, with their lists.
ghost use Rattle.std.specs.Prelude.{◌≡◌, ◌+◌, ◌<◌, ◌≤◌, [], ◌∷◌, ◌++◌, length, get_or, IfOk, OnErr, ℕ};
ghost use Rattle.uvl_lex.specs.Text.{IsSpanOf, token_text};

use std::alloc::{AllocError, Global};
use std::marker::Model;
use std::mem;

/// How many tokens of a line are copied at most.
const MOST_COPIED: usize = 1024;

/// A word that the format reserves.
#[derive(Clone, Copy, Debug, PartialEq, Eq)]
pub enum Keyword {
    Namespace,
    Include,
    Imports,
    Features,
    Constraints,
    Mandatory,
    Optional,
    Or,
    Alternative,
    Cardinality,
    Boolean,
    Integer,
    Real,
    String,
    True,
    False,
}

/// A mark of one to three characters.
#[derive(Clone, Copy, Debug, PartialEq, Eq)]
pub enum Mark {
    /// `<=>`
    Iff,
    /// `=>`
    Then,
    /// `==`
    Equal,
    /// `!=`
    Unequal,
    /// `<=`
    AtMost,
    /// `>=`
    AtLeast,
    /// `..`
    Dots,
    Bang,
    Amp,
    Bar,
    OpenRound,
    CloseRound,
    OpenSquare,
    CloseSquare,
    OpenCurly,
    CloseCurly,
    Comma,
    Dot,
    Star,
    Plus,
    Minus,
    Slash,
    Less,
    Greater,
    Assign,
    Colon,
    Semicolon,
}

/// What a token is.
#[derive(Clone, Copy, Debug, PartialEq, Eq)]
pub enum TokenKind {
    /// A name that is no reserved word.
    Name,
    /// A name between double quotes.
    Quoted,
    /// A text between single quotes, or one between double quotes that is no name.
    Text,
    Number,
    Keyword(Keyword),
    Mark(Mark),
}

/// A token: its bytes go from `start` to before `end`, and `line` is the physical line of its start.
#[derive(Clone, Copy, Debug, PartialEq, Eq)]
pub struct Token {
    pub kind: TokenKind,
    pub start: u32,
    pub end: u32,
    pub line: u32,
}

/// The tokens of a line, in order.
#[derive(Drop)]
pub struct Tokens {
    items: Vec<Token>,
}

impl Model for Tokens {
    ghost use Rattle.std.specs.Prelude.{List};
    ghost use Rattle.uvl_lex.specs.declared.token.Token.{Token};

    ghost Value = { List Token };

    ghost view = { λ a. a.items.items };
}

impl Tokens {
    pub fn new(alloc: Global) -> Self
        ensures { result ≡ [] }
    {
        Tokens {
            items: Vec::new(alloc),
        }
    }

    pub fn as_slice(&self) -> &[Token]
        ensures { result.now ≡ self.now }
    {
        self.items.as_slice()
    }

    pub fn len(&self) -> usize
        ensures { result ≡ length self.now }
    {
        self.items.len()
    }

    pub fn get(&self, i: usize) -> &Token
        requires { i < length self.now }
        ensures { result.now ≡ get_or self.now i result.now }
    {
        &self.items[i]
    }

    pub fn push(&mut self, item: Token) -> Result<(), AllocError>
        ensures ok { IfOk result (λ _. self.new ≡ self.old ++ item ∷ []) }
        ensures err { OnErr result (self.new ≡ self.old) }
    {
        self.items.push(item)?;
        Ok(())
    }

    /// The tokens of a buffer, with room for no more. A short list is copied, so that the buffer serves again. A long one
    /// is handed over, since a copy would take its memory twice.
    pub(crate) fn gathered(alloc: Global, buffer: &mut Vec<Token>) -> Result<Self, AllocError>
        ensures { IfOk result (λ tokens. tokens ≡ buffer.old.items) }
    {
        if buffer.len() <= MOST_COPIED {
            let items = Vec::from_slice(alloc, buffer.as_slice())?;
            return Ok(Tokens { items });
        }
        let mut items = mem::replace(buffer, Vec::new(alloc));
        items.shrink_to_fit();
        Ok(Tokens { items })
    }
}

/// A logical line. It has at least one token; `number` and `indent` are the physical line and the
/// column of the first.
#[derive(Drop)]
pub struct Line {
    pub number: u32,
    pub indent: u32,
    pub tokens: Tokens,
}

/// The lines of a text, in order.
#[derive(Drop)]
pub struct Lines {
    items: Vec<Line>,
}

impl Model for Lines {
    ghost use Rattle.std.specs.Prelude.{List};
    ghost use Rattle.uvl_lex.specs.declared.token.Line.{Line};

    ghost Value = { List Line };

    ghost view = { λ a. a.items.items };
}

impl Lines {
    pub fn new(alloc: Global) -> Self
        ensures { result ≡ [] }
    {
        Lines {
            items: Vec::new(alloc),
        }
    }

    pub fn as_slice(&self) -> &[Line]
        ensures { result.now ≡ self.now }
    {
        self.items.as_slice()
    }

    pub fn len(&self) -> usize
        ensures { result ≡ length self.now }
    {
        self.items.len()
    }

    pub fn get(&self, i: usize) -> &Line
        requires { i < length self.now }
        ensures { result.now ≡ get_or self.now i result.now }
    {
        &self.items[i]
    }

    pub fn push(&mut self, item: Line) -> Result<(), AllocError>
        ensures ok { IfOk result (λ _. self.new ≡ self.old ++ item ∷ []) }
        ensures err { OnErr result (self.new ≡ self.old) }
    {
        self.items.push(item)?;
        Ok(())
    }
}

/// The bytes of a token, without the quotes where it has them.
pub fn text_of<'a>(bytes: &'a [u8], token: &Token) -> &'a [u8]
    requires { IsSpanOf bytes.now token.now }
    ensures { result.now ≡ token_text bytes.now token.now }
{
    let (start, end) = (token.start as usize, token.end as usize);
    match token.kind {
        TokenKind::Quoted | TokenKind::Text => &bytes[start + 1..end - 1],
        _ => &bytes[start..end],
    }
}
