//! Brackets that are open at a place.
ghost use Rattle.std.specs.Prelude.{◌≡◌, [], ◌∷◌, IfOk, MatchOption, IsTrue, IsFalse, ◌↔◌};
ghost use Rattle.uvl_lex.specs.Reading.{opens, closes, is_same_shape, brackets_after};

use crate::token::{Mark, Token, TokenKind};
use std::alloc::{AllocError, Global};
use std::marker::Model;

/// The shape of a bracket.
#[derive(Clone, Copy, Debug, PartialEq, Eq)]
pub enum Shape {
    Round,
    Square,
    Curly,
}

impl Shape {
    /// The shape of the bracket that the token opens.
    pub(crate) fn opened_by(kind: TokenKind) -> Option<Shape>
        ensures { result ≡ opens kind }
    {
        match kind {
            TokenKind::Mark(Mark::OpenRound) => Some(Shape::Round),
            TokenKind::Mark(Mark::OpenSquare) => Some(Shape::Square),
            TokenKind::Mark(Mark::OpenCurly) => Some(Shape::Curly),
            _ => None,
        }
    }

    /// The shape of the bracket that the token closes.
    pub(crate) fn closed_by(kind: TokenKind) -> Option<Shape>
        ensures { result ≡ closes kind }
    {
        match kind {
            TokenKind::Mark(Mark::CloseRound) => Some(Shape::Round),
            TokenKind::Mark(Mark::CloseSquare) => Some(Shape::Square),
            TokenKind::Mark(Mark::CloseCurly) => Some(Shape::Curly),
            _ => None,
        }
    }

    /// Whether the two are of one shape.
    pub(crate) fn is_same(self, other: Shape) -> bool
        ensures { result ≡ is_same_shape self other }
    {
        matches!(
            (self, other),
            (Shape::Round, Shape::Round)
                | (Shape::Square, Shape::Square)
                | (Shape::Curly, Shape::Curly)
        )
    }
}

/// A bracket that has been opened on a physical line.
#[derive(Clone, Copy, Debug, PartialEq, Eq)]
pub struct Bracket {
    pub shape: Shape,
    pub line: u32,
}

/// The open brackets, innermost first.
#[derive(Drop)]
pub(crate) struct Brackets {
    outer_first: Vec<Bracket>,
}

impl Model for Brackets {
    ghost use Rattle.std.specs.Prelude.{List, reverse};
    ghost use Rattle.uvl_lex.specs.declared.bracket.Bracket.{Bracket};

    ghost Value = { List Bracket };

    ghost view = { λ a. reverse a.outer_first.items };
}

impl Brackets {
    /// No bracket.
    pub fn new(alloc: Global) -> Self
        ensures { result ≡ [] }
    {
        Brackets {
            outer_first: Vec::new(alloc),
        }
    }

    /// Whether no bracket is open.
    pub fn is_empty(&self) -> bool
        ensures { IsTrue result ↔ (self.now ≡ []) }
    {
        self.outer_first.is_empty()
    }

    /// Puts a bracket inside the others.
    pub fn push(&mut self, bracket: Bracket) -> Result<(), AllocError>
        ensures { IfOk result (λ _. self.new ≡ bracket ∷ self.old) }
    {
        self.outer_first.push(bracket)?;
        Ok(())
    }

    /// Takes the innermost bracket off.
    pub fn pop(&mut self) -> Option<Bracket>
        ensures { MatchOption result (self.old ≡ []) (λ bracket. self.old ≡ bracket ∷ self.new) }
    {
        self.outer_first.pop()
    }

    /// Opens or closes a bracket where the token does, and says whether it may stand here: false
    /// where it closes a bracket that is not the innermost open one.
    pub fn take(&mut self, token: Token) -> Result<bool, AllocError>
        ensures fits { IfOk result (λ fits. IsTrue fits → brackets_after token self.old ≡ Some self.new) }
        ensures misfits { IfOk result (λ fits. IsFalse fits → brackets_after token self.old ≡ None) }
    {
        if let Some(shape) = Shape::opened_by(token.kind) {
            let line = token.line;
            self.push(Bracket { shape, line })?;
            return Ok(true);
        }
        match Shape::closed_by(token.kind) {
            Some(shape) => match self.pop() {
                Some(bracket) => Ok(bracket.shape.is_same(shape)),
                None => Ok(false),
            },
            None => Ok(true),
        }
    }
}
