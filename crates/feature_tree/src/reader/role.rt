//! What a token is to a formula.
ghost use Rattle.std.specs.Prelude.{◌≡◌};
ghost use Rattle.feature_tree.specs.Roles.{role_of, role_of_mark, joins};
ghost use Rattle.feature_tree.specs.inside.Descent.{is_one_node};

use uvl_lex::{Keyword, Mark, TokenKind};

/// The chains of the grammar, loosest first. It is public because the grammar names it.
#[derive(Clone, Copy, Debug, PartialEq, Eq)]
pub enum Level {
    /// `<=>`
    Same,
    /// `=>`
    Implies,
    /// `|`
    Any,
    /// `&`
    All,
}

impl Level {
    /// Whether a chain of this level is one node, and not pairs from the left.
    pub(crate) fn is_one_node(self) -> bool
        ensures { result ≡ is_one_node self }
    {
        matches!(self, Level::Any | Level::All)
    }
}

/// The role that a token has in a formula. It is public because the grammar names it.
#[derive(Clone, Copy, Debug, PartialEq, Eq)]
pub enum Role {
    /// A name, quoted or not.
    Name,
    /// `!`
    Not,
    /// It joins the members of a chain.
    Joins(Level),
    /// `(`
    Opens,
    /// `)`
    Closes,
    /// No formula has it yet, and it is refused as such.
    Unsupported,
    /// No formula has it.
    Other,
}

impl Role {
    /// The role of a token of this kind.
    pub(crate) fn of(kind: TokenKind) -> Role
        ensures { result ≡ role_of kind }
    {
        match kind {
            TokenKind::Name | TokenKind::Quoted => Role::Name,
            TokenKind::Text | TokenKind::Number => Role::Unsupported,
            TokenKind::Keyword(Keyword::True | Keyword::False) => Role::Unsupported,
            TokenKind::Keyword(_) => Role::Other,
            TokenKind::Mark(mark) => Role::of_mark(mark),
        }
    }

    /// The role of a mark.
    fn of_mark(mark: Mark) -> Role
        ensures { result ≡ role_of_mark mark }
    {
        match mark {
            Mark::Iff => Role::Joins(Level::Same),
            Mark::Then => Role::Joins(Level::Implies),
            Mark::Bar => Role::Joins(Level::Any),
            Mark::Amp => Role::Joins(Level::All),
            Mark::Bang => Role::Not,
            Mark::OpenRound => Role::Opens,
            Mark::CloseRound => Role::Closes,
            Mark::Dot | Mark::Plus | Mark::Minus | Mark::Star | Mark::Slash => Role::Unsupported,
            Mark::Less | Mark::Greater | Mark::AtMost | Mark::AtLeast => Role::Unsupported,
            Mark::Equal | Mark::Unequal | Mark::Assign => Role::Unsupported,
            Mark::Dots | Mark::Comma | Mark::Colon | Mark::Semicolon => Role::Other,
            Mark::OpenSquare | Mark::CloseSquare => Role::Other,
            Mark::OpenCurly | Mark::CloseCurly => Role::Other,
        }
    }

    /// Whether the token joins members of a chain of this level.
    pub(crate) fn joins(self, level: Level) -> bool
        ensures { result ≡ joins level self }
    {
        matches!(
            (self, level),
            (Role::Joins(Level::Same), Level::Same)
                | (Role::Joins(Level::Implies), Level::Implies)
                | (Role::Joins(Level::Any), Level::Any)
                | (Role::Joins(Level::All), Level::All)
        )
    }
}
