//! What a line is.
ghost use Rattle.std.specs.Prelude.{◌≡◌};
ghost use Rattle.uvl_reader.specs.LineKinds.{section_of_kind, section_of, place_of, kind_under};

use uvl_lex::{Keyword, Token, TokenKind};

/// The five sections, in the order in which they come. It is public because the definition names it.
#[derive(Clone, Copy, Debug, PartialEq, Eq)]
pub enum Section {
    Namespace,
    Include,
    Imports,
    Features,
    Constraints,
}

/// What a line is. It is public because the definition names it.
#[derive(Clone, Copy, Debug, PartialEq, Eq)]
pub enum LineKind {
    /// It stands under no line; none where it begins no section.
    SectionLine(Option<Section>),
    FeatureLine,
    GroupLine,
    ConstraintLine,
    /// It stands where none may.
    NoLine,
}

impl Section {
    /// The section that a line begins with this token.
    fn by(kind: TokenKind) -> Option<Section>
        ensures { result ≡ section_of_kind kind }
    {
        match kind {
            TokenKind::Keyword(Keyword::Namespace) => Some(Section::Namespace),
            TokenKind::Keyword(Keyword::Include) => Some(Section::Include),
            TokenKind::Keyword(Keyword::Imports) => Some(Section::Imports),
            TokenKind::Keyword(Keyword::Features) => Some(Section::Features),
            TokenKind::Keyword(Keyword::Constraints) => Some(Section::Constraints),
            _ => None,
        }
    }

    /// The section that an unindented line with these tokens begins.
    pub(crate) fn of(tokens: &[Token]) -> Option<Section>
        ensures { result ≡ section_of tokens.now }
    {
        match tokens {
            [first, ..] => Section::by(first.kind),
            [] => None,
        }
    }

    /// Its place among the sections.
    pub(crate) fn place(self) -> u32
        ensures { result ≡ place_of self }
    {
        match self {
            Section::Namespace => 0,
            Section::Include => 1,
            Section::Imports => 2,
            Section::Features => 3,
            Section::Constraints => 4,
        }
    }
}

impl LineKind {
    /// What a line is under a line of this kind.
    pub(crate) fn under(self) -> LineKind
        ensures { result ≡ kind_under self }
    {
        match self {
            LineKind::SectionLine(Some(Section::Features)) => LineKind::FeatureLine,
            LineKind::SectionLine(Some(Section::Constraints)) => LineKind::ConstraintLine,
            LineKind::FeatureLine => LineKind::GroupLine,
            LineKind::GroupLine => LineKind::FeatureLine,
            _ => LineKind::NoLine,
        }
    }
}
