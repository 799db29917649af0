//! Reserved words and marks.
ghost use Rattle.std.specs.Prelude.{◌≡◌, IfSome};
ghost use Rattle.uvl_lex.specs.Words.{keyword_of, spelling};
ghost use Rattle.uvl_lex.specs.inside.Classes.{words_of_len, mark_of, less_of, equals_of, one_or_two, single_of, IsWidth};

use crate::token::{Keyword, Mark};

/// The reserved words of this many bytes.
#[tactic(auto, unfolding(crate::specs::inside::Classes::words_of_len))]
fn words_of_len(len: usize) -> &'static [Keyword]
    ensures { result.now ≡ words_of_len len }
{
    match len {
        2 => &[Keyword::Or],
        4 => &[Keyword::Real, Keyword::True],
        5 => &[Keyword::False],
        6 => &[Keyword::String],
        7 => &[
            Keyword::Include,
            Keyword::Imports,
            Keyword::Boolean,
            Keyword::Integer,
        ],
        8 => &[Keyword::Features, Keyword::Optional],
        9 => &[Keyword::Namespace, Keyword::Mandatory],
        11 => &[
            Keyword::Constraints,
            Keyword::Alternative,
            Keyword::Cardinality,
        ],
        _ => &[],
    }
}

/// How the word is written.
fn spelling(keyword: Keyword) -> &'static [u8]
    ensures { result.now ≡ spelling keyword }
{
    match keyword {
        Keyword::Namespace => b"namespace",
        Keyword::Include => b"include",
        Keyword::Imports => b"imports",
        Keyword::Features => b"features",
        Keyword::Constraints => b"constraints",
        Keyword::Mandatory => b"mandatory",
        Keyword::Optional => b"optional",
        Keyword::Or => b"or",
        Keyword::Alternative => b"alternative",
        Keyword::Cardinality => b"cardinality",
        Keyword::Boolean => b"Boolean",
        Keyword::Integer => b"Integer",
        Keyword::Real => b"Real",
        Keyword::String => b"String",
        Keyword::True => b"true",
        Keyword::False => b"false",
    }
}

/// The keyword that the bytes spell.
pub(crate) fn keyword_of(text: &[u8]) -> Option<Keyword>
    ensures { result ≡ keyword_of text.now }
{
    for keyword in words_of_len(text.len()) {
        if spelling(*keyword) == text {
            return Some(*keyword);
        }
    }
    None
}

/// The mark that begins with the character, the next two at hand, and how many of them it takes.
pub(crate) fn mark_of(c: char, second: char, third: char) -> Option<(Mark, usize)>
    ensures value { result ≡ mark_of c second third }
    ensures width { IfSome result (λ r. IsWidth r.1) }
{
    match c {
        '<' => Some(less_of(second, third)),
        '=' => Some(equals_of(second)),
        '!' => Some(one_or_two(Mark::Bang, second, '=', Mark::Unequal)),
        '>' => Some(one_or_two(Mark::Greater, second, '=', Mark::AtLeast)),
        '.' => Some(one_or_two(Mark::Dot, second, '.', Mark::Dots)),
        _ => Some((single_of(c)?, 1)),
    }
}

/// The mark that begins with `<`, and its length.
fn less_of(second: char, third: char) -> (Mark, usize)
    ensures value { result ≡ less_of second third }
    ensures width { IsWidth result.1 }
{
    if second != '=' {
        (Mark::Less, 1)
    } else if third == '>' {
        (Mark::Iff, 3)
    } else {
        (Mark::AtMost, 2)
    }
}

/// The mark that begins with `=`, and its length.
fn equals_of(second: char) -> (Mark, usize)
    ensures value { result ≡ equals_of second }
    ensures width { IsWidth result.1 }
{
    match second {
        '>' => (Mark::Then, 2),
        '=' => (Mark::Equal, 2),
        _ => (Mark::Assign, 1),
    }
}

/// The mark of one character, or that of two where the second follows.
fn one_or_two(one: Mark, second: char, follows: char, two: Mark) -> (Mark, usize)
    ensures value { result ≡ one_or_two one second follows two }
    ensures width { IsWidth result.1 }
{
    if second == follows {
        (two, 2)
    } else {
        (one, 1)
    }
}

/// The mark of one character that begins no longer mark.
fn single_of(c: char) -> Option<Mark>
    ensures { result ≡ single_of c }
{
    match c {
        '&' => Some(Mark::Amp),
        '|' => Some(Mark::Bar),
        '(' => Some(Mark::OpenRound),
        ')' => Some(Mark::CloseRound),
        '[' => Some(Mark::OpenSquare),
        ']' => Some(Mark::CloseSquare),
        '{' => Some(Mark::OpenCurly),
        '}' => Some(Mark::CloseCurly),
        ',' => Some(Mark::Comma),
        '*' => Some(Mark::Star),
        '+' => Some(Mark::Plus),
        '-' => Some(Mark::Minus),
        '/' => Some(Mark::Slash),
        ':' => Some(Mark::Colon),
        ';' => Some(Mark::Semicolon),
        _ => None,
    }
}
