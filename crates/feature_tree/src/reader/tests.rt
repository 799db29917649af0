//! Formulas of short texts, and of long lists of tokens.
ghost use Rattle.std.specs.Prelude.{◌^◌, ◌<◌, length, IsTrue};

use super::*;
use std::test::Fail;
use uvl_lex::{LexError, Mark, TokenKind, logical_lines};

/// A text, and the formula of its tokens with the number of its token for each name, or the refusal. What each list of
/// tokens stands for is in the worked examples of `specs/FormulaAnswerExamples.antt`; these go through the lexer too.
const FORMULAS: [(&[u8], &str); 14] = [
    (b"A", "0"),
    (b"\"A b\"", "0"),
    (b"!(!(A))", "!!4"),
    (b"A & B & C", "(0 & 2 & 4)"),
    (b"A | B & C", "(0 | (2 & 4))"),
    (b"A => B => C", "((0 => 2) => 4)"),
    (b"A <=> B => C <=> D", "((0 <=> (2 => 4)) <=> 6)"),
    (b"(A <=> B) & !(C)", "((1 <=> 3) & !8)"),
    (b"A /* ( */ & B", "(0 & 2)"),
    (b"(A\n& B)", "(1 & 3)"),
    (b"A & or", "BadFormula"),
    (b"f /* */ (A)", "Unsupported"),
    (b"A <= B", "Unsupported"),
    (b"\"\"", "Unsupported"),
];

fn is_short(tokens: &[Token]) -> bool
    ensures { IsTrue result → length tokens.now < 2 ^ 32 }
{
    tokens.len() < 4_294_967_296
}

/// The formula or the refusal that the first line of the text gives.
fn shown(alloc: Global, bytes: &[u8]) -> Result<String, Fail> {
    let mut out = String::new(alloc);
    if bytes.len() > 16_777_216 {
        return Ok(out);
    }
    match logical_lines(alloc, bytes) {
        Ok(lines) => {
            for line in lines.as_slice() {
                show_answer(alloc, &mut out, line.tokens.as_slice())?;
            }
        }
        Err(LexError::Refused { line, reason }) => write!(out, "{line} {reason:?}")?,
        Err(LexError::Memory) => write!(out, "no memory")?,
    }
    Ok(out)
}

fn show_answer(alloc: Global, out: &mut String, tokens: &[Token]) -> Result<(), Fail> {
    if !is_short(tokens) {
        return Ok(());
    }
    match formula_of(alloc, tokens) {
        Ok(formula) => show(out, &formula),
        Err(error) => {
            write!(out, "{error:?}")?;
            Ok(())
        }
    }
}

#[cycle(show)]
fn show(out: &mut String, formula: &Formula) -> Result<(), Fail> {
    match formula {
        Formula::Name(token) => write!(out, "{token}")?,
        Formula::Not(part) => {
            write!(out, "!")?;
            show(out, part.get())?;
        }
        Formula::All(parts) => show_chain(out, " & ", parts.as_slice())?,
        Formula::Any(parts) => show_chain(out, " | ", parts.as_slice())?,
        Formula::Implies(left, right) => {
            write!(out, "(")?;
            show(out, left.get())?;
            write!(out, " => ")?;
            show(out, right.get())?;
            write!(out, ")")?;
        }
        Formula::Same(left, right) => {
            write!(out, "(")?;
            show(out, left.get())?;
            write!(out, " <=> ")?;
            show(out, right.get())?;
            write!(out, ")")?;
        }
    }
    Ok(())
}

#[cycle(show)]
fn show_chain(out: &mut String, mark: &str, parts: &[Formula]) -> Result<(), Fail> {
    write!(out, "(")?;
    for (i, part) in parts.iter().enumerate() {
        if 0 < i {
            write!(out, "{mark}")?;
        }
        show(out, part)?;
    }
    write!(out, ")")?;
    Ok(())
}

#[test]
fn reads_formulas(rt: HostRuntime) -> Result<(), Fail> {
    for (bytes, want) in FORMULAS {
        let found = shown(rt.alloc(), bytes)?;
        assert_eq!(rt; found.as_str(), want, "of {bytes:?}");
    }
    Ok(())
}

/// The role that a letter stands for in the lists below: `>` is `=>`, and `1` a number.
fn token_of(letter: u8) -> Token {
    let kind = match letter {
        b'!' => TokenKind::Mark(Mark::Bang),
        b'(' => TokenKind::Mark(Mark::OpenRound),
        b')' => TokenKind::Mark(Mark::CloseRound),
        b'&' => TokenKind::Mark(Mark::Amp),
        b'|' => TokenKind::Mark(Mark::Bar),
        b'>' => TokenKind::Mark(Mark::Then),
        b'1' => TokenKind::Number,
        _ => TokenKind::Name,
    };
    Token {
        kind,
        start: 0,
        end: 1,
        line: 1,
    }
}

fn push_letters(tokens: &mut Vec<Token>, letters: &[u8], times: usize) -> Result<(), Fail> {
    for _ in 0..times {
        for letter in letters {
            tokens.push(token_of(*letter))?;
        }
    }
    Ok(())
}

/// What is read of the middle between so many times the front and the back: a formula, or the refusal.
fn kind_of(
    alloc: Global,
    front: &[u8],
    middle: &[u8],
    back: &[u8],
    times: usize,
) -> Result<String, Fail> {
    let mut tokens = Vec::new(alloc);
    push_letters(&mut tokens, front, times)?;
    push_letters(&mut tokens, middle, 1)?;
    push_letters(&mut tokens, back, times)?;
    let mut out = String::new(alloc);
    write_kind(alloc, &mut out, tokens.as_slice())?;
    Ok(out)
}

fn write_kind(alloc: Global, out: &mut String, tokens: &[Token]) -> Result<(), Fail> {
    if !is_short(tokens) {
        return Ok(());
    }
    match formula_of(alloc, tokens) {
        Ok(_) => write!(out, "formula")?,
        Err(error) => write!(out, "{error:?}")?,
    }
    Ok(())
}

// Heights of 200 and 201 by parentheses; by the other ways they are worked examples.
#[test]
fn reads_heights_up_to_the_limit(rt: HostRuntime) -> Result<(), Fail> {
    let alloc = rt.alloc();
    assert!(rt; kind_of(alloc, b"(", b"A", b")", 199)?.as_str() == "formula");
    assert!(rt; kind_of(alloc, b"(", b"A", b")", 200)?.as_str() == "TooDeep");
    assert!(rt; kind_of(alloc, b"(A&", b"A", b")", 99)?.as_str() == "formula");
    assert!(rt; kind_of(alloc, b"(A&", b"A", b")", 100)?.as_str() == "TooDeep");
    Ok(())
}

// A million tokens: none of these needs more of the stack than a short list, or time out of proportion.
#[test]
fn reads_long_lists(rt: HostRuntime) -> Result<(), Fail> {
    let alloc = rt.alloc();
    assert!(rt; kind_of(alloc, b"!", b"", b"", 1_000_000)?.as_str() == "BadFormula");
    assert!(rt; kind_of(alloc, b"!", b"A", b"", 1_000_000)?.as_str() == "TooDeep");
    assert!(rt; kind_of(alloc, b"(", b"", b"", 1_000_000)?.as_str() == "BadFormula");
    assert!(rt; kind_of(alloc, b"(", b"A", b")", 500_000)?.as_str() == "TooDeep");
    assert!(rt; kind_of(alloc, b"A&", b"A", b"", 500_000)?.as_str() == "formula");
    assert!(rt; kind_of(alloc, b"!A|", b"A", b"", 500_000)?.as_str() == "formula");
    assert!(rt; kind_of(alloc, b"A>", b"A", b"", 500_000)?.as_str() == "TooDeep");
    Ok(())
}
