//! Readings of short texts, and the calls on a line.
use super::*;
use std::alloc::Global;
use std::fmt::Write;
use std::test::Fail;

/// Texts and their reading: each line as `number:indent` and its tokens as `kind start-end@line`, or the
/// refusal's line and reason. The values were worked out by hand from the rules of the format.
const READINGS: [(&[u8], &str); 44] = [
    (b"", ""),
    (
        b"features\n\tR",
        "1:0 Keyword(Features) 0-8@1; 2:8 Name 10-11@2; ",
    ),
    (
        b"\xef\xbb\xbfA\r\n\r\tB",
        "1:0 Name 3-4@1; 2:8 Name 8-9@2; ",
    ),
    (b"A\rB", "1:0 Name 0-1@1 Name 2-3@1; "),
    (
        b"1..2 1.5.2",
        "1:0 Number 0-1@1 Mark(Dots) 1-3@1 Number 3-4@1 Number 5-8@1 Mark(Dot) 8-9@1 Number 9-10@1; ",
    ),
    (
        b"1e 1e+ 1e+5",
        "1:0 Number 0-1@1 Name 1-2@1 Number 3-4@1 Name 4-5@1 Mark(Plus) 5-6@1 Number 7-11@1; ",
    ),
    (b"A\n /*/", "2 OpenComment"),
    (b"/**/ A // B\nC", "1:5 Name 5-6@1; 2:0 Name 12-13@2; "),
    (b"/*\n*/ A /*\n*/ B", "2:3 Name 6-7@2 Name 14-15@3; "),
    (b"/*\xc3\xa9*/\tA\xc2\xa7", "1:8 Name 7-10@1; "),
    (
        b"\"A b\" \"A.b\" \"\" '' '/*'",
        "1:0 Quoted 0-5@1 Text 6-11@1 Text 12-14@1 Text 15-17@1 Text 18-22@1; ",
    ),
    (b"A\n\"a\rb\"", "2 BadToken"),
    (b"1abc note'x'", "1:0 Number 0-1@1 Name 1-4@1 Name 5-12@1; "),
    (
        b"or orr Or",
        "1:0 Keyword(Or) 0-2@1 Name 3-6@1 Name 7-9@1; ",
    ),
    (
        b"<=> <= = =>= <",
        "1:0 Mark(Iff) 0-3@1 Mark(AtMost) 4-6@1 Mark(Assign) 7-8@1 Mark(Then) 9-11@1 Mark(Assign) 11-12@1 Mark(Less) 13-14@1; ",
    ),
    (
        b"A {\n// }\n\t} B\nC",
        "1:0 Name 0-1@1 Mark(OpenCurly) 2-3@1 Mark(CloseCurly) 10-11@3 Name 12-13@3; 4:0 Name 14-15@4; ",
    ),
    (b"(\n[\n\n", "2 OpenBracket"),
    (b"([\n)]", "2 BadToken"),
    (b"A\n( \xc2\xa7 /*", "2 BadToken"),
    (b"$\n\xc3\n\xff", "2 NotUtf8"),
    (b"features\n\tR)", "2 BadToken"),
    (b"features\n\tR /*", "2 OpenComment"),
    (b"\xff", "1 NotUtf8"),
    (b"features\n\tR {abstract", "2 OpenBracket"),
    (b"0x1", "1:0 Number 0-1@1 Name 1-3@1; "),
    (b"\"a", "1 BadToken"),
    (b"a\n 'b\n'", "2 BadToken"),
    (
        b"1.e5 1E-7",
        "1:0 Number 0-1@1 Mark(Dot) 1-2@1 Name 2-4@1 Number 5-9@1; ",
    ),
    (
        b"\xe5\x90\x8d \xf0\x9d\x92\x9c \xc3\xa9",
        "1:0 Name 0-3@1 Name 4-8@1 Name 9-11@1; ",
    ),
    (b"a\n#a", "2 BadToken"),
    (b"a#%?\\", "1:0 Name 0-5@1; "),
    (b"a\n\n]", "3 BadToken"),
    (b"(\n'", "2 BadToken"),
    (b"/* ( */\n (", "2 OpenBracket"),
    (b"a // (\n", "1:0 Name 0-1@1; "),
    (b"\xef\xbb\xbf\xef\xbb\xbf", "1 BadToken"),
    (b"\0", "1 BadToken"),
    (
        b"   \tA\n\t\tB\n       \tC\n        \tD",
        "1:8 Name 4-5@1; 2:16 Name 8-9@2; 3:8 Name 18-19@3; 4:16 Name 29-30@4; ",
    ),
    (b"/*345678*/\tA", "1:16 Name 11-12@1; "),
    (b"\n \n\r\n\n", ""),
    (
        b"<=> => == != <= >= .. ! & | ( ) [ ] { } , . * + - / < > = : ;",
        "1:0 Mark(Iff) 0-3@1 Mark(Then) 4-6@1 Mark(Equal) 7-9@1 Mark(Unequal) 10-12@1 Mark(AtMost) 13-15@1 Mark(AtLeast) 16-18@1 Mark(Dots) 19-21@1 Mark(Bang) 22-23@1 Mark(Amp) 24-25@1 Mark(Bar) 26-27@1 Mark(OpenRound) 28-29@1 Mark(CloseRound) 30-31@1 Mark(OpenSquare) 32-33@1 Mark(CloseSquare) 34-35@1 Mark(OpenCurly) 36-37@1 Mark(CloseCurly) 38-39@1 Mark(Comma) 40-41@1 Mark(Dot) 42-43@1 Mark(Star) 44-45@1 Mark(Plus) 46-47@1 Mark(Minus) 48-49@1 Mark(Slash) 50-51@1 Mark(Less) 52-53@1 Mark(Greater) 54-55@1 Mark(Assign) 56-57@1 Mark(Colon) 58-59@1 Mark(Semicolon) 60-61@1; ",
    ),
    (
        b"namespace include imports features constraints mandatory optional or alternative cardinality Boolean Integer Real String true false",
        "1:0 Keyword(Namespace) 0-9@1 Keyword(Include) 10-17@1 Keyword(Imports) 18-25@1 Keyword(Features) 26-34@1 Keyword(Constraints) 35-46@1 Keyword(Mandatory) 47-56@1 Keyword(Optional) 57-65@1 Keyword(Or) 66-68@1 Keyword(Alternative) 69-80@1 Keyword(Cardinality) 81-92@1 Keyword(Boolean) 93-100@1 Keyword(Integer) 101-108@1 Keyword(Real) 109-113@1 Keyword(String) 114-120@1 Keyword(True) 121-125@1 Keyword(False) 126-131@1; ",
    ),
    (
        b"A {x,\r\n y} /*\r\n*/ B\r\nC",
        "1:0 Name 0-1@1 Mark(OpenCurly) 2-3@1 Name 3-4@1 Mark(Comma) 4-5@1 Name 8-9@2 Mark(CloseCurly) 9-10@2 Name 18-19@3; 4:0 Name 21-22@4; ",
    ),
    (
        b"'(' \"[.\" \"{\"",
        "1:0 Text 0-3@1 Text 4-8@1 Quoted 9-12@1; ",
    ),
];

fn shown(alloc: Global, bytes: &[u8]) -> Result<String, Fail> {
    let mut out = String::new(alloc);
    if bytes.len() > 16_777_216 {
        return Ok(out);
    }
    match logical_lines(alloc, bytes) {
        Ok(lines) => {
            for line in lines.as_slice() {
                write!(out, "{}:{}", line.number, line.indent)?;
                show_tokens(&mut out, line.tokens.as_slice())?;
                write!(out, "; ")?;
            }
        }
        Err(LexError::Refused { line, reason }) => write!(out, "{line} {reason:?}")?,
        Err(LexError::Memory) => write!(out, "no memory")?,
    }
    Ok(out)
}

fn show_tokens(out: &mut String, tokens: &[Token]) -> Result<(), Fail> {
    for token in tokens {
        write!(
            out,
            " {:?} {}-{}@{}",
            token.kind, token.start, token.end, token.line
        )?;
    }
    Ok(())
}

#[test]
fn reads_each_edge(rt: HostRuntime) -> Result<(), Fail> {
    for (bytes, want) in READINGS {
        let found = shown(rt.alloc(), bytes)?;
        assert_eq!(rt; found.as_str(), want, "of {bytes:?}");
    }
    Ok(())
}

#[test]
fn drops_quotes(rt: HostRuntime) {
    let bytes = b"a 'b c'";
    let name = Token {
        kind: TokenKind::Name,
        start: 0,
        end: 1,
        line: 1,
    };
    let text = Token {
        kind: TokenKind::Text,
        start: 2,
        end: 7,
        line: 1,
    };
    assert!(rt; text_of(bytes, &name) == b"a".as_slice());
    assert!(rt; text_of(bytes, &text) == b"b c".as_slice());
}

#[test]
fn lists_in_order(rt: HostRuntime) -> Result<(), Fail> {
    let lines = logical_lines(rt.alloc(), b"a\n\tb c")?;
    assert_eq!(rt; lines.len(), 2);
    let line = lines.get(1);
    assert_eq!(rt; line.tokens.len(), 2);
    assert_eq!(rt; line.tokens.get(1).start, 5);
    Ok(())
}
