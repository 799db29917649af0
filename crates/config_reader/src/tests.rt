//! Files as they come, and the calls on a configuration.
ghost use Rattle.std.specs.Prelude.{◌≡◌, ◌≤◌, length, IsTrue};

use super::*;
use feature_tree::{Formula, GroupKind, Model, Row, Text, Tree};
use std::alloc::Global;
use std::fmt::Write;
use std::test::Fail;

/// Files over a model with the features `R` and `A`, and what is read of them: each requirement's text and formula, after a
/// `|` the musts; or the refusal.
const FILES: [(&[u8], &str); 24] = [
    (b"", "|"),
    (b"A\n!A\n", "[A 1][!A !1]|"),
    (b"Camra", "1 Unknown"),
    (b"A &", "1 BadFormula"),
    (b"A > 3", "1 Unsupported"),
    (b"A B", "1 BadFormula"),
    (b"\tA  =>\"R\" // why", "[A =>\"R\" (1>0)]|"),
    (b"(A\n)\nX", "3 Unknown"),
    (b"A\n\xff", "2 NotUtf8"),
    (b"A }", "1 BadToken"),
    (b"R\n/* A", "2 OpenComment"),
    (b"R\n(A", "2 OpenBracket"),
    (b"version 2", "|"),
    (b"version 3", "1 Unsupported"),
    (b"A\nversion 2", "2 Unsupported"),
    (b"version 2\ntier 0", "2 BadTier"),
    (b"version 2\ntier 10000", "2 BadTier"),
    (b"version 2\ntier 9999\nA", "[A 1]|"),
    (b"version 2\nmust & A", "2 Unknown"),
    (b"version 2\nmust true", "2 Unsupported"),
    (b"version 2\nmust A &", "2 BadFormula"),
    (
        b"version 2\nmust R\ntier 2\nA\nR\ntier 1\n! A\nmust (A)\nR",
        "[! A !1][R 0][A 1][R 0]|[R 0][(A) 1]",
    ),
    (
        b"version 2\ntier 3\nA\ntier 2\nR\ntier 3\n!A",
        "[R 0][A 1][!A !1]|",
    ),
    (b"/**/version/**/2\n must  !\"A\"", "|[!\"A\" !1]"),
];

/// A root `R` with an optional child `A`.
fn model(alloc: Global) -> Result<Model, Fail> {
    let mut tree = Tree::new(alloc, Text::from_slice(alloc, b"R")?)?;
    tree.add_group(
        alloc,
        0,
        GroupKind::Optional,
        0,
        None,
        Text::from_slice(alloc, b"A")?,
    )?;
    Ok(tree.into_model(Row::new(alloc)))
}

/// What is read of the bytes.
fn shown(alloc: Global, bytes: &[u8], model: &Model) -> Result<String, Fail> {
    let mut out = String::new(alloc);
    if bytes.len() > 16_777_216 {
        return Ok(out);
    }
    match read_config(alloc, bytes, model) {
        Ok(config) => show_config(&mut out, &config)?,
        Err(ConfigError::Refused { line, reason }) => write!(out, "{line} {reason:?}")?,
        Err(ConfigError::Memory) => write!(out, "no memory")?,
    }
    Ok(out)
}

fn show_config(out: &mut String, config: &Config) -> Result<(), Fail> {
    show_all(out, config.requirements.as_slice())?;
    write!(out, "|")?;
    show_all(out, config.musts.as_slice())
}

fn show_all(out: &mut String, requirements: &[Requirement]) -> Result<(), Fail> {
    for requirement in requirements {
        write!(out, "[")?;
        for byte in requirement.text.as_slice() {
            write!(out, "{}", char::from(*byte))?;
        }
        write!(out, " ")?;
        show(out, &requirement.formula)?;
        write!(out, "]")?;
    }
    Ok(())
}

#[cycle(show)]
fn show(out: &mut String, formula: &Formula) -> Result<(), Fail> {
    match formula {
        Formula::Name(feature) => write!(out, "{feature}")?,
        Formula::Not(part) => {
            write!(out, "!")?;
            show(out, part.get())?;
        }
        Formula::Implies(left, right) => {
            write!(out, "(")?;
            show(out, left.get())?;
            write!(out, ">")?;
            show(out, right.get())?;
            write!(out, ")")?;
        }
        _ => write!(out, "..")?,
    }
    Ok(())
}

#[test]
fn reads_files(rt: HostRuntime) -> Result<(), Fail> {
    let model = model(rt.alloc())?;
    for (bytes, want) in FILES {
        let found = shown(rt.alloc(), bytes, &model)?;
        assert_eq!(rt; found.as_str(), want, "of {bytes:?}");
    }
    Ok(())
}

/// A first line, and so many further ones.
fn many(alloc: Global, first: &[u8], line: &[u8], times: usize) -> Result<Vec<u8>, Fail> {
    let mut bytes = Vec::new(alloc);
    bytes.extend_from_slice(first)?;
    for _ in 0..times {
        bytes.extend_from_slice(line)?;
    }
    Ok(bytes)
}

/// How many requirements and musts are read, or the refusal.
fn counted(alloc: Global, bytes: &[u8], model: &Model) -> Result<String, Fail> {
    let mut out = String::new(alloc);
    if bytes.len() > 16_777_216 {
        return Ok(out);
    }
    match read_config(alloc, bytes, model) {
        Ok(config) => write!(out, "{} {}", config.requirements.len(), config.musts.len())?,
        Err(error) => write!(out, "{error}")?,
    }
    Ok(out)
}

#[test]
fn reads_as_many_as_there_may_be(rt: HostRuntime) -> Result<(), Fail> {
    let alloc = rt.alloc();
    let model = model(alloc)?;
    let full = many(alloc, b"", b"R\n", 4_096)?;
    assert_eq!(rt; counted(alloc, &full, &model)?.as_str(), "4096 0");
    let over = many(alloc, b"", b"R\n", 4_097)?;
    let refused = "line 4097: too many requirements or musts";
    assert_eq!(rt; counted(alloc, &over, &model)?.as_str(), refused);
    let musts = many(alloc, b"version 2\nA\n", b"must R\n", 4_096)?;
    assert_eq!(rt; counted(alloc, &musts, &model)?.as_str(), "1 4096");
    let over = many(alloc, b"version 2\nA\n", b"must R\n", 4_097)?;
    let refused = "line 4099: too many requirements or musts";
    assert_eq!(rt; counted(alloc, &over, &model)?.as_str(), refused);
    Ok(())
}

/// The configuration whose requirements are the musts of these bytes.
fn musts_of(alloc: Global, bytes: &[u8], model: &Model) -> Result<String, Fail> {
    let mut out = String::new(alloc);
    if bytes.len() > 16_777_216 {
        return Ok(out);
    }
    if let Ok(config) = read_config(alloc, bytes, model) {
        if config.musts.len() <= 4_096 {
            show_config(&mut out, &config.of_musts(alloc)?)?;
        }
    }
    Ok(out)
}

#[test]
fn musts_become_requirements(rt: HostRuntime) -> Result<(), Fail> {
    let alloc = rt.alloc();
    let model = model(alloc)?;
    let found = musts_of(alloc, b"version 2\nmust A => !R\nA\nmust R", &model)?;
    assert_eq!(rt; found.as_str(), "[A => !R (1>!0)][R 0]|");
    Ok(())
}
