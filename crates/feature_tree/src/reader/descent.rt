//! Reads tokens that are known to be a formula. It descends only where the height grows, by `!` and `(`; a chain is a loop.
ghost use Rattle.std.specs.Prelude.{◌≡◌, ◌^◌, ◌+◌, ◌<◌, ◌≤◌, length, slice_get, IfSome, IfOk, IsTrue, IsFalse};
ghost use Rattle.feature_tree.specs.Roles.{roles_of};
ghost use Rattle.feature_tree.specs.Grammar.{chain, unary, member_of};
ghost use Rattle.feature_tree.specs.inside.Descent.{Answers, read, joins_at, closed, is_one_node, IsPast};

use crate::reader::error::FormulaError;
use crate::reader::parsed::{Parsed, from_the_left, one_node};
use crate::reader::role::{Level, Role};
use lists::Row;
use std::alloc::Global;
use uvl_lex::Token;

/// A part that was read, and the number of the token after it.
#[derive(Debug, Drop)]
pub(crate) struct Found {
    pub parsed: Parsed,
    pub after: usize,
}

/// The role of the token with this number.
pub(crate) fn role_at(tokens: &[Token], at: usize) -> Option<Role>
    ensures role { result ≡ slice_get (roles_of tokens.now) at }
    ensures within { IfSome result (λ _. at < length tokens.now) }
{
    let token = tokens.get(at)?;
    Some(Role::of(token.kind))
}

/// Whether the token with this number joins members of a chain of this level.
#[tactic(auto, unfolding(crate::specs::inside::Descent::joins_at))]
fn joins_at(tokens: &[Token], at: usize, level: Level) -> bool
    ensures value { result ≡ joins_at (roles_of tokens.now) level at }
    ensures within { IsTrue result → at < length tokens.now }
{
    match role_at(tokens, at) {
        Some(role) => role.joins(level),
        None => false,
    }
}

/// The part with the parentheses round it, of which the first stands before it.
#[tactic(auto, unfolding(crate::specs::inside::Descent::closed))]
fn closed(tokens: &[Token], part: Found) -> Result<Found, FormulaError>
    requires { part.parsed.height + 1 < 2 ^ 32 }
    ensures answers { Answers result (closed (roles_of tokens.now) part) }
    ensures past { IfOk result (λ whole. (whole.after ≡ part.after + 1) × (whole.after ≤ length tokens.now)) }
    ensures height { IfOk result (λ whole. whole.parsed.height ≡ part.parsed.height + 1) }
{
    let Found { parsed, after } = part;
    match role_at(tokens, after) {
        Some(Role::Closes) => Ok(Found {
            parsed: parsed.enclosed(),
            after: after + 1,
        }),
        _ => Err(FormulaError::BadFormula),
    }
}

/// Reads a `not`, of a height of at most `room`.
#[cycle(descent)]
fn read_not(alloc: Global, tokens: &[Token], at: usize, room: u32) -> Result<Found, FormulaError>
    requires few { length tokens.now < 2 ^ 32 }
    requires narrow { room + 1 < 2 ^ 32 }
    ensures answers { Answers result (read (roles_of tokens.now) unary room at) }
    ensures past { IfOk result (IsPast room at (length tokens.now)) }
{
    if room == 0 {
        return Err(FormulaError::TooDeep);
    }
    match role_at(tokens, at) {
        Some(Role::Name) => Ok(Found {
            parsed: Parsed::named(at as u32),
            after: at + 1,
        }),
        Some(Role::Not) => {
            let Found { parsed, after } = read_not(alloc, tokens, at + 1, room - 1)?;
            let parsed = parsed.negated(alloc)?;
            Ok(Found { parsed, after })
        }
        Some(Role::Opens) => {
            let part = read_chain(alloc, tokens, at + 1, Level::Same, room - 1)?;
            closed(tokens, part)
        }
        _ => Err(FormulaError::BadFormula),
    }
}

/// Reads a member of a chain of this level.
#[cycle(descent)]
fn read_member(
    alloc: Global,
    tokens: &[Token],
    at: usize,
    level: Level,
    room: u32,
) -> Result<Found, FormulaError>
    requires few { length tokens.now < 2 ^ 32 }
    requires narrow { room + 1 < 2 ^ 32 }
    ensures answers { Answers result (read (roles_of tokens.now) (member_of level) room at) }
    ensures past { IfOk result (IsPast room at (length tokens.now)) }
{
    match level {
        Level::Same => read_chain(alloc, tokens, at, Level::Implies, room),
        Level::Implies => read_chain(alloc, tokens, at, Level::Any, room),
        Level::Any => read_chain(alloc, tokens, at, Level::All, room),
        Level::All => read_not(alloc, tokens, at, room),
    }
}

/// Reads a chain of this level.
#[cycle(descent)]
pub(crate) fn read_chain(
    alloc: Global,
    tokens: &[Token],
    at: usize,
    level: Level,
    room: u32,
) -> Result<Found, FormulaError>
    requires few { length tokens.now < 2 ^ 32 }
    requires narrow { room + 1 < 2 ^ 32 }
    ensures answers { Answers result (read (roles_of tokens.now) (chain level) room at) }
    ensures past { IfOk result (IsPast room at (length tokens.now)) }
{
    if level.is_one_node() {
        read_node(alloc, tokens, at, level, room)
    } else {
        read_pairs(alloc, tokens, at, level, room)
    }
}

/// Reads a chain that groups from the left.
#[cycle(descent)]
fn read_pairs(
    alloc: Global,
    tokens: &[Token],
    at: usize,
    level: Level,
    room: u32,
) -> Result<Found, FormulaError>
    requires few { length tokens.now < 2 ^ 32 }
    requires narrow { room + 1 < 2 ^ 32 }
    requires pairs { IsFalse (is_one_node level) }
    ensures answers { Answers result (read (roles_of tokens.now) (chain level) room at) }
    ensures past { IfOk result (IsPast room at (length tokens.now)) }
{
    let Found {
        parsed: first,
        mut after,
    } = read_member(alloc, tokens, at, level, room)?;
    let mut others = Vec::new(alloc);
    'members: while joins_at(tokens, after, level) {
        let Found { parsed, after: end } = read_member(alloc, tokens, after + 1, level, room)?;
        others.push(parsed)?;
        after = end;
    }
    let parsed = from_the_left(alloc, level, first, others, room)?;
    Ok(Found { parsed, after })
}

/// Reads a chain that is one node. Of its members it keeps the formulas and the greatest height.
#[cycle(descent)]
fn read_node(
    alloc: Global,
    tokens: &[Token],
    at: usize,
    level: Level,
    room: u32,
) -> Result<Found, FormulaError>
    requires few { length tokens.now < 2 ^ 32 }
    requires narrow { room + 1 < 2 ^ 32 }
    requires node { IsTrue (is_one_node level) }
    ensures answers { Answers result (read (roles_of tokens.now) (chain level) room at) }
    ensures past { IfOk result (IsPast room at (length tokens.now)) }
{
    let Found {
        parsed: first,
        mut after,
    } = read_member(alloc, tokens, at, level, room)?;
    if !joins_at(tokens, after, level) {
        return Ok(Found {
            parsed: first,
            after,
        });
    }
    let Parsed {
        formula,
        mut height,
    } = first;
    let mut parts = Row::new(alloc);
    parts.push(formula)?;
    'members: while joins_at(tokens, after, level) {
        let Found { parsed, after: end } = read_member(alloc, tokens, after + 1, level, room)?;
        let Parsed {
            formula,
            height: next,
        } = parsed;
        parts.push(formula)?;
        height = height.max(next);
        after = end;
    }
    let parsed = one_node(level, parts, height, room)?;
    Ok(Found { parsed, after })
}
