//! Tier lines, and the order by tiers.
ghost use Rattle.std.specs.Prelude.{◌≡◌, ◌≤◌, All, IfOk, length, vec_len};
ghost use Rattle.config_reader.specs.Kinds.{tier_of, tier_of_line, decimal_after};
ghost use Rattle.config_reader.specs.Tiers.{in_order, by_tier};
ghost use Rattle.uvl_lex.specs.Text.{IsSpanOf};

use crate::config::Requirements;
use crate::placed::Placed;
use lists::Row;
use std::alloc::{AllocError, Global};
use uvl_lex::{Token, text_of};

/// The tier that a tier line sets, if it is one.
pub(crate) fn tier_of_line(bytes: &[u8], tokens: &[Token]) -> Option<u32>
    requires { All (IsSpanOf bytes.now) tokens.now }
    ensures { result ≡ tier_of_line bytes.now tokens.now }
{
    match tokens {
        [_, second] => tier_of(text_of(bytes, second)),
        _ => None,
    }
}

/// The tier that these bytes write.
fn tier_of(digits: &[u8]) -> Option<u32>
    ensures { result ≡ tier_of digits.now }
{
    match digits {
        [b'0', ..] | [] => None,
        _ if 4 < digits.len() => None,
        _ => decimal(digits),
    }
}

/// The number that at most four digits write.
fn decimal(digits: &[u8]) -> Option<u32>
    requires { length digits.now ≤ 4 }
    ensures { result ≡ decimal_after 0 digits.now }
{
    let mut number = 0u32;
    for digit in digits {
        if !digit.is_ascii_digit() {
            return None;
        }
        number = number * 10 + u32::from(*digit - b'0');
    }
    Some(number)
}

/// The requirements, the lowest tier first, and within a tier by place.
pub(crate) fn by_tier(alloc: Global, placed: Vec<Placed>) -> Result<Requirements, AllocError>
    ensures ordered { IfOk result (λ requirements. requirements ≡ by_tier placed.items) }
    ensures all { IfOk result (λ requirements. length requirements ≡ vec_len placed) }
{
    let ordered = in_order(placed)?;
    let mut requirements: Requirements = Row::new(alloc);
    for one in ordered {
        let Placed { requirement, .. } = one;
        requirements.push(requirement)?;
    }
    Ok(requirements)
}

/// The same with their tiers.
fn in_order(placed: Vec<Placed>) -> Result<Vec<Placed>, AllocError>
    ensures ordered { IfOk result (λ ordered. ordered.items ≡ in_order placed.items) }
    ensures all { IfOk result (λ ordered. vec_len ordered ≡ vec_len placed) }
{
    let mut ordered = placed;
    ordered.sort_by_key(|one| one.tier)?;
    Ok(ordered)
}
