//! The two texts.
ghost use Rattle.std.specs.Prelude.{◌≡◌, ◌≤◌, ◌++◌, ◌+◌, ◌*◌, ℕ, IfOk, OnOk, map, List};
ghost use Rattle.std.specs.List.{range_with_len, flat_map};
ghost use Rattle.model_gen.specs.Draws.{state_after};
ghost use Rattle.model_gen.specs.Lines.{kind_by, kinds as kinds_of, parent_count, constraint_count, constraints, wishes, draws_before_wishes};
ghost use Rattle.model_gen.specs.Texts.{constraint_section, wish_line, model_text, config_text};

use crate::draws::Draws;
use crate::lines::{push_constraint, push_wish};
use crate::tree::push_tree;
use diag_base::Bytes;
use feature_tree::GroupKind;
use lists::Row;
use std::alloc::{AllocError, Global};

/// The kind with this number, below 4.
fn kind_by_number(number: u32) -> GroupKind
    ensures { result ≡ kind_by number }
{
    match number {
        0 => GroupKind::Mandatory,
        1 => GroupKind::Optional,
        2 => GroupKind::Or,
        _ => GroupKind::Range,
    }
}

/// Draws the kinds of all groups.
fn draw_kinds(alloc: Global, draws: &mut Draws, size: u32) -> Result<Row<GroupKind>, AllocError>
    requires { size ≤ 60000 }
    ensures kinds { IfOk result (λ kinds. kinds ≡ kinds_of draws.old.state size) }
    ensures state { IfOk result (λ kinds. draws.new.state ≡ state_after draws.old.state (parent_count size)) }
{
    let mut kinds = Row::new(alloc);
    'parents: for _ in 0..(size + 3) / 4 {
        kinds.push(kind_by_number(draws.below(4)))?;
    }
    Ok(kinds)
}

/// Draws the constraints, and appends their section.
fn push_constraints(
    alloc: Global,
    text: &mut Bytes,
    draws: &mut Draws,
    size: u32,
) -> Result<(), AllocError>
    requires { size ≤ 60000 }
    ensures text { (seed : ℕ) → draws.old.state ≡ state_after seed (parent_count size) → OnOk result (text.new ≡ text.old ++ constraint_section (constraints seed size)) }
    ensures state { (seed : ℕ) → draws.old.state ≡ state_after seed (parent_count size) → OnOk result (draws.new.state ≡ state_after seed (draws_before_wishes size)) }
{
    let count = size / 4;
    if count == 0 {
        return Ok(());
    }
    text.extend_from_slice(b"constraints\n")?;
    'constraints: for _ in 0..count {
        let feature = draws.below(size + 1);
        let needed = draws.below(size + 1);
        push_constraint(alloc, text, feature, needed)?;
    }
    Ok(())
}

/// Draws the requirements.
fn draw_wishes(alloc: Global, draws: &mut Draws, size: u32) -> Result<Bytes, AllocError>
    requires { size ≤ 60000 }
    ensures { (seed : ℕ) → draws.old.state ≡ state_after seed (draws_before_wishes size) → IfOk result (λ text. text ≡ flat_map wish_line (wishes seed size)) }
{
    let mut text = Bytes::new(alloc);
    'wishes: for _ in 0..(size / 8).max(1).min(4096) {
        let feature = draws.below(size + 1);
        let unwanted = draws.below(4) == 0;
        push_wish(alloc, &mut text, feature, unwanted)?;
    }
    Ok(text)
}

/// The model's text and the configuration's, for a product line of `size` features beside the root.
pub fn generate(alloc: Global, seed: u32, size: u32) -> Result<(Bytes, Bytes), AllocError>
    requires some { 1 ≤ size }
    requires few { size ≤ 60000 }
    ensures model { IfOk result (λ texts. texts.0 ≡ model_text seed size) }
    ensures config { IfOk result (λ texts. texts.1 ≡ config_text seed size) }
{
    let mut draws = Draws { state: seed };
    let kinds = draw_kinds(alloc, &mut draws, size)?;
    let mut model = Bytes::from_slice(alloc, b"features\n")?;
    push_tree(alloc, &mut model, size, kinds.as_slice())?;
    push_constraints(alloc, &mut model, &mut draws, size)?;
    let config = draw_wishes(alloc, &mut draws, size)?;
    Ok((model, config))
}
