//! The parts of a certificate: what the search gives for the set that a part is about.
ghost use Rattle.std.specs.Prelude.{◌≡◌, ◌++◌, ◌≤◌, IfOk, OnOk, Some, codes, length};
ghost use Rattle.std.specs.List.{flat_map};
ghost use Rattle.clauses.specs.Search.{search_of};
ghost use Rattle.solver.specs.Answers.{IsRight, meaning};
ghost use Rattle.certificate.specs.Sets.{given_up};
ghost use Rattle.certificate.specs.Text.{derivation_line, found_derivation, found_product};
ghost use Rattle.certificate.specs.inside.Parts.{need_lines, refuted_lines};

use crate::keys::{needed_key, refuted_key};
use crate::line_texts::{push_derivation_line, push_numbered, push_product_line};
use clauses::Clause;
use diag_base::Bytes;
use feature_tree::Model;
use req_keys::Key;
use solver::{Answer, NoStop, Searcher, SolveError};
use std::alloc::{AllocError, Global};

/// What the search answers for the key.
fn answer_of(searcher: &mut Searcher<'_>, key: &Key) -> Result<Answer, AllocError>
    requires { key.now.n ≡ length searcher.old.roots }
    ensures answer { IfOk result (λ answer. search_of searcher.old key.now ≡ Some (meaning answer)) }
    ensures same { searcher.new ≡ searcher.old }
{
    match searcher.answer(key, &mut NoStop) {
        Ok(answer) => Ok(answer),
        // Nobody stops the search, so this is want of memory.
        Err(SolveError::Memory | SolveError::Stopped) => Err(AllocError),
    }
}

/// Appends the product that the search finds for the key.
pub(crate) fn push_product(
    alloc: Global,
    text: &mut Bytes,
    searcher: &mut Searcher<'_>,
    model: &Model,
    key: &Key,
) -> Result<(), AllocError>
    requires { key.now.n ≡ length searcher.old.roots }
    ensures text { OnOk result (text.new ≡ text.old ++ found_product model.now (search_of searcher.old key.now)) }
    ensures same { searcher.new ≡ searcher.old }
{
    let Answer::Sat(values) = answer_of(searcher, key)? else {
        return Ok(());
    };
    let features = model.features.len().min(values.len());
    push_product_line(alloc, text, &values.as_slice()[..features])
}

/// Appends the derivation that the search finds for the key.
pub(crate) fn push_derivation(
    alloc: Global,
    text: &mut Bytes,
    searcher: &mut Searcher<'_>,
    key: &Key,
) -> Result<(), AllocError>
    requires { key.now.n ≡ length searcher.old.roots }
    ensures text { OnOk result (text.new ≡ text.old ++ found_derivation (search_of searcher.old key.now)) }
    ensures same { searcher.new ≡ searcher.old }
{
    let Answer::Unsat(lines) = answer_of(searcher, key)? else {
        return Ok(());
    };
    push_derivation_lines(alloc, text, lines.as_slice())
}

fn push_derivation_lines(
    alloc: Global,
    text: &mut Bytes,
    lines: &[Clause],
) -> Result<(), AllocError>
    ensures { OnOk result (text.new ≡ text.old ++ flat_map derivation_line lines.now) }
{
    for clause in lines {
        push_derivation_line(alloc, text, clause.as_slice())?;
    }
    Ok(())
}

/// Appends that the requirement at this position can't join what is kept before it.
fn push_refuted(
    alloc: Global,
    text: &mut Bytes,
    searcher: &mut Searcher<'_>,
    kept: &Key,
    position: u32,
) -> Result<(), AllocError>
    requires kept { kept.now.n ≡ length searcher.old.roots }
    requires counted { 1 ≤ position }
    requires within { position ≤ kept.now.n }
    ensures text { OnOk result (text.new ≡ text.old ++ refuted_lines searcher.old kept.now position) }
    ensures same { searcher.new ≡ searcher.old }
{
    let key = refuted_key(alloc, kept, position)?;
    push_numbered(alloc, text, b"refute ", position)?;
    push_derivation(alloc, text, searcher, &key)
}

/// Appends a part for each requirement that isn't kept.
pub(crate) fn push_all_refuted(
    alloc: Global,
    text: &mut Bytes,
    searcher: &mut Searcher<'_>,
    kept: &Key,
) -> Result<(), AllocError>
    requires { kept.now.n ≡ length searcher.old.roots }
    ensures text { OnOk result (text.new ≡ text.old ++ flat_map (refuted_lines searcher.old kept.now) (given_up kept.now.n kept.now.members)) }
    ensures same { searcher.new ≡ searcher.old }
{
    for i in 0..kept.n() {
        let position = i + 1;
        if !kept.contains(position) {
            push_refuted(alloc, text, searcher, kept, position)?;
        }
    }
    Ok(())
}

/// Appends that this member of the conflict is needed.
fn push_need(
    alloc: Global,
    text: &mut Bytes,
    searcher: &mut Searcher<'_>,
    model: &Model,
    conflict: &Key,
    member: u32,
) -> Result<(), AllocError>
    requires conflict { conflict.now.n ≡ length searcher.old.roots }
    requires counted { 1 ≤ member }
    requires within { member ≤ conflict.now.n }
    ensures text { OnOk result (text.new ≡ text.old ++ need_lines model.now searcher.old conflict.now member) }
    ensures same { searcher.new ≡ searcher.old }
{
    let key = needed_key(alloc, conflict, member)?;
    push_numbered(alloc, text, b"need ", member)?;
    push_product(alloc, text, searcher, model, &key)
}

/// Appends a part for each member of the conflict.
pub(crate) fn push_all_needs(
    alloc: Global,
    text: &mut Bytes,
    searcher: &mut Searcher<'_>,
    model: &Model,
    conflict: &Key,
) -> Result<(), AllocError>
    requires { conflict.now.n ≡ length searcher.old.roots }
    ensures text { OnOk result (text.new ≡ text.old ++ flat_map (need_lines model.now searcher.old conflict.now) conflict.now.members) }
    ensures same { searcher.new ≡ searcher.old }
{
    for i in 0..conflict.n() {
        let member = i + 1;
        if conflict.contains(member) {
            push_need(alloc, text, searcher, model, conflict, member)?;
        }
    }
    Ok(())
}
