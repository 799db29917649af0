//! The text of a whole certificate.
ghost use Rattle.std.specs.Prelude.{◌≡◌, ◌≤◌, ◌++◌, IfOk, IfSome, OnOk, length};
ghost use Rattle.clause_form.specs.ClauseForm.{problem_of};
ghost use Rattle.certificate.specs.Text.{certificate_text};
ghost use Rattle.certificate.specs.Writing.{IsOver};
ghost use Rattle.certificate.specs.inside.Parts.{outcome_lines, parts_lines, sets_lines};

use crate::line_texts::push_listed;
use crate::searched::{push_all_needs, push_all_refuted, push_derivation, push_product};
use clauses::Problem;
use config_reader::Config;
use diag_base::Bytes;
use feature_tree::Model;
use req_keys::Key;
use script::{Outcome, Parts};
use solver::Searcher;
use std::alloc::{AllocError, Global};

/// The certificate of what a job on the problem of the two found out. There is none for a limit: then it is empty. Each set is
/// searched again.
pub fn write_certificate(
    alloc: Global,
    model: &Model,
    config: &Config,
    problem: &Problem,
    outcome: &Outcome,
) -> Result<Bytes, AllocError>
    requires problem { problem.now ≡ problem_of model.now config.now problem.now.allowance problem.now.rungs }
    requires outcome { IsOver (length config.now.requirements) outcome.now }
    ensures { IfOk result (λ text. text ≡ certificate_text model.now config.now problem.now outcome.now) }
{
    if let Outcome::LimitAt { .. } = outcome {
        return Ok(Bytes::new(alloc));
    }
    let mut text = Bytes::from_slice(alloc, b"certificate 1\n")?;
    let mut searcher = Searcher::new(alloc, problem)?;
    push_outcome(alloc, &mut text, &mut searcher, model, problem.n(), outcome)?;
    text.extend_from_slice(b"end\n")?;
    Ok(text)
}

/// Appends what stands between the first line and the last.
fn push_outcome(
    alloc: Global,
    text: &mut Bytes,
    searcher: &mut Searcher<'_>,
    model: &Model,
    n: u32,
    outcome: &Outcome,
) -> Result<(), AllocError>
    requires n { n ≡ length searcher.old.roots }
    requires most { n ≤ 4096 }
    requires outcome { IsOver n outcome.now }
    ensures { OnOk result (text.new ≡ text.old ++ outcome_lines model.now searcher.old n outcome.now) }
{
    match outcome {
        Outcome::Consistent => {
            text.extend_from_slice(b"consistent\n")?;
            push_product(alloc, text, searcher, model, &Key::full(alloc, n)?)
        }
        Outcome::Background => {
            text.extend_from_slice(b"background\n")?;
            push_derivation(alloc, text, searcher, &Key::empty(alloc, n)?)
        }
        Outcome::Explained(parts) => push_parts(alloc, text, searcher, model, parts),
        Outcome::LimitAt { .. } => Ok(()),
    }
}

/// Appends the parts of what is explained, if both are there.
fn push_parts(
    alloc: Global,
    text: &mut Bytes,
    searcher: &mut Searcher<'_>,
    model: &Model,
    parts: &Parts,
) -> Result<(), AllocError>
    requires kept { IfSome parts.now.kept (λ key. key.n ≡ length searcher.old.roots) }
    requires conflict { IfSome parts.now.conflict (λ key. key.n ≡ length searcher.old.roots) }
    ensures { OnOk result (text.new ≡ text.old ++ parts_lines model.now searcher.old parts.now.kept parts.now.conflict) }
{
    let Some(kept) = &parts.kept else {
        return Ok(());
    };
    let Some(conflict) = &parts.conflict else {
        return Ok(());
    };
    push_sets(alloc, text, kept, conflict)?;
    push_product(alloc, text, searcher, model, kept)?;
    push_all_refuted(alloc, text, searcher, kept)?;
    text.extend_from_slice(b"refute conflict\n")?;
    push_derivation(alloc, text, searcher, conflict)?;
    push_all_needs(alloc, text, searcher, model, conflict)
}

/// Appends which requirements are kept, and which are the conflict.
fn push_sets(alloc: Global, text: &mut Bytes, kept: &Key, conflict: &Key) -> Result<(), AllocError>
    ensures { OnOk result (text.new ≡ text.old ++ sets_lines kept.now conflict.now) }
{
    text.extend_from_slice(b"explained\n")?;
    push_listed(alloc, text, b"kept ", kept.positions()?.as_slice())?;
    push_listed(alloc, text, b"conflict ", conflict.positions()?.as_slice())
}
