//! The report as a whole.
ghost use Rattle.std.specs.Prelude.{◌≡◌, ◌≤◌, ◌++◌, IfOk, OnOk, length, option_map, codes};
ghost use Rattle.report.specs.Lines.{line};
ghost use Rattle.report.specs.Report.{finding_lines, if_known, must_finding_lines, must_parts_lines, parts_lines, report, result_word};
ghost use Rattle.report.specs.inside.Counts.{counted};

use crate::counts::Counts;
use crate::lines::{
    push_checks_line, push_limit, push_listing, push_model_line, push_musts_line,
    push_requirements_line,
};
use crate::members::{push_conflict, push_diagnosis};
use config_reader::{Config, Requirement};
use diag_base::Bytes;
use feature_tree::Model;
use script::{Outcome, Parts};
use std::alloc::{AllocError, Global};

/// The report on a model and a configuration, with the outcome of the job, which lists up to a size or not at all, that of the
/// second job where there was one, and the counts of both together.
pub fn report_of(
    alloc: Global,
    model: &Model,
    config: &Config,
    list: Option<u32>,
    first: &Outcome,
    second: Option<&Outcome>,
    counts: Counts,
) -> Result<Bytes, AllocError>
    requires { length config.now.musts ≤ 4096 }
    ensures { IfOk result (λ text. text ≡ report model.now config.now list first.now (option_map (λ outcome. outcome.now) second.entry) (counted counts)) }
{
    let mut text = Bytes::from_slice(alloc, b"diag 1\n")?;
    push_model_line(alloc, &mut text, model)?;
    push_requirements_line(alloc, &mut text, config.requirements.as_slice())?;
    push_musts_line(alloc, &mut text, config.musts.as_slice())?;
    push_result_line(&mut text, first)?;
    push_must_findings(alloc, &mut text, config.musts.as_slice(), second)?;
    push_findings(
        alloc,
        &mut text,
        config.requirements.as_slice(),
        list,
        first,
    )?;
    push_checks_line(alloc, &mut text, counts)?;
    text.extend_from_slice(b"end\n")?;
    Ok(text)
}

fn push_result_line(text: &mut Bytes, outcome: &Outcome) -> Result<(), AllocError>
    ensures { OnOk result (text.new ≡ text.old ++ line (codes "result " ++ result_word outcome.now)) }
{
    text.extend_from_slice(match outcome {
        Outcome::Consistent => b"result consistent\n",
        Outcome::Background => b"result background\n",
        Outcome::Explained(_) => b"result explained\n",
        Outcome::LimitAt { .. } => b"result limit\n",
    })
}

/// Appends what was found out beyond the result.
fn push_findings(
    alloc: Global,
    text: &mut Bytes,
    requirements: &[Requirement],
    list: Option<u32>,
    outcome: &Outcome,
) -> Result<(), AllocError>
    requires { length requirements.now ≤ 4096 }
    ensures { OnOk result (text.new ≡ text.old ++ finding_lines requirements.now list outcome.now) }
{
    match outcome {
        Outcome::Consistent | Outcome::Background => Ok(()),
        Outcome::Explained(parts) => push_parts(alloc, text, requirements, list, parts),
        Outcome::LimitAt { part, key, before } => {
            push_parts(alloc, text, requirements, list, before)?;
            push_limit(alloc, text, *part, key)
        }
    }
}

/// Appends the parts that are known.
fn push_parts(
    alloc: Global,
    text: &mut Bytes,
    requirements: &[Requirement],
    list: Option<u32>,
    parts: &Parts,
) -> Result<(), AllocError>
    requires { length requirements.now ≤ 4096 }
    ensures { OnOk result (text.new ≡ text.old ++ parts_lines requirements.now list parts.now) }
{
    if let Some(kept) = &parts.kept {
        push_diagnosis(alloc, text, requirements, kept)?;
    }
    if let Some(conflict) = &parts.conflict {
        push_conflict(alloc, text, requirements, conflict)?;
    }
    if let Some(listing) = &parts.listing {
        push_listing(alloc, text, list.unwrap_or(0), listing.as_slice())?;
    }
    Ok(())
}

/// Appends what was found out about the musts.
fn push_must_findings(
    alloc: Global,
    text: &mut Bytes,
    musts: &[Requirement],
    second: Option<&Outcome>,
) -> Result<(), AllocError>
    requires { length musts.now ≤ 4096 }
    ensures { OnOk result (text.new ≡ text.old ++ if_known (must_finding_lines musts.now) (option_map (λ outcome. outcome.now) second.entry)) }
{
    match second {
        None | Some(Outcome::Consistent) => Ok(()),
        Some(Outcome::Background) => text.extend_from_slice(b"must background\n"),
        Some(Outcome::Explained(parts)) => push_must_parts(alloc, text, musts, parts),
        Some(Outcome::LimitAt { part, key, before }) => {
            push_must_parts(alloc, text, musts, before)?;
            text.extend_from_slice(b"must ")?;
            push_limit(alloc, text, *part, key)
        }
    }
}

/// Appends the parts that are known of the musts.
fn push_must_parts(
    alloc: Global,
    text: &mut Bytes,
    musts: &[Requirement],
    parts: &Parts,
) -> Result<(), AllocError>
    requires { length musts.now ≤ 4096 }
    ensures { OnOk result (text.new ≡ text.old ++ must_parts_lines musts.now parts.now) }
{
    if let Some(kept) = &parts.kept {
        text.extend_from_slice(b"must ")?;
        push_diagnosis(alloc, text, musts, kept)?;
    }
    if let Some(conflict) = &parts.conflict {
        text.extend_from_slice(b"must ")?;
        push_conflict(alloc, text, musts, conflict)?;
    }
    Ok(())
}
