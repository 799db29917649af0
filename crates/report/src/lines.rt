//! Single lines, and positions.
ghost use Rattle.std.specs.Prelude.{◌≡◌, ◌++◌, OnOk, codes, length};
ghost use Rattle.std.specs.Fmt.{decimal};
ghost use Rattle.std.specs.List.{flat_map};
ghost use Rattle.report.specs.Lines.{checks_line, limit_line, line, listing_lines, model_line, musts_line, part_word, positions_text, requirements_line};

use crate::counts::Counts;
use config_reader::Requirement;
use diag_base::Bytes;
use feature_tree::Model;
use req_keys::Key;
use script::Part;
use std::alloc::{AllocError, Global};

pub fn push_model_line(alloc: Global, text: &mut Bytes, model: &Model) -> Result<(), AllocError>
    ensures { OnOk result (text.new ≡ text.old ++ model_line model.now) }
{
    let features = model.features.len();
    let constraints = model.constraints.len();
    let line = format!(in alloc; "model {features} features {constraints} constraints\n")?;
    text.extend_from_slice(line.as_str().as_bytes())?;
    Ok(())
}

pub fn push_requirements_line(
    alloc: Global,
    text: &mut Bytes,
    requirements: &[Requirement],
) -> Result<(), AllocError>
    ensures { OnOk result (text.new ≡ text.old ++ requirements_line requirements.now) }
{
    let count = requirements.len();
    let line = format!(in alloc; "requirements {count}\n")?;
    text.extend_from_slice(line.as_str().as_bytes())
}

/// Where there are musts, appends how many.
pub fn push_musts_line(
    alloc: Global,
    text: &mut Bytes,
    musts: &[Requirement],
) -> Result<(), AllocError>
    ensures { OnOk result (text.new ≡ text.old ++ musts_line musts.now) }
{
    if musts.is_empty() {
        return Ok(());
    }
    let count = musts.len();
    let line = format!(in alloc; "musts {count}\n")?;
    text.extend_from_slice(line.as_str().as_bytes())
}

pub fn push_checks_line(alloc: Global, text: &mut Bytes, counts: Counts) -> Result<(), AllocError>
    ensures { OnOk result (text.new ≡ text.old ++ checks_line counts.checks counts.predicted counts.wasted) }
{
    let Counts {
        checks,
        predicted,
        wasted,
    } = counts;
    let line = format!(in alloc; "checks {checks} predicted {predicted} wasted {wasted}\n")?;
    text.extend_from_slice(line.as_str().as_bytes())
}

/// Appends which check spent its allowance.
pub fn push_limit(alloc: Global, text: &mut Bytes, part: Part, key: &Key) -> Result<(), AllocError>
    ensures { OnOk result (text.new ≡ text.old ++ limit_line part key.now) }
{
    text.extend_from_slice(b"limit in ")?;
    text.extend_from_slice(part_word(part))?;
    text.extend_from_slice(b" at ")?;
    push_positions(alloc, text, key)?;
    text.extend_from_slice(b"\n")
}

fn part_word(part: Part) -> &'static [u8]
    ensures { result.now ≡ part_word part }
{
    match part {
        Part::All => b"all",
        Part::Background => b"background",
        Part::Kept => b"kept",
        Part::Conflict => b"conflict",
        Part::Listing => b"listing",
    }
}

/// Appends the minimal diagnoses up to a size.
pub fn push_listing(
    alloc: Global,
    text: &mut Bytes,
    size: u32,
    listing: &[Key],
) -> Result<(), AllocError>
    ensures { OnOk result (text.new ≡ text.old ++ listing_lines size listing.now) }
{
    let count = listing.len();
    let head = format!(in alloc; "listing {count} size {size}\n")?;
    text.extend_from_slice(head.as_str().as_bytes())?;
    push_diagnoses(alloc, text, listing)
}

/// Appends a line for each diagnosis.
fn push_diagnoses(alloc: Global, text: &mut Bytes, listing: &[Key]) -> Result<(), AllocError>
    ensures { OnOk result (text.new ≡ text.old ++ flat_map (λ diagnosis. line (codes "  " ++ positions_text diagnosis.members)) listing.now) }
{
    for diagnosis in listing {
        text.extend_from_slice(b"  ")?;
        push_positions(alloc, text, diagnosis)?;
        text.extend_from_slice(b"\n")?;
    }
    Ok(())
}

/// Appends positions with a blank between two, or that there are none.
fn push_positions(alloc: Global, text: &mut Bytes, key: &Key) -> Result<(), AllocError>
    ensures { OnOk result (text.new ≡ text.old ++ positions_text key.now.members) }
{
    let positions = key.positions()?;
    let Some((first, others)) = positions.as_slice().split_first() else {
        return text.extend_from_slice(b"none");
    };
    push_number(alloc, text, *first)?;
    push_others(alloc, text, others)
}

/// Appends further positions, each after a blank.
fn push_others(alloc: Global, text: &mut Bytes, positions: &[u32]) -> Result<(), AllocError>
    ensures { OnOk result (text.new ≡ text.old ++ flat_map (λ position. codes " " ++ decimal position) positions.now) }
{
    for position in positions {
        text.extend_from_slice(b" ")?;
        push_number(alloc, text, *position)?;
    }
    Ok(())
}

fn push_number(alloc: Global, text: &mut Bytes, number: u32) -> Result<(), AllocError>
    ensures { OnOk result (text.new ≡ text.old ++ decimal number) }
{
    let digits = format!(in alloc; "{number}")?;
    text.extend_from_slice(digits.as_str().as_bytes())
}
