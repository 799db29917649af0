//! From the bytes of a file to a model.
ghost use Rattle.std.specs.Prelude.{◌≡◌, ◌≤◌, IfOk, IfErr, Ok, length};
ghost use Rattle.uvl_reader.specs.inside.Drafts.{standing_of};
ghost use Rattle.uvl_reader.specs.inside.Good.{IsGood};
ghost use Rattle.uvl_reader.specs.inside.Standing.{model_at, text_refused};
ghost use Rattle.uvl_reader.specs.LineKinds.{section_of};
ghost use Rattle.uvl_reader.specs.Refusals.{IsRefused};
ghost use Rattle.uvl_reader.specs.ModelReading.{model_of, is_features_line, features_number, reason_of_text};

use crate::constraints::constraints_of;
use crate::draft::{Draft, draft_of, refused};
use crate::error::{ModelError, Reason};
use crate::kind::Section;
use feature_tree::Model;
use std::alloc::Global;
use uvl_lex::{LexError, LexReason, Line, logical_lines};

/// What the model file with these bytes says, or the first line that is refused. Takes at most 16 MiB.
pub fn read_model(alloc: Global, bytes: &[u8]) -> Result<Model, ModelError>
    requires { length bytes.now ≤ 16777216 }
    ensures model { IfOk result (λ model. model_of bytes.now ≡ Ok model) }
    ensures refused { IfErr result (λ e. IsRefused e (model_of bytes.now)) }
{
    let lines = match logical_lines(alloc, bytes) {
        Ok(lines) => lines,
        Err(error) => return Err(text_refused(error)),
    };
    let draft = draft_of(alloc, bytes, lines.as_slice())?;
    model_of(alloc, bytes, lines.as_slice(), draft)
}

/// The refusal of a text.
fn text_refused(error: LexError) -> ModelError
    ensures { result ≡ text_refused error }
{
    match error {
        LexError::Refused { line, reason } => refused(line, reason_of_text(reason)),
        LexError::Memory => ModelError::Memory,
    }
}

fn reason_of_text(reason: LexReason) -> Reason
    ensures { result ≡ reason_of_text reason }
{
    match reason {
        LexReason::NotUtf8 => Reason::NotUtf8,
        LexReason::BadToken => Reason::BadToken,
        LexReason::OpenBracket => Reason::OpenBracket,
        LexReason::OpenComment => Reason::OpenComment,
    }
}

/// The model of a draft of all these lines.
#[tactic(auto, unfolding(crate::specs::inside::Standing::model_at))]
fn model_of(
    alloc: Global,
    bytes: &[u8],
    lines: &[Line],
    draft: Draft<'_>,
) -> Result<Model, ModelError>
    requires { IsGood bytes.now (standing_of draft) }
    ensures ok { IfOk result (λ model. model_at bytes.now (features_number lines.now) (standing_of draft.entry) ≡ Ok model) }
    ensures refused { IfErr result (λ e. IsRefused e (model_at bytes.now (features_number lines.now) (standing_of draft.entry))) }
{
    let Draft {
        pending,
        names,
        tree,
        stated,
        ..
    } = draft;
    if let Some(pending) = pending {
        return Err(refused(pending.line, Reason::BadGroup));
    }
    let Some(tree) = tree else {
        return Err(refused(features_number(lines), Reason::NoFeatures));
    };
    let constraints = constraints_of(alloc, &names, bytes, stated.into_vec())?;
    Ok(tree.into_model(constraints))
}

/// The line of `features`, or 1 without one.
fn features_number(lines: &[Line]) -> u32
    ensures { result ≡ features_number lines.now }
{
    for line in lines {
        if line.indent == 0 && is_features_line(line) {
            return line.number;
        }
    }
    1
}

/// Whether the line begins the features.
fn is_features_line(line: &Line) -> bool
    ensures { result ≡ is_features_line (section_of line.now.tokens) }
{
    matches!(Section::of(line.tokens.as_slice()), Some(Section::Features))
}
