//! What is answered where a file or a problem is refused.
ghost use Rattle.std.specs.Prelude.{◌≡◌, IfOk};
ghost use Rattle.diag_top.specs.Refusals.{config_reason, model_reason, config_refused, model_refused, too_large as large};
ghost use Rattle.config_reader.specs.declared.error.ConfigError.TheVariants.{Refused};

use crate::reply::Reply;
use command_line::Status;
use config_reader::Reason as ConfigReason;
use diag_base::Bytes;
use std::alloc::{AllocError, Global};
use uvl_reader::Reason as ModelReason;

/// The model file is refused at this line.
pub fn refused_model(alloc: Global, line: u32, reason: ModelReason) -> Result<Reply, AllocError>
    ensures { IfOk result (λ reply. reply ≡ model_refused (record { line = line; reason = reason })) }
{
    let reason = model_reason(reason);
    let line = format!(in alloc; "model refused line {line} {reason}\n")?;
    let text = Bytes::from_slice(alloc, line.as_str().as_bytes())?;
    Ok(Reply {
        status: Status::BadModel,
        text,
    })
}

/// The configuration is refused at this line.
pub fn refused_config(alloc: Global, line: u32, reason: ConfigReason) -> Result<Reply, AllocError>
    ensures { IfOk result (λ reply. reply ≡ config_refused (Refused line reason)) }
{
    let reason = config_reason(reason);
    let line = format!(in alloc; "configuration refused line {line} {reason}\n")?;
    let text = Bytes::from_slice(alloc, line.as_str().as_bytes())?;
    Ok(Reply {
        status: Status::BadConfig,
        text,
    })
}

/// The problem would have so many variables.
pub fn too_large(alloc: Global, needed: u64) -> Result<Reply, AllocError>
    ensures { IfOk result (λ reply. reply ≡ large needed) }
{
    let line = format!(in alloc; "problem refused variables {needed} limit 1000000\n")?;
    let text = Bytes::from_slice(alloc, line.as_str().as_bytes())?;
    Ok(Reply {
        status: Status::TooLarge,
        text,
    })
}

/// The word of the reason.
fn model_reason(reason: ModelReason) -> &'static str
    ensures { result.now ≡ model_reason reason }
{
    match reason {
        ModelReason::NotUtf8 => "NotUtf8",
        ModelReason::BadToken => "BadToken",
        ModelReason::OpenBracket => "OpenBracket",
        ModelReason::OpenComment => "OpenComment",
        ModelReason::BadIndent => "BadIndent",
        ModelReason::Misplaced => "Misplaced",
        ModelReason::BadGroup => "BadGroup",
        ModelReason::BadFeature => "BadFeature",
        ModelReason::BadFormula => "BadFormula",
        ModelReason::TooDeep => "TooDeep",
        ModelReason::Unsupported => "Unsupported",
        ModelReason::Twice => "Twice",
        ModelReason::Unknown => "Unknown",
        ModelReason::NoFeatures => "NoFeatures",
        ModelReason::TooMany => "TooMany",
    }
}

/// The word of the reason.
fn config_reason(reason: ConfigReason) -> &'static str
    ensures { result.now ≡ config_reason reason }
{
    match reason {
        ConfigReason::NotUtf8 => "NotUtf8",
        ConfigReason::BadToken => "BadToken",
        ConfigReason::OpenBracket => "OpenBracket",
        ConfigReason::OpenComment => "OpenComment",
        ConfigReason::TooMany => "TooMany",
        ConfigReason::Unsupported => "Unsupported",
        ConfigReason::BadFormula => "BadFormula",
        ConfigReason::TooDeep => "TooDeep",
        ConfigReason::Unknown => "Unknown",
        ConfigReason::BadTier => "BadTier",
    }
}
