//! From the bytes of a file to a configuration.
ghost use Rattle.std.specs.Prelude.{◌≡◌, ◌≤◌, All, IfOk, IfErr, Ok, length};
ghost use Rattle.config_reader.specs.Judgement.{IsRefusal};
ghost use Rattle.config_reader.specs.Laws.{IsStated};
ghost use Rattle.config_reader.specs.Reading.{configuration, standing, fault, reason_of};
ghost use Rattle.config_reader.specs.inside.Drafts.{standing_of};
ghost use Rattle.uvl_lex.specs.Laws.{IsLine};

use crate::config::Config;
use crate::draft::{Draft, draft_of};
use crate::error::{ConfigError, Reason};
use crate::kind::Version;
use crate::names::names_of;
use crate::slices::after_first;
use feature_tree::Model;
use name_table::Names;
use std::alloc::Global;
use uvl_lex::{LexError, LexReason, Line, logical_lines};

/// What the file with these bytes states over the model, or the fault that decides. Takes at most 16 MiB.
pub fn read_config(alloc: Global, bytes: &[u8], model: &Model) -> Result<Config, ConfigError>
    requires { length bytes.now ≤ 16777216 }
    ensures config { IfOk result (λ config. configuration bytes.now model.now ≡ Ok config) }
    ensures refused { IfErr result (λ e. IsRefusal e (configuration bytes.now model.now)) }
    ensures stated { IfOk result (λ config. IsStated (length model.now.features) config) }
{
    let lines = match logical_lines(alloc, bytes) {
        Ok(lines) => lines,
        Err(error) => return Err(fault(error)),
    };
    let names = names_of(alloc, model.features.as_slice())?;
    let draft = standing(alloc, &names, bytes, lines.as_slice())?;
    Ok(draft.into_config(alloc)?)
}

/// The fault of the text, as a refusal of the file.
fn fault(error: LexError) -> ConfigError
    ensures { result ≡ fault error }
{
    match error {
        LexError::Refused { line, reason } => ConfigError::Refused {
            line,
            reason: reason_of(reason),
        },
        LexError::Memory => ConfigError::Memory,
    }
}

/// The reason of a text's fault.
fn reason_of(reason: LexReason) -> Reason
    ensures { result ≡ reason_of reason }
{
    match reason {
        LexReason::NotUtf8 => Reason::NotUtf8,
        LexReason::BadToken => Reason::BadToken,
        LexReason::OpenBracket => Reason::OpenBracket,
        LexReason::OpenComment => Reason::OpenComment,
    }
}

/// What is read of these lines of a whole file, or the first refusal.
fn standing(
    alloc: Global,
    names: &Names<'_>,
    bytes: &[u8],
    lines: &[Line],
) -> Result<Draft, ConfigError>
    requires few { length bytes.now ≤ 16777216 }
    requires lines { All (IsLine bytes.now) lines.now }
    ensures ok { IfOk result (λ draft. standing names.now bytes.now lines.now ≡ Ok (standing_of draft)) }
    ensures refused { IfErr result (λ e. IsRefusal e (standing names.now bytes.now lines.now)) }
{
    let version = Version::of(bytes, lines);
    match version {
        Version::First => draft_of(alloc, version, names, bytes, lines),
        Version::Second => draft_of(alloc, version, names, bytes, after_first(lines)),
    }
}
