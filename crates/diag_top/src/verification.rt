//! `verify`: a certificate is fetched, and judged.
ghost use Rattle.std.specs.Prelude.{◌≡◌, ◌≢◌, ◌≤◌, IfOk, IfSome, length};
ghost use Rattle.command_line.specs.declared.status.Status.TheVariants.{BadWords, Generated, Memory, ReadFault, WriteFault};
ghost use Rattle.config_reader.specs.Laws.{IsStated};
ghost use Rattle.diag_base.specs.Faults.{Rises};
ghost use Rattle.diag_top.specs.Answer.{verdict_on_certificate, verified};
ghost use Rattle.diag_top.specs.Refusals.{judgement_reply, shown_word, why_word};
ghost use Rattle.diag_top.specs.inside.Follows.{Follows};

use crate::refusal::too_large;
use crate::reply::Reply;
use certificate::{Judgement, Shown, Why, verify};
use clause_form::{BuildError, problem_of};
use command_line::Status;
use config_reader::Config;
use diag_base::{Bytes, FetchError, Fetched, Shelf};
use feature_tree::Model;
use std::alloc::{AllocError, Global};

/// How many bytes a certificate may have.
const MOST_SHOWN: usize = 268_435_456;

/// What is answered to the name of a certificate about a configuration of a model.
pub fn verify_file<F: Shelf>(
    alloc: Global,
    shelf: &mut F,
    model: &Model,
    config: &Config,
    certificate: &str,
) -> Result<Reply, AllocError>
    requires stated { IsStated (length model.now.features) config.now }
    ensures told { IfOk result (λ reply. IfSome (F.files shelf.old) (λ files. Follows files (F.lost shelf.new) (verified certificate.now model.now config.now) reply)) }
    ensures others { IfOk result (λ reply. (reply.status ≢ BadWords) × (reply.status ≢ Memory) × (reply.status ≢ WriteFault) × (reply.status ≢ Generated)) }
    ensures read_fault { IfOk result (λ reply. reply.status ≡ ReadFault → Rises (F.faults shelf.old) (F.faults shelf.new)) }
    ensures never_falls { F.faults shelf.old ≤ F.faults shelf.new }
{
    match shelf.fetch(alloc, certificate, MOST_SHOWN) {
        Err(FetchError::Failed) => {
            Reply::of(alloc, Status::ReadFault, b"read failed certificate\n")
        }
        Err(FetchError::Memory) => Err(AllocError),
        Ok(Fetched::Longer) => Reply::of(alloc, Status::Rejected, b"rejected too long\n"),
        Ok(Fetched::Whole(bytes)) => verify_bytes(alloc, model, config, &bytes),
    }
}

/// What is said of a certificate with these bytes.
fn verify_bytes(
    alloc: Global,
    model: &Model,
    config: &Config,
    bytes: &Bytes,
) -> Result<Reply, AllocError>
    requires stated { IsStated (length model.now.features) config.now }
    requires few { length bytes.now ≤ MOST_SHOWN }
    ensures { IfOk result (λ reply. reply ≡ verdict_on_certificate model.now config.now bytes.now) }
{
    match problem_of(alloc, model, config, 0, 0) {
        Err(BuildError::Memory) => Err(AllocError),
        Err(BuildError::TooLarge { needed }) => too_large(alloc, needed),
        Ok(problem) => {
            let judgement = verify(alloc, model, config, &problem, bytes.as_slice())?;
            judgement_reply(alloc, &judgement)
        }
    }
}

/// What is answered where a certificate is judged so.
fn judgement_reply(alloc: Global, judgement: &Judgement) -> Result<Reply, AllocError>
    ensures { IfOk result (λ reply. reply ≡ judgement_reply judgement.now) }
{
    let (status, line) = match judgement {
        Judgement::Yes(shown) => {
            let shown = shown_word(shown);
            (Status::Verified, format!(in alloc; "verified {shown}\n")?)
        }
        Judgement::No { line, why } => {
            let why = why_word(*why);
            (
                Status::Rejected,
                format!(in alloc; "rejected line {line} {why}\n")?,
            )
        }
    };
    let text = Bytes::from_slice(alloc, line.as_str().as_bytes())?;
    Ok(Reply { status, text })
}

/// The word of what is shown.
fn shown_word(shown: &Shown) -> &'static str
    ensures { result.now ≡ shown_word shown.now }
{
    match shown {
        Shown::Consistent => "consistent",
        Shown::Background => "background",
        Shown::Explained { .. } => "explained",
    }
}

/// The word of the reason.
fn why_word(why: Why) -> &'static str
    ensures { result.now ≡ why_word why }
{
    match why {
        Why::NoCertificate => "NoCertificate",
        Why::BadLine => "BadLine",
        Why::NotProduct => "NotProduct",
        Why::NotConsequence => "NotConsequence",
        Why::NoEnd => "NoEnd",
    }
}
