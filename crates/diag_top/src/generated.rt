//! `generate`: a text drawn from a seed.
ghost use Rattle.std.specs.Prelude.{◌≡◌, ◌≤◌, ◌<◌, ◌∷◌, IfOk, length, take, drop};
ghost use Rattle.command_line.specs.Words.{IsDrawn};
ghost use Rattle.diag_top.specs.Answer.{advice_on, generated};
ghost use Rattle.diag_top.specs.inside.Doing.{DoesJobs, TakesJobs};
ghost use Rattle.diag_top.specs.Unindented.{is_indented, lines_of, unindented};

use crate::advice::{Limits, advice};
use crate::files::{MOST, config_in, model_in, too_long_config, too_long_model};
use crate::refusal::{refused_config, refused_model};
use crate::reply::Reply;
use clauses::Problem;
use command_line::{Status, What};
use config_reader::ConfigError;
use diag_base::Bytes;
use model_gen::generate;
use script::{Finished, JobPlan};
use std::alloc::{AllocError, Global};
use uvl_reader::ModelError;

/// How a job is done where no option is named.
const PLAIN: Limits = Limits {
    allowance: 10_000,
    rungs: 0,
    list: None,
    ahead: 0,
    workers: 0,
    certify: false,
};

/// The text of this kind, drawn from the seed, for a product line of this size.
pub fn generated<J: Fn(&Problem, JobPlan, u32, u8) -> Result<Finished, AllocError>>(
    alloc: Global,
    seed: u32,
    size: u32,
    what: What,
    jobs: &J,
) -> Result<Reply, AllocError>
    requires takes { TakesJobs (J.pre jobs.now) }
    requires does { DoesJobs (J.post jobs.now) }
    requires drawn { IsDrawn seed size }
    ensures { IfOk result (λ reply. reply ≡ generated seed size what) }
{
    let (model, config) = generate(alloc, seed, size)?;
    let text = match what {
        What::Model => model,
        What::Config => config,
        What::Report => {
            let reply = advice_on(alloc, model, config, jobs)?;
            unindented(alloc, reply.text.as_slice())?
        }
    };
    Ok(Reply {
        status: Status::Generated,
        text,
    })
}

/// What is replied to a model and a configuration with these bytes, where no option is named.
fn advice_on<J: Fn(&Problem, JobPlan, u32, u8) -> Result<Finished, AllocError>>(
    alloc: Global,
    model: Bytes,
    config: Bytes,
    jobs: &J,
) -> Result<Reply, AllocError>
    requires takes { TakesJobs (J.pre jobs.now) }
    requires does { DoesJobs (J.post jobs.now) }
    ensures { IfOk result (λ reply. reply ≡ advice_on model config) }
{
    if model.len() > MOST {
        return too_long_model(alloc);
    }
    match model_in(alloc, model) {
        Err(ModelError::Memory) => Err(AllocError),
        Err(ModelError::Refused { line, reason }) => refused_model(alloc, line, reason),
        Ok(_) if config.len() > MOST => too_long_config(alloc),
        Ok(model) => match config_in(alloc, &model, config) {
            Err(ConfigError::Memory) => Err(AllocError),
            Err(ConfigError::Refused { line, reason }) => refused_config(alloc, line, reason),
            Ok(config) => advice(alloc, &model, &config, PLAIN, jobs),
        },
    }
}

/// How long the first line is, its line feed included.
fn first_line(text: &[u8]) -> usize
    requires { 0 < length text.now }
    ensures some { 1 ≤ result }
    ensures few { result ≤ length text.now }
    ensures cut { lines_of text.now ≡ take result text.now ∷ lines_of (drop result text.now) }
{
    match text.iter().position(|byte| *byte == b'\n') {
        Some(place) => place + 1,
        None => text.len(),
    }
}

/// Whether the line begins with a blank.
fn is_indented(line: &[u8]) -> bool
    ensures { result ≡ is_indented line.now }
{
    match line {
        [] => false,
        [first, ..] => *first == b' ',
    }
}

/// The text without the lines that begin with a blank.
fn unindented(alloc: Global, text: &[u8]) -> Result<Bytes, AllocError>
    ensures { IfOk result (λ kept. kept ≡ unindented text.now) }
{
    let mut kept = Bytes::new(alloc);
    let mut rest = text;
    'lines: while !rest.is_empty() {
        let (line, after) = rest.split_at(first_line(rest));
        if !is_indented(line) {
            kept.extend_from_slice(line)?;
        }
        rest = after;
    }
    Ok(kept)
}
