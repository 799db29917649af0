//! The advice for a configuration of a model.
ghost use Rattle.std.specs.Prelude.{◌≡◌, ◌≤◌, IfOk, IfSome, None, length, option_map};
ghost use Rattle.command_line.specs.Words.{AreAllowed};
ghost use Rattle.config_reader.specs.Laws.{IsStated};
ghost use Rattle.clause_form.specs.ClauseForm.{needed};
ghost use Rattle.certificate.specs.Writing.{IsOver};
ghost use Rattle.diag_top.specs.Answer.{advice, certificate, counted, reported, second_of, status_of};
ghost use Rattle.report.specs.inside.Counts.{counted as told};
ghost use Rattle.diag_top.specs.inside.Doing.{DoesJobs, TakesJobs};
ghost use Rattle.diag_top.specs.inside.Jobs.{IsDone, job_of, set};

use crate::refusal::too_large;
use crate::reply::Reply;
use certificate::{write_certificate, written_is_accepted};
use clause_form::{BuildError, problem_of};
use clauses::Problem;
use command_line::Status;
use config_reader::Config;
use diag_base::Bytes;
use feature_tree::Model;
use report::{Counts, report_of};
use script::{Finished, JobPlan, Outcome};
use std::alloc::{AllocError, Global};

/// How a job is done: each check may learn `allowance` clauses in its first attempt, and `rungs` more attempts may follow; the
/// minimal diagnoses up to the size `list` are listed, if it is there; so many answers are guessed `ahead`; so many `workers` make
/// checks beside the main thread; and where `certify` says so a certificate follows the report.
#[derive(Clone, Copy, Debug)]
pub struct Limits {
    pub allowance: u64,
    pub rungs: u8,
    pub list: Option<u32>,
    pub ahead: u8,
    pub workers: u32,
    pub certify: bool,
}

/// The advice for a configuration of a model: the report, or that the problem would be too large. The jobs are done by `jobs`.
pub fn advice<J: Fn(&Problem, JobPlan, u32, u8) -> Result<Finished, AllocError>>(
    alloc: Global,
    model: &Model,
    config: &Config,
    limits: Limits,
    jobs: &J,
) -> Result<Reply, AllocError>
    requires takes { TakesJobs (J.pre jobs.now) }
    requires does { DoesJobs (J.post jobs.now) }
    requires stated { IsStated (length model.now.features) config.now }
    requires allowed { AreAllowed (set limits) }
    ensures { IfOk result (λ reply. reply ≡ advice model.now config.now (set limits)) }
{
    written_is_accepted();
    let first = match make_job(alloc, model, config, limits, limits.list, jobs)? {
        Job::Done(finished) => finished,
        Job::TooLarge(needed) => return too_large(alloc, needed),
    };
    let second = second_job(alloc, model, config, limits, &first.outcome, jobs)?;
    reported(alloc, model, config, limits, &first, second.as_ref())
}

/// The reply with the report on the jobs, and the certificate of the first where it is asked for.
fn reported(
    alloc: Global,
    model: &Model,
    config: &Config,
    limits: Limits,
    first: &Finished,
    second: Option<&Finished>,
) -> Result<Reply, AllocError>
    requires stated { IsStated (length model.now.features) config.now }
    requires allowed { AreAllowed (set limits) }
    requires fits { needed model.now config.now ≤ 1000000 }
    requires over { IsOver (length config.now.requirements) first.now.outcome }
    ensures { IfOk result (λ reply. reply ≡ reported model.now config.now (set limits) (job_of first.now) (option_map (λ job. job_of job.now) second.entry)) }
{
    let counts = counted(first, second);
    let found = second.map(|job| &job.outcome);
    let mut text = report_of(
        alloc,
        model,
        config,
        limits.list,
        &first.outcome,
        found,
        counts,
    )?;
    let certificate = certificate(alloc, model, config, limits, &first.outcome)?;
    text.extend_from_slice(certificate.as_slice())?;
    Ok(Reply {
        status: status_of(&first.outcome),
        text,
    })
}

/// The certificate of what the first job found out, where it is asked for.
fn certificate(
    alloc: Global,
    model: &Model,
    config: &Config,
    limits: Limits,
    outcome: &Outcome,
) -> Result<Bytes, AllocError>
    requires stated { IsStated (length model.now.features) config.now }
    requires allowed { AreAllowed (set limits) }
    requires fits { needed model.now config.now ≤ 1000000 }
    requires over { IsOver (length config.now.requirements) outcome.now }
    ensures { IfOk result (λ text. text ≡ certificate model.now config.now (set limits) outcome.now) }
{
    if !limits.certify {
        return Ok(Bytes::new(alloc));
    }
    match problem_of(alloc, model, config, limits.allowance, limits.rungs) {
        Err(_) => Err(AllocError),
        Ok(problem) => write_certificate(alloc, model, config, &problem, outcome),
    }
}

/// What is counted of both jobs.
fn counted(first: &Finished, second: Option<&Finished>) -> Counts
    ensures { told result ≡ counted (job_of first.now) (option_map (λ job. job_of job.now) second.entry) }
{
    match second {
        None => Counts {
            checks: u128::from(first.used.len()),
            predicted: u128::from(first.posted.len() as u64),
            wasted: u128::from(wasted_in(first)),
        },
        Some(second) => Counts {
            checks: u128::from(first.used.len()) + u128::from(second.used.len()),
            predicted: u128::from(first.posted.len() as u64)
                + u128::from(second.posted.len() as u64),
            wasted: u128::from(wasted_in(first)) + u128::from(wasted_in(second)),
        },
    }
}

/// How many of the job's postings were in vain.
fn wasted_in(job: &Finished) -> u64
    ensures { result ≡ job.now.wasted }
{
    job.wasted
}

/// The status of an outcome.
fn status_of(outcome: &Outcome) -> Status
    ensures { result ≡ status_of outcome.now }
{
    match outcome {
        Outcome::Consistent => Status::Consistent,
        Outcome::Background => Status::Background,
        Outcome::Explained(_) => Status::Explained,
        Outcome::LimitAt { .. } => Status::Limit,
    }
}

/// What comes of a job.
#[derive(Drop)]
enum Job {
    Done(Finished),
    /// The problem would have so many variables.
    TooLarge(u64),
}

/// Does the job about a configuration of a model. The problem is dropped at the end.
fn make_job<J: Fn(&Problem, JobPlan, u32, u8) -> Result<Finished, AllocError>>(
    alloc: Global,
    model: &Model,
    config: &Config,
    limits: Limits,
    list: Option<u32>,
    jobs: &J,
) -> Result<Job, AllocError>
    requires takes { TakesJobs (J.pre jobs.now) }
    requires does { DoesJobs (J.post jobs.now) }
    requires stated { IsStated (length model.now.features) config.now }
    requires allowed { AreAllowed (set limits) }
    requires list { IfSome list (λ size. size ≤ 4096) }
    ensures { IfOk result (IsDone model.now config.now (set limits) list) }
{
    match problem_of(alloc, model, config, limits.allowance, limits.rungs) {
        Err(BuildError::Memory) => Err(AllocError),
        Err(BuildError::TooLarge { needed }) => Ok(Job::TooLarge(needed)),
        Ok(problem) => {
            let requirements = problem.n();
            let plan = JobPlan { requirements, list };
            let finished = jobs(&problem, plan, limits.workers, limits.ahead)?;
            Ok(Job::Done(finished))
        }
    }
}

/// Where nothing can be met and there are musts: the job about these.
fn second_job<J: Fn(&Problem, JobPlan, u32, u8) -> Result<Finished, AllocError>>(
    alloc: Global,
    model: &Model,
    config: &Config,
    limits: Limits,
    first: &Outcome,
    jobs: &J,
) -> Result<Option<Finished>, AllocError>
    requires takes { TakesJobs (J.pre jobs.now) }
    requires does { DoesJobs (J.post jobs.now) }
    requires stated { IsStated (length model.now.features) config.now }
    requires allowed { AreAllowed (set limits) }
    requires fits { needed model.now config.now ≤ 1000000 }
    ensures { IfOk result (λ second. option_map job_of second ≡ second_of model.now config.now (set limits) first.now config.now.musts) }
{
    if !matches!(first, Outcome::Background) || config.musts.is_empty() {
        return Ok(None);
    }
    let musts = config.of_musts(alloc)?;
    match make_job(alloc, model, &musts, limits, None, jobs)? {
        Job::Done(finished) => Ok(Some(finished)),
        Job::TooLarge(_) => Ok(None),
    }
}
