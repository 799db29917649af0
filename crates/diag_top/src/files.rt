//! Commands about a model and a configuration: both files are fetched and read, and then the command's task is done.
ghost use Rattle.std.specs.Prelude.{◌≡◌, ◌≢◌, ◌≤◌, IfErr, IfOk, IfSome, Ok, length};
ghost use Rattle.command_line.specs.declared.status.Status.TheVariants.{BadWords, Generated, Memory, ReadFault, WriteFault};
ghost use Rattle.config_reader.specs.Judgement.{IsRefusal as IsConfigRefusal};
ghost use Rattle.config_reader.specs.Laws.{IsStated};
ghost use Rattle.config_reader.specs.Reading.{configuration};
ghost use Rattle.diag_base.specs.Faults.{Rises};
ghost use Rattle.uvl_reader.specs.ModelReading.{model_of};
ghost use Rattle.uvl_reader.specs.Refusals.{IsRefused};
ghost use Rattle.diag_top.specs.Answer.{with_both, with_config, with_model};
ghost use Rattle.diag_top.specs.Refusals.{config_too_long, model_too_long};
ghost use Rattle.diag_top.specs.inside.Doing.{DoesJobs, TakesJobs};
ghost use Rattle.diag_top.specs.inside.Follows.{Follows};
ghost use Rattle.diag_top.specs.inside.Jobs.{IsAllowedTask, next_of};

use crate::advice::{Limits, advice};
use crate::refusal::{refused_config, refused_model};
use crate::reply::Reply;
use crate::verification::verify_file;
use clauses::Problem;
use command_line::Status;
use config_reader::{Config, ConfigError, read_config};
use diag_base::{Bytes, FetchError, Fetched, Shelf};
use feature_tree::Model;
use script::{Finished, JobPlan};
use std::alloc::{AllocError, Global};
use uvl_reader::{ModelError, read_model};

/// How many bytes a model file or a configuration may have.
pub const MOST: usize = 16_777_216;

/// What is done once both files are read.
#[derive(Clone, Copy)]
pub enum Task<'a> {
    /// The advice is given.
    Advise(Limits),
    /// The certificate in the file with this name is judged.
    Verify(&'a str),
}

/// What is answered to the names of a model and a configuration.
pub fn with_both<F: Shelf, J: Fn(&Problem, JobPlan, u32, u8) -> Result<Finished, AllocError>>(
    alloc: Global,
    shelf: &mut F,
    model: &str,
    config: &str,
    task: Task<'_>,
    jobs: &J,
) -> Result<Reply, AllocError>
    requires takes { TakesJobs (J.pre jobs.now) }
    requires does { DoesJobs (J.post jobs.now) }
    requires allowed { IsAllowedTask task }
    ensures told { IfOk result (λ reply. IfSome (F.files shelf.old) (λ files. Follows files (F.lost shelf.new) (with_both model.now config.now (next_of task.entry)) reply)) }
    ensures others { IfOk result (λ reply. (reply.status ≢ BadWords) × (reply.status ≢ Memory) × (reply.status ≢ WriteFault) × (reply.status ≢ Generated)) }
    ensures read_fault { IfOk result (λ reply. reply.status ≡ ReadFault → Rises (F.faults shelf.old) (F.faults shelf.new)) }
    ensures never_falls { F.faults shelf.old ≤ F.faults shelf.new }
{
    match shelf.fetch(alloc, model, MOST) {
        Err(FetchError::Failed) => Reply::of(alloc, Status::ReadFault, b"read failed model\n"),
        Err(FetchError::Memory) => Err(AllocError),
        Ok(Fetched::Longer) => too_long_model(alloc),
        Ok(Fetched::Whole(bytes)) => match model_in(alloc, bytes) {
            Err(ModelError::Memory) => Err(AllocError),
            Err(ModelError::Refused { line, reason }) => refused_model(alloc, line, reason),
            Ok(model) => with_model(alloc, shelf, &model, config, task, jobs),
        },
    }
}

/// What is answered once the model is read.
fn with_model<F: Shelf, J: Fn(&Problem, JobPlan, u32, u8) -> Result<Finished, AllocError>>(
    alloc: Global,
    shelf: &mut F,
    model: &Model,
    config: &str,
    task: Task<'_>,
    jobs: &J,
) -> Result<Reply, AllocError>
    requires takes { TakesJobs (J.pre jobs.now) }
    requires does { DoesJobs (J.post jobs.now) }
    requires allowed { IsAllowedTask task }
    ensures told { IfOk result (λ reply. IfSome (F.files shelf.old) (λ files. Follows files (F.lost shelf.new) (with_model config.now (next_of task.entry) (Ok model.now)) reply)) }
    ensures others { IfOk result (λ reply. (reply.status ≢ BadWords) × (reply.status ≢ Memory) × (reply.status ≢ WriteFault) × (reply.status ≢ Generated)) }
    ensures read_fault { IfOk result (λ reply. reply.status ≡ ReadFault → Rises (F.faults shelf.old) (F.faults shelf.new)) }
    ensures never_falls { F.faults shelf.old ≤ F.faults shelf.new }
{
    match shelf.fetch(alloc, config, MOST) {
        Err(FetchError::Failed) => {
            Reply::of(alloc, Status::ReadFault, b"read failed configuration\n")
        }
        Err(FetchError::Memory) => Err(AllocError),
        Ok(Fetched::Longer) => too_long_config(alloc),
        Ok(Fetched::Whole(bytes)) => with_config(alloc, shelf, model, bytes, task, jobs),
    }
}

/// What is answered once the configuration is fetched.
fn with_config<F: Shelf, J: Fn(&Problem, JobPlan, u32, u8) -> Result<Finished, AllocError>>(
    alloc: Global,
    shelf: &mut F,
    model: &Model,
    bytes: Bytes,
    task: Task<'_>,
    jobs: &J,
) -> Result<Reply, AllocError>
    requires takes { TakesJobs (J.pre jobs.now) }
    requires does { DoesJobs (J.post jobs.now) }
    requires few { length bytes ≤ MOST }
    requires allowed { IsAllowedTask task }
    ensures told { IfOk result (λ reply. IfSome (F.files shelf.old) (λ files. Follows files (F.lost shelf.new) (with_config (next_of task.entry model.now) (configuration bytes model.now)) reply)) }
    ensures others { IfOk result (λ reply. (reply.status ≢ BadWords) × (reply.status ≢ Memory) × (reply.status ≢ WriteFault) × (reply.status ≢ Generated)) }
    ensures read_fault { IfOk result (λ reply. reply.status ≡ ReadFault → Rises (F.faults shelf.old) (F.faults shelf.new)) }
    ensures never_falls { F.faults shelf.old ≤ F.faults shelf.new }
{
    match config_in(alloc, model, bytes) {
        Err(ConfigError::Memory) => Err(AllocError),
        Err(ConfigError::Refused { line, reason }) => refused_config(alloc, line, reason),
        Ok(config) => match task {
            Task::Advise(limits) => advice(alloc, model, &config, limits, jobs),
            Task::Verify(certificate) => verify_file(alloc, shelf, model, &config, certificate),
        },
    }
}

/// The model file is longer than it may be.
pub fn too_long_model(alloc: Global) -> Result<Reply, AllocError>
    ensures { IfOk result (λ reply. reply ≡ model_too_long) }
{
    Reply::of(alloc, Status::BadModel, b"model refused too long\n")
}

/// The configuration is longer than it may be.
pub fn too_long_config(alloc: Global) -> Result<Reply, AllocError>
    ensures { IfOk result (λ reply. reply ≡ config_too_long) }
{
    Reply::of(
        alloc,
        Status::BadConfig,
        b"configuration refused too long\n",
    )
}

/// The model of a file, whose bytes are dropped.
pub fn model_in(alloc: Global, bytes: Bytes) -> Result<Model, ModelError>
    requires { length bytes ≤ MOST }
    ensures model { IfOk result (λ model. model_of bytes ≡ Ok model) }
    ensures refused { IfErr result (λ e. IsRefused e (model_of bytes)) }
{
    read_model(alloc, bytes.as_slice())
}

/// The configuration of a file, whose bytes are dropped.
pub fn config_in(alloc: Global, model: &Model, bytes: Bytes) -> Result<Config, ConfigError>
    requires { length bytes ≤ MOST }
    ensures config { IfOk result (λ config. configuration bytes model.now ≡ Ok config) }
    ensures refused { IfErr result (λ e. IsConfigRefusal e (configuration bytes model.now)) }
    ensures stated { IfOk result (λ config. IsStated (length model.now.features) config) }
{
    read_config(alloc, bytes.as_slice(), model)
}
