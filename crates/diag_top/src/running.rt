//! The top calls: the work is done, and its text is written.
ghost use Rattle.std.specs.Prelude.{◌≡◌, ◌≢◌, ◌↔◌, ℕ, ◌≤◌, ◌++◌, List, map, IfNone, IfOk, IfSome, IsTrue, Some, None, is_none};
ghost use Rattle.std.specs.String.{string_bytes};
ghost use Rattle.command_line.specs.Words.{Generates, asks_workers, request_of};
ghost use Rattle.command_line.specs.declared.status.Status.TheVariants.{BadWords, Generated, Memory, ReadFault, WriteFault};
ghost use Rattle.diag_base.specs.Faults.{Rises};
ghost use Rattle.diag_base.specs.Shelf.{Files};
ghost use Rattle.diag_top.specs.Answer.{work_for};
ghost use Rattle.diag_top.specs.Run.{Counts, HasNoFault, IsComplete, IsRun};
ghost use Rattle.diag_top.specs.inside.Doing.{DoesJobs, IsFinished, MayAsk, TakesJobs};
ghost use Rattle.diag_top.specs.inside.Follows.{Follows};

use crate::advice::Limits;
use crate::files::{Task, with_both};
use crate::generated::generated;
use crate::jobs::{done_alone, done_by_workers};
use crate::reply::Reply;
use crate::write::put_whole;
use clauses::Problem;
use command_line::{Command, Status, read_words};
use diag_base::{Shelf, Sink};
use diag_workers::Gate;
use script::{Finished, JobPlan};
use std::alloc::{AllocError, Global};
use std::sync::Wait;
use std::thread::Threads;

/// Does the command that the words say. The text goes into the sink after it is made whole, in pieces of 4,096 bytes; want of
/// memory writes nothing. Where the words ask for workers, that many threads make checks beside this one, each held back by
/// the gate alone; what is written is what one thread writes. This call may then wait for them.
pub fn run<R: Threads + Wait + Sync, F: Shelf, K: Sink, G: Gate>(
    rt: &R,
    alloc: Global,
    words: &[String],
    shelf: &mut F,
    sink: &mut K,
    gate: &G,
) -> Status
    // Over a shelf and a sink that tell their contents, one of four cases.
    ensures told { (files : Files) (before : List ℕ) → F.files shelf.old ≡ Some files → K.written sink.old ≡ Some before →
        (appended : List ℕ) × (K.written sink.new ≡ Some (before ++ appended)) × IsRun (work_for (map string_bytes words.now)) files (F.lost shelf.new)
        (record { shelf_before = F.faults shelf.old; shelf_now = F.faults shelf.new; sink_before = K.faults sink.old; sink_now = K.faults sink.new }) result appended }

    // Without a fault only want of memory stands between the words and their answer.
    ensures complete { (files : Files) (before : List ℕ) → F.files shelf.old ≡ Some files → K.written sink.old ≡ Some before →
        HasNoFault (record { shelf_before = F.faults shelf.old; shelf_now = F.faults shelf.new; sink_before = K.faults sink.old; sink_now = K.faults sink.new }) →
        (appended : List ℕ) × (K.written sink.new ≡ Some (before ++ appended)) × IsComplete (work_for (map string_bytes words.now)) files result appended }

    // Over any shelf and sink.
    ensures words { result ≢ Memory → result ≢ WriteFault → (result ≡ BadWords) ↔ (request_of (map string_bytes words.now) ≡ None) }
    ensures generated { result ≢ Memory → result ≢ WriteFault → (result ≡ Generated) ↔ Generates (request_of (map string_bytes words.now)) }
    ensures memory { result ≡ Memory → K.written sink.new ≡ K.written sink.old }
    ensures read_fault { result ≡ ReadFault → Rises (F.faults shelf.old) (F.faults shelf.new) }
    ensures write_fault { result ≡ WriteFault → Rises (K.faults sink.old) (K.faults sink.new) }
    ensures shelf_grows { F.faults shelf.old ≤ F.faults shelf.new }
    ensures sink_grows { K.faults sink.old ≤ K.faults sink.new }
{
    if let Some(status) = run_alone(alloc, words, shelf, sink) {
        return status;
    }
    let jobs = |problem: &Problem, plan: JobPlan, workers: u32, ahead: u8| -> Result<
        Finished,
        AllocError,
    >
        requires { MayAsk problem.now plan workers ahead }
        ensures { IfOk result (IsFinished problem.entry.now plan ahead) }
    { done_by_workers(rt, alloc, problem, plan, workers, ahead, gate) };
    run_with(alloc, words, shelf, sink, &jobs)
}

/// Does the command that the words say on one thread, unless they ask for workers: then it answers None, and nothing is fetched
/// or written. The text goes into the sink after it is made whole, in pieces of 4,096 bytes; want of memory writes nothing.
pub fn run_alone<F: Shelf, K: Sink>(
    alloc: Global,
    words: &[String],
    shelf: &mut F,
    sink: &mut K,
) -> Option<Status>
    ensures none { (result ≡ None) ↔ IsTrue (asks_workers (request_of (map string_bytes words.now))) }
    ensures shelf_rests { IfNone result (shelf.new ≡ shelf.old) }
    ensures sink_rests { IfNone result (sink.new ≡ sink.old) }

    // Over a shelf and a sink that tell their contents, one of four cases.
    ensures told { IfSome result (λ status. (files : Files) (before : List ℕ) → F.files shelf.old ≡ Some files → K.written sink.old ≡ Some before →
        (appended : List ℕ) × (K.written sink.new ≡ Some (before ++ appended)) × IsRun (work_for (map string_bytes words.now)) files (F.lost shelf.new)
        (record { shelf_before = F.faults shelf.old; shelf_now = F.faults shelf.new; sink_before = K.faults sink.old; sink_now = K.faults sink.new }) status appended) }

    // Without a fault only want of memory stands between the words and their answer.
    ensures complete { IfSome result (λ status. (files : Files) (before : List ℕ) → F.files shelf.old ≡ Some files → K.written sink.old ≡ Some before →
        HasNoFault (record { shelf_before = F.faults shelf.old; shelf_now = F.faults shelf.new; sink_before = K.faults sink.old; sink_now = K.faults sink.new }) →
        (appended : List ℕ) × (K.written sink.new ≡ Some (before ++ appended)) × IsComplete (work_for (map string_bytes words.now)) files status appended) }

    // Over any shelf and sink.
    ensures words { IfSome result (λ status. status ≢ Memory → status ≢ WriteFault → (status ≡ BadWords) ↔ (request_of (map string_bytes words.now) ≡ None)) }
    ensures generated { IfSome result (λ status. status ≢ Memory → status ≢ WriteFault → (status ≡ Generated) ↔ Generates (request_of (map string_bytes words.now))) }
    ensures memory { IfSome result (λ status. status ≡ Memory → K.written sink.new ≡ K.written sink.old) }
    ensures read_fault { IfSome result (λ status. status ≡ ReadFault → Rises (F.faults shelf.old) (F.faults shelf.new)) }
    ensures write_fault { IfSome result (λ status. status ≡ WriteFault → Rises (K.faults sink.old) (K.faults sink.new)) }
    ensures shelf_grows { F.faults shelf.old ≤ F.faults shelf.new }
    ensures sink_grows { K.faults sink.old ≤ K.faults sink.new }
{
    if asks_workers(words) {
        return None;
    }
    let jobs = |problem: &Problem, plan: JobPlan, workers: u32, ahead: u8| -> Result<
        Finished,
        AllocError,
    >
        requires { MayAsk problem.now plan workers ahead }
        ensures { IfOk result (IsFinished problem.entry.now plan ahead) }
    { done_alone(alloc, problem, plan, workers, ahead) };
    Some(run_with(alloc, words, shelf, sink, &jobs))
}

/// Whether the words ask for workers.
fn asks_workers(words: &[String]) -> bool
    ensures { result ≡ asks_workers (request_of (map string_bytes words.now)) }
{
    match read_words(words) {
        Some(Command::Diagnose { workers, .. }) => workers > 0,
        _ => false,
    }
}

/// Does the command that the words say, with the jobs done by `jobs`.
fn run_with<F: Shelf, K: Sink, J: Fn(&Problem, JobPlan, u32, u8) -> Result<Finished, AllocError>>(
    alloc: Global,
    words: &[String],
    shelf: &mut F,
    sink: &mut K,
    jobs: &J,
) -> Status
    requires takes { TakesJobs (J.pre jobs.now) }
    requires does { DoesJobs (J.post jobs.now) }
    // Over a shelf and a sink that tell their contents, one of four cases.
    ensures told { (files : Files) (before : List ℕ) → F.files shelf.old ≡ Some files → K.written sink.old ≡ Some before →
        (appended : List ℕ) × (K.written sink.new ≡ Some (before ++ appended)) × IsRun (work_for (map string_bytes words.now)) files (F.lost shelf.new)
        (record { shelf_before = F.faults shelf.old; shelf_now = F.faults shelf.new; sink_before = K.faults sink.old; sink_now = K.faults sink.new }) result appended }

    // Without a fault only want of memory stands between the words and their answer.
    ensures complete { (files : Files) (before : List ℕ) → F.files shelf.old ≡ Some files → K.written sink.old ≡ Some before →
        HasNoFault (record { shelf_before = F.faults shelf.old; shelf_now = F.faults shelf.new; sink_before = K.faults sink.old; sink_now = K.faults sink.new }) →
        (appended : List ℕ) × (K.written sink.new ≡ Some (before ++ appended)) × IsComplete (work_for (map string_bytes words.now)) files result appended }

    // Over any shelf and sink.
    ensures words { result ≢ Memory → result ≢ WriteFault → (result ≡ BadWords) ↔ (request_of (map string_bytes words.now) ≡ None) }
    ensures generated { result ≢ Memory → result ≢ WriteFault → (result ≡ Generated) ↔ Generates (request_of (map string_bytes words.now)) }
    ensures memory { result ≡ Memory → K.written sink.new ≡ K.written sink.old }
    ensures read_fault { result ≡ ReadFault → Rises (F.faults shelf.old) (F.faults shelf.new) }
    ensures write_fault { result ≡ WriteFault → Rises (K.faults sink.old) (K.faults sink.new) }
    ensures shelf_grows { F.faults shelf.old ≤ F.faults shelf.new }
    ensures sink_grows { K.faults sink.old ≤ K.faults sink.new }
{
    let reply = match reply_to(alloc, words, shelf, jobs) {
        Ok(reply) => reply,
        Err(AllocError) => return Status::Memory,
    };
    match put_whole(sink, reply.text.as_slice()) {
        Ok(()) => reply.status,
        Err(_) => Status::WriteFault,
    }
}

/// What is to be answered to the words.
fn reply_to<F: Shelf, J: Fn(&Problem, JobPlan, u32, u8) -> Result<Finished, AllocError>>(
    alloc: Global,
    words: &[String],
    shelf: &mut F,
    jobs: &J,
) -> Result<Reply, AllocError>
    requires takes { TakesJobs (J.pre jobs.now) }
    requires does { DoesJobs (J.post jobs.now) }
    ensures told { IfOk result (λ reply. IfSome (F.files shelf.old) (λ files. Follows files (F.lost shelf.new) (work_for (map string_bytes words.now)) reply)) }
    ensures words { IfOk result (λ reply. (reply.status ≡ BadWords) ↔ (request_of (map string_bytes words.now) ≡ None)) }
    ensures read_fault { IfOk result (λ reply. reply.status ≡ ReadFault → Rises (F.faults shelf.old) (F.faults shelf.new)) }
    ensures generated { IfOk result (λ reply. (reply.status ≡ Generated) ↔ Generates (request_of (map string_bytes words.now))) }
    ensures others { IfOk result (λ reply. (reply.status ≢ Memory) × (reply.status ≢ WriteFault)) }
    ensures never_falls { F.faults shelf.old ≤ F.faults shelf.new }
{
    match read_words(words) {
        None => Reply::of(alloc, Status::BadWords, b"words refused\n"),
        Some(
            Command::Diagnose {
                model,
                config,
                workers,
                ahead,
                allowance,
                rungs,
                list,
                certify,
            },
        ) => {
            let limits = Limits {
                allowance,
                rungs,
                list,
                ahead,
                workers,
                certify,
            };
            with_both(alloc, shelf, model, config, Task::Advise(limits), jobs)
        }
        Some(
            Command::Verify {
                model,
                config,
                certificate,
            },
        ) => with_both(alloc, shelf, model, config, Task::Verify(certificate), jobs),
        Some(Command::Generate { seed, size, what }) => generated(alloc, seed, size, what, jobs),
    }
}
