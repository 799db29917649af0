//! Checking a whole certificate.
ghost use Rattle.std.specs.Prelude.{◌≡◌, ◌≤◌, [], ◌∷◌, IfOk, IsFalse, IsTrue, codes, length};
ghost use Rattle.clause_form.specs.ClauseForm.{problem_of};
ghost use Rattle.clauses.specs.Problem.{ClauseProblem};
ghost use Rattle.config_reader.specs.Laws.{AreNamed};
ghost use Rattle.certificate.specs.Judging.{Kept, Kind, Subject, background_parts, conflict_parts, consistent_parts, judge, judged_from_start};
ghost use Rattle.certificate.specs.inside.Fronts.{front_parts};
ghost use Rattle.certificate.specs.inside.Ahead.{judged_at};
ghost use Rattle.certificate.specs.inside.Kinds.{KindIs};
ghost use Rattle.certificate.specs.inside.Passing.{EndsAfter, Passes, Shows};
ghost use Rattle.certificate.specs.declared.judgement.Judgement.TheVariants.{No};
ghost use Rattle.certificate.specs.declared.judgement.Why.TheVariants.{NoCertificate};

use crate::derivations::derivation;
use crate::explained::{all_needed, all_refuted, listed};
use crate::judgement::{Judgement, Shown, Why};
use crate::lines::Lines;
use crate::parts::{Buffers, Stop, ends, exactly, product};
use clauses::{Lits, Problem};
use config_reader::Config;
use derivation_check::Checker;
use feature_tree::Model;
use lists::Numbers;
use req_keys::Key;
use std::alloc::{AllocError, Global};

/// What a certificate is about.
#[derive(Clone, Copy)]
struct Given<'a> {
    model: &'a Model,
    config: &'a Config,
    problem: &'a Problem,
}

/// Judges a certificate: whether its lines show what they say of the configuration of the model, and else which line is the
/// first that doesn't. It takes the lines one by one and stops at that line.
pub fn verify(
    alloc: Global,
    model: &Model,
    config: &Config,
    problem: &Problem,
    bytes: &[u8],
) -> Result<Judgement, AllocError>
    requires requirements { AreNamed (length model.now.features) config.now.requirements }
    requires musts { AreNamed (length model.now.features) config.now.musts }
    requires problem { problem.now ≡ problem_of model.now config.now problem.now.allowance problem.now.rungs }
    requires few { length bytes.now ≤ 268435456 }
    ensures { IfOk result (λ judgement. judgement ≡ judge model.now config.now problem.now bytes.now) }
{
    let mut lines = Lines::new(bytes);
    if !begins(&mut lines) {
        let line = lines.number();
        return Ok(Judgement::No {
            line,
            why: Why::NoCertificate,
        });
    }
    let given = Given {
        model,
        config,
        problem,
    };
    match shown(alloc, given, &mut lines) {
        Ok(shown) => Ok(Judgement::Yes(shown)),
        Err(Stop::Refused { line, why }) => Ok(Judgement::No { line, why }),
        Err(Stop::Memory) => Err(AllocError),
    }
}

/// Goes behind the line that begins a certificate, if there is one.
fn begins(lines: &mut Lines<'_>) -> bool
    ensures begun { IsTrue result → (about : Subject) → judged_from_start about lines.old.number lines.old.lines ≡ judged_at about (Kind ∷ []) lines.new }
    ensures none { IsFalse result → (about : Subject) → judged_from_start about lines.old.number lines.old.lines ≡ No lines.new.number NoCertificate }
{
    'lines: while let Some(line) = lines.next() {
        if line == b"certificate 1".as_slice() {
            return true;
        }
    }
    false
}

/// What a certificate says of the requirements.
#[derive(Clone, Copy)]
pub(crate) enum Said {
    Consistent,
    Background,
    Explained,
}

/// The line that says it.
fn kind(lines: &mut Lines<'_>) -> Result<Said, Stop>
    ensures { KindIs lines.old lines.new result }
{
    let number = lines.number();
    match lines.next() {
        Some(line) if line == b"consistent".as_slice() => Ok(Said::Consistent),
        Some(line) if line == b"background".as_slice() => Ok(Said::Background),
        Some(line) if line == b"explained".as_slice() => Ok(Said::Explained),
        _ => Err(Stop::Refused {
            line: number,
            why: Why::BadLine,
        }),
    }
}

/// The last line, and none behind it.
fn ended(lines: &mut Lines<'_>) -> Result<(), Stop>
    ensures { EndsAfter (codes "end") lines.old result }
{
    exactly(lines, b"end")?;
    ends(lines)
}

/// A certificate that all requirements can be met.
fn consistent(
    alloc: Global,
    model: &Model,
    config: &Config,
    buffers: &mut Buffers,
    lines: &mut Lines<'_>,
) -> Result<Shown, Stop>
    requires sized { length buffers.old.set.items ≡ length model.now.features }
    requires requirements { AreNamed (length model.now.features) config.now.requirements }
    requires musts { AreNamed (length model.now.features) config.now.musts }
    ensures { (problem : ClauseProblem) → let about : Subject = record { model = model.now; config = config.now; problem = problem } in Shows about (consistent_parts about) lines.old result }
{
    let all = Key::full(alloc, config.requirements.len() as u32)?;
    product(model, config, &all, buffers, lines)?;
    ended(lines)?;
    Ok(Shown::Consistent)
}

/// A certificate that the musts can't be met.
fn background(
    alloc: Global,
    problem: &Problem,
    checker: &mut Checker<'_>,
    clause: &mut Lits,
    lines: &mut Lines<'_>,
) -> Result<Shown, Stop>
    requires { checker.old.problem ≡ problem.now }
    ensures { (about : Subject) → about.problem ≡ problem.now → Shows about (background_parts about) lines.old result }
{
    let none = Key::empty(alloc, problem.n())?;
    derivation(problem.variables, checker, none, clause, lines)?;
    ended(lines)?;
    Ok(Shown::Background)
}

/// That the conflict can't be met, and each member is needed for that.
fn conflict_refuted(
    alloc: Global,
    given: Given<'_>,
    conflict: &Key,
    checker: &mut Checker<'_>,
    buffers: &mut Buffers,
    lines: &mut Lines<'_>,
) -> Result<(), Stop>
    requires checker { checker.old.problem ≡ given.problem.now }
    requires sized { length buffers.old.set.items ≡ length given.model.now.features }
    requires requirements { AreNamed (length given.model.now.features) given.config.now.requirements }
    requires musts { AreNamed (length given.model.now.features) given.config.now.musts }
    requires key { conflict.now.n ≡ length given.config.now.requirements }
    requires roots { length given.problem.now.roots ≡ length given.config.now.requirements }
    ensures { let about : Subject = record { model = given.entry.model.now; config = given.entry.config.now; problem = given.entry.problem.now } in Passes about (conflict_parts about conflict.now.members) lines.old lines.new result }
{
    exactly(lines, b"refute conflict")?;
    let key = conflict.copy()?;
    let problem = given.problem;
    let variables = problem.variables;
    derivation(variables, checker, key, &mut buffers.clause, lines)?;
    all_needed(alloc, given.model, given.config, conflict, buffers, lines)
}

/// That what is kept can be met, that nothing can join it, and that the conflict is one.
fn lists_shown(
    alloc: Global,
    given: Given<'_>,
    kept: &Key,
    conflict: &Key,
    checker: &mut Checker<'_>,
    buffers: &mut Buffers,
    lines: &mut Lines<'_>,
) -> Result<(), Stop>
    requires checker { checker.old.problem ≡ given.problem.now }
    requires sized { length buffers.old.set.items ≡ length given.model.now.features }
    requires requirements { AreNamed (length given.model.now.features) given.config.now.requirements }
    requires musts { AreNamed (length given.model.now.features) given.config.now.musts }
    requires kept { kept.now.n ≡ length given.config.now.requirements }
    requires conflict { conflict.now.n ≡ length given.config.now.requirements }
    requires roots { length given.problem.now.roots ≡ length given.config.now.requirements }
    ensures { let about : Subject = record { model = given.entry.model.now; config = given.entry.config.now; problem = given.entry.problem.now } in Passes about (front_parts about kept.now.members conflict.now.members) lines.old lines.new result }
{
    product(given.model, given.config, kept, buffers, lines)?;
    let problem = given.problem;
    let variables = problem.variables;
    all_refuted(alloc, variables, kept, checker, &mut buffers.clause, lines)?;
    conflict_refuted(alloc, given, conflict, checker, buffers, lines)
}

/// A certificate that explains.
fn explained(
    alloc: Global,
    given: Given<'_>,
    checker: &mut Checker<'_>,
    buffers: &mut Buffers,
    lines: &mut Lines<'_>,
) -> Result<Shown, Stop>
    requires checker { checker.old.problem ≡ given.problem.now }
    requires sized { length buffers.old.set.items ≡ length given.model.now.features }
    requires requirements { AreNamed (length given.model.now.features) given.config.now.requirements }
    requires musts { AreNamed (length given.model.now.features) given.config.now.musts }
    requires roots { length given.problem.now.roots ≡ length given.config.now.requirements }
    ensures { let about : Subject = record { model = given.entry.model.now; config = given.entry.config.now; problem = given.entry.problem.now } in Shows about (Kept ∷ []) lines.old result }
{
    let config = given.config;
    let n = config.requirements.len() as u32;
    let kept = listed(alloc, lines, b"kept", n, &mut buffers.numbers)?;
    let conflict = listed(alloc, lines, b"conflict", n, &mut buffers.numbers)?;
    lists_shown(alloc, given, &kept, &conflict, checker, buffers, lines)?;
    ended(lines)?;
    Ok(Shown::Explained { kept, conflict })
}

/// What the lines behind the first one show.
fn shown(alloc: Global, given: Given<'_>, lines: &mut Lines<'_>) -> Result<Shown, Stop>
    requires requirements { AreNamed (length given.model.now.features) given.config.now.requirements }
    requires musts { AreNamed (length given.model.now.features) given.config.now.musts }
    requires roots { length given.problem.now.roots ≡ length given.config.now.requirements }
    ensures { let about : Subject = record { model = given.entry.model.now; config = given.entry.config.now; problem = given.entry.problem.now } in Shows about (Kind ∷ []) lines.old result }
{
    let said = kind(lines)?;
    let model = given.model;
    let count = model.features.len();
    let set = vec![in alloc; false; count]?;
    let mut buffers = Buffers {
        numbers: Numbers::new(alloc),
        set,
        clause: Lits::new(alloc),
    };
    let mut checker = Checker::new(alloc, given.problem)?;
    match said {
        Said::Consistent => consistent(alloc, model, given.config, &mut buffers, lines),
        Said::Background => background(
            alloc,
            given.problem,
            &mut checker,
            &mut buffers.clause,
            lines,
        ),
        Said::Explained => explained(alloc, given, &mut checker, &mut buffers, lines),
    }
}
