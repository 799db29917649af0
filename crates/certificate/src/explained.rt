//! The parts of a certificate that explains.
ghost use Rattle.std.specs.Prelude.{◌≡◌, ◌≤◌, [], ◌∷◌, ◌++◌, ℕ, List, length};
ghost use Rattle.std.specs.List.{flat_map};
ghost use Rattle.clauses.specs.Problem.{ClauseProblem};
ghost use Rattle.config_reader.specs.Laws.{AreNamed};
ghost use Rattle.req_keys.specs.Key.{IsKey};
ghost use Rattle.certificate.specs.Judging.{Subject, count_of, need_parts, refuted_parts};
ghost use Rattle.certificate.specs.Sets.{given_up};
ghost use Rattle.certificate.specs.inside.Passing.{Leads, Passes};

use crate::derivations::derivation;
use crate::judgement::Why;
use crate::keys::{key_of, needed_key, refuted_key};
use crate::lines::Lines;
use crate::numbers::read_list;
use crate::parts::{Buffers, Stop, numbered, product};
use clauses::Lits;
use config_reader::Config;
use derivation_check::Checker;
use feature_tree::Model;
use lists::Numbers;
use req_keys::Key;
use std::alloc::Global;

/// A line with this word and a list, as a key over so many positions.
pub(crate) fn listed(
    alloc: Global,
    lines: &mut Lines<'_>,
    word: &[u8],
    n: u32,
    numbers: &mut Numbers,
) -> Result<Key, Stop>
    requires { n ≤ 4096 }
    ensures { Leads word.now n lines.old lines.new result }
{
    let number = lines.number();
    let Some(line) = lines.next() else {
        return Err(Stop::Refused {
            line: number,
            why: Why::BadLine,
        });
    };
    if !read_list(line, word, n, numbers)? {
        return Err(Stop::Refused {
            line: number,
            why: Why::BadLine,
        });
    }
    Ok(key_of(alloc, n, numbers.as_slice())?)
}

/// That a position can't join what is kept before it.
fn refuted(
    alloc: Global,
    variables: u32,
    kept: &Key,
    position: u32,
    checker: &mut Checker<'_>,
    clause: &mut Lits,
    lines: &mut Lines<'_>,
) -> Result<(), Stop>
    requires variables { variables ≡ checker.old.problem.variables }
    requires key { kept.now.n ≡ length checker.old.problem.roots }
    requires counted { 1 ≤ position }
    requires within { position ≤ kept.now.n }
    ensures passes { (about : Subject) → about.problem ≡ checker.old.problem → count_of about ≡ kept.now.n → Passes about (refuted_parts about kept.now.members position) lines.old lines.new result }
    ensures problem { checker.new.problem ≡ checker.old.problem }
{
    numbered(alloc, lines, "refute", position)?;
    let key = refuted_key(alloc, kept, position)?;
    derivation(variables, checker, key, clause, lines)
}

/// That a member of the conflict is needed.
fn needed(
    alloc: Global,
    model: &Model,
    config: &Config,
    conflict: &Key,
    member: u32,
    buffers: &mut Buffers,
    lines: &mut Lines<'_>,
) -> Result<(), Stop>
    requires sized { length buffers.old.set.items ≡ length model.now.features }
    requires requirements { AreNamed (length model.now.features) config.now.requirements }
    requires musts { AreNamed (length model.now.features) config.now.musts }
    requires key { conflict.now.n ≡ length config.now.requirements }
    requires counted { 1 ≤ member }
    requires within { member ≤ conflict.now.n }
    ensures passes { (problem : ClauseProblem) → Passes (record { model = model.now; config = config.now; problem = problem }) (need_parts (record { model = model.now; config = config.now; problem = problem }) conflict.now.members member) lines.old lines.new result }
    ensures sized { length buffers.new.set.items ≡ length buffers.old.set.items }
{
    numbered(alloc, lines, "need", member)?;
    let key = needed_key(alloc, conflict, member)?;
    product(model, config, &key, buffers, lines)
}

/// That no position that isn't kept can join what is kept before it.
pub(crate) fn all_refuted(
    alloc: Global,
    variables: u32,
    kept: &Key,
    checker: &mut Checker<'_>,
    clause: &mut Lits,
    lines: &mut Lines<'_>,
) -> Result<(), Stop>
    requires variables { variables ≡ checker.old.problem.variables }
    requires key { kept.now.n ≡ length checker.old.problem.roots }
    ensures passes { (about : Subject) → about.problem ≡ checker.old.problem → count_of about ≡ kept.now.n → Passes about (flat_map (refuted_parts about kept.now.members) (given_up kept.now.n kept.now.members)) lines.old lines.new result }
    ensures problem { checker.new.problem ≡ checker.old.problem }
{
    for place in 0..kept.n() {
        if !kept.contains(place + 1) {
            refuted(alloc, variables, kept, place + 1, checker, clause, lines)?;
        }
    }
    Ok(())
}

/// That each member of the conflict is needed.
pub(crate) fn all_needed(
    alloc: Global,
    model: &Model,
    config: &Config,
    conflict: &Key,
    buffers: &mut Buffers,
    lines: &mut Lines<'_>,
) -> Result<(), Stop>
    requires sized { length buffers.old.set.items ≡ length model.now.features }
    requires requirements { AreNamed (length model.now.features) config.now.requirements }
    requires musts { AreNamed (length model.now.features) config.now.musts }
    requires key { conflict.now.n ≡ length config.now.requirements }
    ensures passes { (problem : ClauseProblem) → Passes (record { model = model.now; config = config.now; problem = problem }) (flat_map (need_parts (record { model = model.now; config = config.now; problem = problem }) conflict.now.members) conflict.now.members) lines.old lines.new result }
    ensures sized { length buffers.new.set.items ≡ length buffers.old.set.items }
{
    let same = conflict.n() as usize == config.requirements.len();
    prove!(same);
    let members = conflict.positions()?;
    for member in members.as_slice() {
        needed(alloc, model, config, conflict, *member, buffers, lines)?;
    }
    Ok(())
}
