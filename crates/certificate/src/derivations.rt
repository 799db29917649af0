//! A derivation, line by line.
ghost use Rattle.std.specs.Prelude.{◌≡◌, [], ◌∷◌, All, length};
ghost use Rattle.clauses.specs.Problem.{IsBelow, clauses_with};
ghost use Rattle.certificate.specs.Judging.{Subject, Derivation};
ghost use Rattle.certificate.specs.inside.Passing.{Passes};

use crate::judgement::Why;
use crate::lines::Lines;
use crate::parts::Stop;
use crate::saying::{Said, read_saying};
use clauses::Lits;
use derivation_check::Checker;
use req_keys::Key;

/// The lines of a derivation over the roots of the key, up to its end.
pub(crate) fn derivation(
    variables: u32,
    checker: &mut Checker<'_>,
    key: Key,
    clause: &mut Lits,
    lines: &mut Lines<'_>,
) -> Result<(), Stop>
    requires variables { variables ≡ checker.old.problem.variables }
    requires key { key.n ≡ length checker.old.problem.roots }
    ensures passes { (about : Subject) → about.problem ≡ checker.old.problem → Passes about (Derivation (clauses_with about.problem key) ∷ []) lines.old lines.new result }
    ensures problem { checker.new.problem ≡ checker.old.problem }
{
    checker.begin(key);
    'lines: loop {
        let number = lines.number();
        let Some(line) = lines.next() else {
            return Err(Stop::Refused {
                line: number,
                why: Why::NoEnd,
            });
        };
        clause.truncate(0);
        let why = match read_saying(line, variables, clause)? {
            Said::Learns if checker.accepts(clause.as_slice())? => continue,
            Said::Clashes if checker.clashes() => return Ok(()),
            Said::Learns | Said::Clashes => Why::NotConsequence,
            Said::Malformed => Why::BadLine,
            Said::Foreign => Why::NoEnd,
        };
        return Err(Stop::Refused { line: number, why });
    }
}
