//! The parts of a certificate, each from the lines that it takes.
ghost use Rattle.std.specs.Prelude.{◌≡◌, [], ◌∷◌, ◌++◌, length, codes, IfOk};
ghost use Rattle.std.specs.Fmt.{decimal};
ghost use Rattle.clauses.specs.Problem.{ClauseProblem};
ghost use Rattle.config_reader.specs.Laws.{AreNamed};
ghost use Rattle.certificate.specs.Judging.{Subject, Exactly, Product, is_wanted as wanted};
ghost use Rattle.certificate.specs.inside.Passing.{EndsHere, Passes};

use crate::judgement::Why;
use crate::lines::Lines;
use crate::products::{musts_hold, read_product, requirements_hold};
use clauses::Lits;
use config_reader::Config;
use feature_tree::Model;
use lists::Numbers;
use req_keys::Key;
use std::alloc::{AllocError, Global};

/// Why no more lines are read.
pub(crate) enum Stop {
    /// This line is refused.
    Refused { line: u32, why: Why },
    /// There was no memory for it.
    Memory,
}

impl From<AllocError> for Stop {
    ghost use Rattle.std.specs.Prelude.{◌≡◌};
    ghost use Rattle.certificate.specs.declared.parts.Stop.{Stop};

    ghost from_gives = { λ _ e. e ≡ Stop.Memory };

    fn from(_: AllocError) -> Stop {
        Stop::Memory
    }
}

/// What is used again from line to line.
#[derive(Drop)]
pub(crate) struct Buffers {
    pub numbers: Numbers,
    /// A member for each feature.
    pub set: Vec<bool>,
    pub clause: Lits,
}

/// This line.
pub(crate) fn exactly(lines: &mut Lines<'_>, text: &[u8]) -> Result<(), Stop>
    ensures { (about : Subject) → Passes about (Exactly text.now ∷ []) lines.old lines.new result }
{
    let number = lines.number();
    let why = Why::BadLine;
    match lines.next() {
        Some(line) if line == text => Ok(()),
        _ => Err(Stop::Refused { line: number, why }),
    }
}

/// This word, and a number behind it.
pub(crate) fn numbered(
    alloc: Global,
    lines: &mut Lines<'_>,
    word: &str,
    number: u32,
) -> Result<(), Stop>
    ensures { (about : Subject) → Passes about (Exactly (word.now ++ codes " " ++ decimal number) ∷ []) lines.old lines.new result }
{
    let text = format!(in alloc; "{word} {number}")?;
    exactly(lines, text.as_str().as_bytes())
}

/// No more lines.
pub(crate) fn ends(lines: &mut Lines<'_>) -> Result<(), Stop>
    ensures { EndsHere lines.old result }
{
    let number = lines.number();
    let why = Why::BadLine;
    match lines.next() {
        None => Ok(()),
        Some(_) => Err(Stop::Refused { line: number, why }),
    }
}

/// A line with a product that makes the musts and the requirements at the key's positions true.
pub(crate) fn product(
    model: &Model,
    config: &Config,
    key: &Key,
    buffers: &mut Buffers,
    lines: &mut Lines<'_>,
) -> Result<(), Stop>
    requires sized { length buffers.old.set.items ≡ length model.now.features }
    requires requirements { AreNamed (length model.now.features) config.now.requirements }
    requires musts { AreNamed (length model.now.features) config.now.musts }
    requires key { key.now.n ≡ length config.now.requirements }
    ensures passes { (problem : ClauseProblem) → Passes (record { model = model.now; config = config.now; problem = problem }) (Product key.now.members ∷ []) lines.old lines.new result }
    ensures sized { length buffers.new.set.items ≡ length buffers.old.set.items }
{
    let number = lines.number();
    let Some(line) = lines.next() else {
        return Err(Stop::Refused {
            line: number,
            why: Why::BadLine,
        });
    };
    let count = model.features.len() as u32;
    if !read_product(
        line,
        count,
        &mut buffers.numbers,
        buffers.set.as_mut_slice(),
    )? {
        return Err(Stop::Refused {
            line: number,
            why: Why::BadLine,
        });
    }
    if is_wanted(model, config, key, buffers.set.as_slice())? {
        Ok(())
    } else {
        Err(Stop::Refused {
            line: number,
            why: Why::NotProduct,
        })
    }
}

/// Whether the set is a product that makes the musts and the requirements at the key's positions true.
fn is_wanted(model: &Model, config: &Config, key: &Key, set: &[bool]) -> Result<bool, AllocError>
    requires sized { length set.now ≡ length model.now.features }
    requires requirements { AreNamed (length model.now.features) config.now.requirements }
    requires musts { AreNamed (length model.now.features) config.now.musts }
    requires key { key.now.n ≡ length config.now.requirements }
    ensures { IfOk result (λ yes. yes ≡ wanted model.now config.now key.now.members set.now) }
{
    if !model.is_product(set) || !musts_hold(config.musts.as_slice(), set) {
        return Ok(false);
    }
    requirements_hold(config, key, set)
}
