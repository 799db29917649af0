//! What holds of every answer and of every outcome.
ghost use Rattle.diag_top.specs.Laws.{AdviceIsRight, AnswersAreNoFaults, LimitsAreNeeded, WorkersChangeNothing};

use config_reader::Config;
use feature_tree::Model;
use pref_sets::Property;
use script::outcome_is_right;

/// An answer is never want of memory or a fault, so that the ends of a run exclude each other.
pub fn answers_are_no_faults()
    ensures { AnswersAreNoFaults }
{}

/// Two command lines that differ in nothing but how many workers they ask for have the same answer over the same files, or both
/// have none.
pub fn workers_change_nothing()
    ensures { WorkersChangeNothing }
{}

/// The advice in words of products. Consistent comes only where one product makes every must and every requirement true,
/// Background only where none makes the musts true. Where they are explained, what is kept is the preferred relaxation and
/// the conflict the preferred conflict (Junker 2004), and the listing has every minimal diagnosis up to its size once (Reiter
/// 1987), for 'some product makes the musts and these requirements true'. At a limit the same holds of the parts that were
/// finished before.
pub fn advice_is_right()
    ensures { AdviceIsRight }
{
    outcome_is_right::<Configured>();
}

/// A job ends with a limit exactly where a check that it needs has the verdict Limit, and the key that it names is such a one. A
/// check that is only guessed ahead and not needed is never seen.
pub fn limits_are_needed()
    ensures { LimitsAreNeeded }
{}

/// A configuration of a model.
#[derive(Drop)]
struct Configured {
    model: Model,
    config: Config,
}

/// Requirements at some positions are consistent where some product makes the musts and these true.
impl Property for Configured {
    ghost use Rattle.config_reader.specs.Consistent.{AreConsistent};

    ghost holds = { λ configured. AreConsistent configured.model configured.config };
}
