//! What a job asks, that its sequential run ends, and what its outcome says.
ghost use Rattle.std.specs.Prelude.{◌≡◌, ◌^◌, ◌≤◌, All, Contains, IsSome, List, None, Some, [], ◌∷◌, ◌++◌, length, map, ℕ};
ghost use Rattle.clauses.specs.Met.{AreMet};
ghost use Rattle.clauses.specs.Problem.{ClauseProblem, IsProblem};
ghost use Rattle.pref_sets.specs.Properties.{PassesToFewer};
ghost use Rattle.req_keys.specs.Key.{PositionSet};
ghost use Rattle.req_keys.specs.Positions.{RiseWithin};
ghost use Rattle.req_keys.specs.declared.verdict.Verdict.{Verdict};
ghost use Rattle.script.specs.declared.job.JobPlan.{JobPlan};
ghost use Rattle.script.specs.declared.job.Outcome.{Outcome};
ghost use Rattle.script.specs.declared.job.Part.{Part};
ghost use Rattle.script.specs.Job.{Told, asks, ends, verdict_in, want};
ghost use Rattle.script.specs.Right.{AreTrue, IsRight};
ghost use Rattle.script.specs.Sequential.{IsSoFar, check_count, needs, result_of, told_within, verdicts_of};

use clauses::verdict_says_what_is_met;
use hs_tree::tree_lists_minimal_diagnoses;
use pref_sets::{Property, fd_is_kept, qx_is_trimmed};

/// A job asks no key that was told, whatever was told, and each key that it asks is one of its positions.
pub fn job_asks_new_keys()
    ensures new { (plan : JobPlan) (told : Told) (part : Part) (key : PositionSet) →
        want plan told ≡ asks part key → verdict_in told key ≡ None }
    ensures positions { (plan : JobPlan) (told : Told) (part : Part) (key : PositionSet) →
        want plan told ≡ asks part key → (key.n ≡ plan.requirements) × RiseWithin 0 plan.requirements key.members }
{}

/// The sequential run ends: after as many checks as there are sets of its positions nothing more is wanted, and more turns
/// change nothing. Each check that it needs is on a key of its positions and has that key's verdict.
pub fn sequential_run_ends()
    ensures ends { (plan : JobPlan) (verdict : PositionSet → Verdict) → IsSome (result_of plan verdict) }
    ensures enough { (plan : JobPlan) (verdict : PositionSet → Verdict) (count : ℕ) → check_count plan ≤ count →
        told_within count plan verdict [] ≡ needs plan verdict }
    ensures positions { (plan : JobPlan) (verdict : PositionSet → Verdict) →
        All (λ pair. (pair.0.n ≡ plan.requirements) × RiseWithin 0 plan.requirements pair.0.members) (needs plan verdict) }
    ensures answered { (plan : JobPlan) (verdict : PositionSet → Verdict) →
        All (λ pair. pair.1 ≡ verdict pair.0) (needs plan verdict) }
{}

/// A loop that tells each wanted key its verdict is the sequential run: it begins with nothing told, and goes on by each pair.
/// What it has told begins the needed checks and is no more than there are sets; where the job ends, it is all of them, and
/// the outcome is that of the run.
pub fn run_goes_on()
    ensures none { (plan : JobPlan) (verdict : PositionSet → Verdict) → IsSoFar plan verdict [] }
    ensures one_more { (plan : JobPlan) (verdict : PositionSet → Verdict) (told : Told) (part : Part) (key : PositionSet) →
        IsSoFar plan verdict told → want plan told ≡ asks part key →
        IsSoFar plan verdict (told ++ (key, verdict key) ∷ []) }
    ensures few { (plan : JobPlan) (verdict : PositionSet → Verdict) (told : Told) → IsSoFar plan verdict told →
        length told ≤ 2 ^ plan.requirements }
    ensures begins { (plan : JobPlan) (verdict : PositionSet → Verdict) (told : Told) → IsSoFar plan verdict told →
        (rest : Told) × (needs plan verdict ≡ told ++ rest) }
    ensures all { (plan : JobPlan) (verdict : PositionSet → Verdict) (told : Told) (outcome : Outcome) →
        IsSoFar plan verdict told → want plan told ≡ ends outcome →
        (told ≡ needs plan verdict) × (result_of plan verdict ≡ Some outcome) }
{}

/// Over right verdicts the outcome is right: all positions have the property, or not even the empty set has, or the kept set
/// is the preferred relaxation, the conflict the preferred conflict, and the listing, if asked for, that of the minimal
/// diagnoses. Also what was finished before a Limit is right. The property passes to fewer members, as 'can be met
/// together'.
pub fn outcome_is_right<P: Property>()
    ensures { (about : P) (plan : JobPlan) (told : Told) (outcome : Outcome) → PassesToFewer (P.holds about) →
        AreTrue (P.holds about) told → want plan told ≡ ends outcome → IsRight (P.holds about) plan outcome }
{
    fd_is_kept::<P>();
    qx_is_trimmed::<P>();
    tree_lists_minimal_diagnoses::<P>();
}

/// On a problem each verdict that the sequential run tells is right, for which requirements can be met together.
pub fn verdicts_of_a_problem_are_true()
    ensures { (problem : ClauseProblem) (plan : JobPlan) (told : Told) → IsProblem problem →
        IsSoFar plan (verdicts_of problem) told → AreTrue (AreMet problem) told }
{
    verdict_says_what_is_met();
}
