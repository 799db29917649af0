//! What a caller may rely on of the guessed keys of a job, and how the turns over its run go on.
ghost use Rattle.std.specs.Prelude.{◌≡◌, [], ◌∷◌, ◌++◌, All, Contains, Some, ℕ};
ghost use Rattle.lists.specs.Distinct.{IsDistinct};
ghost use Rattle.look_ahead.specs.Ahead.{keys_ahead};
ghost use Rattle.look_ahead.specs.Posting.{nothing_posted};
ghost use Rattle.look_ahead.specs.Postings.{posting, turn_at, turns_over, wants_of};
ghost use Rattle.req_keys.specs.Key.{PositionSet};
ghost use Rattle.req_keys.specs.declared.verdict.Verdict.{Verdict};
ghost use Rattle.script.specs.declared.job.JobPlan.{JobPlan};
ghost use Rattle.script.specs.Job.{Told};

use script::job_asks_new_keys;

/// The keys that are guessed of a job are what a turn asks for: none stands twice, none is the asked one, and all are over the
/// job's positions.
pub fn guessed_keys_fit_a_turn()
    ensures distinct { (plan : JobPlan) (told : Told) (depth : ℕ) → IsDistinct (keys_ahead (wants_of plan) told depth) }
    ensures others { (plan : JobPlan) (told : Told) (depth : ℕ) (asked : PositionSet) → wants_of plan told ≡ Some asked →
        ¬ Contains (keys_ahead (wants_of plan) told depth) asked }
    ensures positions { (plan : JobPlan) (told : Told) (depth : ℕ) →
        All (λ key. key.n ≡ plan.requirements) (keys_ahead (wants_of plan) told depth) }
{
    job_asks_new_keys();
}

/// The turns over one told pair more end with that pair's turn, and without a depth no turn posts anything.
pub fn turns_go_on()
    ensures one_more { (plan : JobPlan) (depth entries : ℕ) (told : Told) (key : PositionSet) (verdict : Verdict) →
        turns_over plan depth [] (told ++ (key, verdict) ∷ []) (nothing_posted entries)
        ≡ turn_at plan depth told key (turns_over plan depth [] told (nothing_posted entries)) }
    ensures no_depth { (plan : JobPlan) (verdict : PositionSet → Verdict) (entries : ℕ) →
        posting plan verdict 0 entries ≡ nothing_posted entries }
{}
