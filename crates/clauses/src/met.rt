//! Which requirements can be met together, and what a verdict says of it.
ghost use Rattle.std.specs.Prelude.{◌≡◌, ◌↔◌, ◌++◌, All, Bool, IsSome, List, Some, length, ℕ};
ghost use Rattle.pref_sets.specs.Preferred.{IsWithin};
ghost use Rattle.pref_sets.specs.Properties.{PassesToFewer};
ghost use Rattle.req_keys.specs.Key.{PositionSet};
ghost use Rattle.req_keys.specs.declared.verdict.Verdict.TheVariants as verdict;
ghost use Rattle.clauses.specs.declared.literal.Lit.{Lit};
ghost use Rattle.clauses.specs.Clause.{are_satisfied};
ghost use Rattle.clauses.specs.Met.{AgreeBelow, IsMet};
ghost use Rattle.clauses.specs.Problem.{ClauseProblem, IsBelow, IsProblem};
ghost use Rattle.clauses.specs.Search.{verdict_on};

use crate::problem::Problem;
use pref_sets::Property;

/// Requirements at some positions are consistent with a problem where they can be met together.
impl Property for Problem {
    ghost use Rattle.clauses.specs.Met.{AreMet};

    ghost holds = { AreMet };
}

/// Where requirements can be met together, any part of them can.
pub fn fewer_requirements_are_met()
    ensures keys { (problem : ClauseProblem) (a b : PositionSet) → IsWithin a.members b.members → IsMet problem b → IsMet problem a }
    ensures passes { (problem : Problem) → PassesToFewer (⟦<Problem as Property>⟧.holds problem) }
{}

/// There always is a verdict. Sat comes only where the requirements can be met, and Unsat only where they can't. Unless
/// it is Limit, it is Sat exactly where they can.
pub fn verdict_says_what_is_met()
    ensures some { (problem : ClauseProblem) (key : PositionSet) → IsSome (verdict_on problem key) }
    ensures sat { (problem : ClauseProblem) (key : PositionSet) → IsProblem problem → verdict_on problem key ≡ Some verdict.Sat → IsMet problem key }
    ensures unsat { (problem : ClauseProblem) (key : PositionSet) → verdict_on problem key ≡ Some verdict.Unsat → ¬ IsMet problem key }
    ensures decided_sat { (problem : ClauseProblem) (key : PositionSet) → IsProblem problem → (¬ verdict_on problem key ≡ Some verdict.Limit) → (verdict_on problem key ≡ Some verdict.Sat) ↔ IsMet problem key }
    ensures decided_unsat { (problem : ClauseProblem) (key : PositionSet) → IsProblem problem → (¬ verdict_on problem key ≡ Some verdict.Limit) → (verdict_on problem key ≡ Some verdict.Unsat) ↔ (¬ IsMet problem key) }
{}

/// The truth of clauses whose variables are below a bound rests on the values below it. More values make no difference.
pub fn truth_rests_on_values()
    ensures agree { (bound : ℕ) (a b : List Bool) (clauses : List (List Lit)) → All (All (IsBelow bound)) clauses → AgreeBelow bound a b → are_satisfied a clauses ≡ are_satisfied b clauses }
    ensures more { (values more : List Bool) (clauses : List (List Lit)) → All (All (IsBelow (length values))) clauses → are_satisfied (values ++ more) clauses ≡ are_satisfied values clauses }
{}
