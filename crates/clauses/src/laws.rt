//! What the definitions mean: propagation as a least set, and what each answer of the search says.
ghost use Rattle.std.specs.Prelude.{◌≡◌, ◌↔◌, ◌-◌, ◌^◌, ◌<◌, ◌≤◌, ◌∷◌, ◌++◌, Bool, ℕ, List, [], length, IsFalse, Any, All, Contains, IsTrue, IsSome, Some};
ghost use Rattle.req_keys.specs.Key.{PositionSet};
ghost use Rattle.clauses.specs.declared.literal.Lit.{Lit};
ghost use Rattle.clauses.specs.Clause.{is_satisfied, are_satisfied, negation};
ghost use Rattle.clauses.specs.Closure.{closure, clash, follows, AreAmong, IsClosed, AreDerived, IsDerivation};
ghost use Rattle.clauses.specs.Problem.{ClauseProblem, IsBelow, IsProblem, clauses_with};
ghost use Rattle.clauses.specs.Search.{SearchAnswer, Standing, Sat, Unsat, Limit, NameOthers, allowance_of, attempt_of, first_of, needed_decisions, search_of, under, IsReached};

use std::marker::Brand;

/// A property of literals, any fact, computed or not, about a value of the type: as 'true in this assignment'.
pub trait LiteralProperty {
    ghost holds: { Self → Lit → Type 0 };
}

impl LiteralProperty for Brand {
    ghost holds = { λ _ _. Unit {0} };
}

/// The closure is the least set of literals that has each literal that a clause forces in it: it is within every such
/// set, given as a list or as a property. So neither the order of clauses and literals nor a repeated one makes a
/// difference. The clauses clash where one has all its literals negated there.
pub fn closure_is_least<P: LiteralProperty>()
    ensures closed { (clauses : List (List Lit)) → IsClosed clauses (Contains (closure clauses)) }
    ensures least { (clauses : List (List Lit)) (set : List Lit) → IsClosed clauses (Contains set) → (literal : Lit) → Contains (closure clauses) literal → Contains set literal }
    ensures within { (about : P) (clauses : List (List Lit)) → IsClosed clauses (P.holds about) → (literal : Lit) → Contains (closure clauses) literal → P.holds about literal }
    ensures order { (a b : List (List Lit)) → AreAmong a b → (literal : Lit) → Contains (closure a) literal → Contains (closure b) literal }
    ensures clash { (clauses : List (List Lit)) → IsTrue (clash clauses) ↔ Any (All (λ literal. Contains (closure clauses) (negation literal))) clauses }
    ensures clash_order { (a b : List (List Lit)) → AreAmong a b → IsTrue (clash a) → IsTrue (clash b) }
{}

/// A clause that follows by reverse unit propagation is true wherever the clauses are.
pub fn what_follows_is_true()
    ensures { (clauses : List (List Lit)) (clause : List Lit) → IsTrue (follows clauses clause) → (values : List Bool) → IsTrue (are_satisfied values clauses) → IsTrue (is_satisfied values clause) }
{}

/// The search always ends, in Sat, Unsat or Limit: the count that bounds it is enough.
pub fn search_ends()
    ensures { (problem : ClauseProblem) (key : PositionSet) → IsSome (search_of problem key) }
{}

/// While decisions stand, the clauses and the learned ones don't clash without them, so at a clash the trimmed set of
/// the decisions has a member.
pub fn trimmed_decisions_have_a_member()
    ensures no_clash { (problem : ClauseProblem) (key : PositionSet) (attempt : ℕ) (now : Standing) → IsReached problem key attempt now → (¬ now.decisions ≡ []) → IsFalse (clash (clauses_with problem key ++ now.learned)) }
    ensures member { (problem : ClauseProblem) (key : PositionSet) (attempt : ℕ) (now : Standing) → IsReached problem key attempt now → (¬ now.decisions ≡ []) → IsTrue (clash (under (first_of attempt) (clauses_with problem key) now)) → ¬ needed_decisions (first_of attempt) (clauses_with problem key ++ now.learned) now.decisions ≡ [] }
{}

/// Each learned clause has a member and is about variables of the problem, and none names the same set of variables as an
/// earlier one of its attempt. So over v variables an attempt learns at most 2^v - 1, never more than its allowance, and
/// where some attempt may learn that many no search is a Limit.
pub fn learned_clauses_name_others()
    ensures members { (problem : ClauseProblem) (key : PositionSet) (attempt : ℕ) (now : Standing) → IsReached problem key attempt now → All (λ line. ¬ line ≡ []) now.learned }
    ensures below { (problem : ClauseProblem) (key : PositionSet) (attempt : ℕ) (now : Standing) → IsReached problem key attempt now → All (All (IsBelow problem.variables)) now.learned }
    ensures within { (problem : ClauseProblem) (key : PositionSet) (attempt : ℕ) (now : Standing) → IsReached problem key attempt now → length now.learned ≤ allowance_of problem attempt }
    ensures others { (problem : ClauseProblem) (key : PositionSet) (attempt : ℕ) (now : Standing) → IsReached problem key attempt now → NameOthers [] now.learned }
    ensures most { (problem : ClauseProblem) (key : PositionSet) (attempt : ℕ) (now : Standing) → IsReached problem key attempt now → length now.learned ≤ 2 ^ problem.variables - 1 }
    ensures allowed { (problem : ClauseProblem) (key : PositionSet) (attempt : ℕ) → attempt ≤ problem.rungs → 2 ^ problem.variables - 1 ≤ allowance_of problem attempt → ¬ search_of problem key ≡ Some Limit }
{}

/// Limit comes exactly where each attempt comes to a clash with a decision when it has learned as many clauses as its
/// own allowance.
pub fn limit_is_a_spent_allowance()
    ensures { (problem : ClauseProblem) (key : PositionSet) → search_of problem key ≡ Some Limit ↔ ((attempt : ℕ) → attempt ≤ problem.rungs → (now : Standing) × IsReached problem key attempt now × (¬ now.decisions ≡ []) × IsTrue (clash (under (first_of attempt) (clauses_with problem key) now)) × (length now.learned ≡ allowance_of problem attempt)) }
{}

/// The answer is that of an attempt, and each attempt before it is a Limit. No attempt may learn more than 2^40 clauses.
pub fn answer_is_of_the_first_attempt()
    ensures first { (problem : ClauseProblem) (key : PositionSet) (answer : SearchAnswer) → search_of problem key ≡ Some answer → (attempt : ℕ) × (attempt ≤ problem.rungs) × (attempt_of problem key attempt ≡ Some answer) × ((earlier : ℕ) → earlier < attempt → attempt_of problem key earlier ≡ Some Limit) }
    ensures capped { (problem : ClauseProblem) (attempt : ℕ) → allowance_of problem attempt ≤ 2 ^ 40 }
{}

/// Sat comes with a value for each variable, which makes every clause and the key's roots true.
pub fn sat_is_an_assignment()
    ensures sized { (problem : ClauseProblem) (key : PositionSet) (values : List Bool) → IsProblem problem → search_of problem key ≡ Some (Sat values) → length values ≡ problem.variables }
    ensures satisfied { (problem : ClauseProblem) (key : PositionSet) (values : List Bool) → IsProblem problem → search_of problem key ≡ Some (Sat values) → IsTrue (are_satisfied values (clauses_with problem key)) }
{}

/// Each learned clause follows by reverse unit propagation from the clauses, the key's roots and those learned before
/// it. Unsat comes with all that was learned and then the empty clause, once nothing is decided. They are a derivation,
/// so no assignment makes all clauses and the key's roots true.
pub fn unsat_is_derived()
    ensures lines { (problem : ClauseProblem) (key : PositionSet) (lines : List (List Lit)) → search_of problem key ≡ Some (Unsat lines) → (attempt : ℕ) × (now : Standing) × (attempt ≤ problem.rungs) × IsReached problem key attempt now × (now.decisions ≡ []) × (lines ≡ now.learned ++ [] ∷ []) }
    ensures learned { (problem : ClauseProblem) (key : PositionSet) (attempt : ℕ) (now : Standing) → IsReached problem key attempt now → AreDerived (clauses_with problem key) now.learned }
    ensures derivation { (problem : ClauseProblem) (key : PositionSet) (lines : List (List Lit)) → search_of problem key ≡ Some (Unsat lines) → IsDerivation (clauses_with problem key) lines }
    ensures unsatisfiable { (problem : ClauseProblem) (key : PositionSet) (lines : List (List Lit)) → search_of problem key ≡ Some (Unsat lines) → (values : List Bool) → ¬ IsTrue (are_satisfied values (clauses_with problem key)) }
{}
