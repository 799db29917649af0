//! What the values mean, and that the order of clauses makes no difference.
ghost use Rattle.std.specs.Prelude.{◌≡◌, ◌↔◌, Bool, ℕ, ◌++◌, List, Contains, IsTrue, IsFalse, Some, None, true, false};
ghost use Rattle.req_keys.specs.Key.{PositionSet};
ghost use Rattle.clauses.specs.declared.literal.Lit.{Lit};
ghost use Rattle.clauses.specs.Clause.{negation, negative_of, positive_of};
ghost use Rattle.clauses.specs.Closure.{AreAmong, clash, closure};
ghost use Rattle.clauses.specs.Problem.{ClauseProblem, clauses_with};
ghost use Rattle.clauses.specs.Search.{Standing, under};
ghost use Rattle.propagation.specs.Propagation.{Propagation, as_searched, propagated, value_of};

/// Where nothing clashes the closure never has a literal with its negation, and a value says which of the two it has.
pub fn values_are_of_the_closure()
    ensures one_sign { (clauses : List (List Lit)) (literal : Lit) → IsFalse (clash clauses) → Contains (closure clauses) literal → ¬ Contains (closure clauses) (negation literal) }
    ensures positive { (clauses : List (List Lit)) (var : ℕ) → (value_of clauses var ≡ Some true) ↔ Contains (closure clauses) (positive_of var) }
    ensures negative { (clauses : List (List Lit)) (var : ℕ) → IsFalse (clash clauses) → (value_of clauses var ≡ Some false) ↔ Contains (closure clauses) (negative_of var) }
    ensures none { (clauses : List (List Lit)) (var : ℕ) → (value_of clauses var ≡ None) ↔ ((¬ Contains (closure clauses) (positive_of var)) × (¬ Contains (closure clauses) (negative_of var))) }
{}

/// A clash and a value are of the set of the clauses, whatever their order.
pub fn clauses_in_any_order()
    ensures clash { (a b : List (List Lit)) → AreAmong a b → AreAmong b a → clash a ≡ clash b }
    ensures values { (a b : List (List Lit)) → AreAmong a b → AreAmong b a → (var : ℕ) → value_of a var ≡ value_of b var }
{}

/// The roots of a key and then the decisions as assumed literals are what a turn of the search propagates. A clash under
/// some assumed literals stays one under more.
pub fn propagated_as_searched()
    ensures clash { (problem : ClauseProblem) (key : PositionSet) (first : Bool) (now : Standing) → clash (propagated (as_searched problem key first now)) ≡ clash (under first (clauses_with problem key) now) }
    ensures values { (problem : ClauseProblem) (key : PositionSet) (first : Bool) (now : Standing) (var : ℕ) → value_of (propagated (as_searched problem key first now)) var ≡ value_of (under first (clauses_with problem key) now) var }
    ensures more { (at : Propagation) (more : List Lit) → IsTrue (clash (propagated at)) → IsTrue (clash (propagated (record at { assumed = at.assumed ++ more }))) }
{}
