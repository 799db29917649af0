//! What a counting table means.
ghost use Rattle.std.specs.Prelude.{◌≡◌, ◌↔◌, ◌+◌, ◌-◌, ◌≤◌, ℕ, Bool, List, ◌++◌, length, All, IsTrue, Some, count_by, slice_get};
ghost use Rattle.clauses.specs.declared.literal.Lit.{Lit};
ghost use Rattle.clauses.specs.Clause.{is_true_in, are_satisfied};
ghost use Rattle.clauses.specs.Problem.{IsBelow};
ghost use Rattle.count_gates.specs.Table.{table_clauses, table_literals, table_size};

/// In every assignment that satisfies the clauses of a table, whatever else it satisfies, the literal j that the table
/// answers is true exactly where at least j of the children are. A child that stands twice counts twice.
pub fn literal_says_at_least()
    ensures { (first upto j : ℕ) (children : List Lit) (literal : Lit) (values : List Bool) → 1 ≤ j → slice_get (table_literals first upto children) (j - 1) ≡ Some literal → IsTrue (are_satisfied values (table_clauses first upto children)) → IsTrue (is_true_in values literal) ↔ (j ≤ count_by (is_true_in values) children) }
{}

/// Whatever values the variables before the table have, exactly one list of values for its own satisfies its clauses.
pub fn one_extension()
    ensures some { (upto : ℕ) (children : List Lit) (values : List Bool) → All (IsBelow (length values)) children → (new : List Bool) × (length new ≡ table_size (length children) upto) × IsTrue (are_satisfied (values ++ new) (table_clauses (length values) upto children)) }
    ensures only { (upto : ℕ) (children : List Lit) (values new other : List Bool) → All (IsBelow (length values)) children → length new ≡ table_size (length children) upto → length other ≡ table_size (length children) upto → IsTrue (are_satisfied (values ++ new) (table_clauses (length values) upto children)) → IsTrue (are_satisfied (values ++ other) (table_clauses (length values) upto children)) → new ≡ other }
{}

/// The clauses and the literals of a table are about the variables before it and its own.
pub fn table_is_about_its_variables()
    ensures clauses { (first upto : ℕ) (children : List Lit) → All (IsBelow first) children → All (All (IsBelow (first + table_size (length children) upto))) (table_clauses first upto children) }
    ensures literals { (first upto : ℕ) (children : List Lit) → All (IsBelow (first + table_size (length children) upto)) (table_literals first upto children) }
{}
