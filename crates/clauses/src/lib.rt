//! Clauses, problems, and what unit propagation and the search with learning are, as definitions. `Problem` is what a
//! search is about, and `ClauseBuilder` makes its clauses. Layers above may rely on the invariant of `Problem`, on the
//! definitions of closure, clash and search in `specs/`, which compute, and on the laws about them: the closure is the
//! least closed set, the search always ends, no learned clause names the variables of an earlier one, Sat is an
//! assignment, Unsat is derived, and the verdict on a key says whether its requirements can be met.
#![tactic(auto)]

mod builder;
mod laws;
mod letters;
mod literal;
mod met;
mod problem;

pub use builder::ClauseBuilder;
pub use laws::{
    LiteralProperty, answer_is_of_the_first_attempt, closure_is_least, learned_clauses_name_others,
    limit_is_a_spent_allowance, sat_is_an_assignment, search_ends, trimmed_decisions_have_a_member,
    unsat_is_derived, what_follows_is_true,
};
pub use letters::{clause_of, clauses_of, literal_of};
pub use literal::{Clause, Clauses, Derivation, Lit, Lits};
pub use met::{fewer_requirements_are_met, truth_rests_on_values, verdict_says_what_is_met};
pub use problem::Problem;

#[cfg(test)]
mod tests;
