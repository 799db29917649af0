//! That what is written is accepted.
ghost use Rattle.certificate.specs.Accepted.{RunIsDecided, WrittenIsAccepted};

use clause_form::assignments_are_products;
use clauses::{learned_clauses_name_others, sat_is_an_assignment, unsat_is_derived};

/// Unless the outcome of the sequential run is a limit, the search decides each set that the certificate of it is about, and what is
/// written of the outcome is accepted, with just the outcome's sets.
pub fn written_is_accepted()
    ensures decided { RunIsDecided }
    ensures accepted { WrittenIsAccepted }
{
    assignments_are_products();
    sat_is_an_assignment();
    unsat_is_derived();
    learned_clauses_name_others();
}
