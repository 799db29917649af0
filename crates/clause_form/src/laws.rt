//! What the clause form means, as laws of its definition.
ghost use Rattle.clause_form.specs.Laws.{AssignmentsAreProducts, ConsistentAreMet, ConsistentIsMet, ProductsAreAssignments};

/// The assignments of a problem are the products that make every must, and the requirements of a key, true: one for one.
pub fn assignments_are_products()
    ensures products { AssignmentsAreProducts }
    ensures assignments { ProductsAreAssignments }
{}

/// So requirements are consistent with a model and the musts exactly where the problem meets them.
pub fn consistent_is_met()
    ensures key { ConsistentIsMet }
    ensures positions { ConsistentAreMet }
{}
