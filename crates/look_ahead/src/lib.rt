//! Which checks come next, guessed, and how guessed keys are posted to be checked ahead. `ahead` gives the keys that an
//! `Asker` would ask over its told pairs and some verdicts more (`specs/Ahead.antt`); `Posting` keeps which keys are posted,
//! live and settled, turn by turn (`specs/Posting.antt`). Layers above may rely on it that both are these definitions, that
//! reading a `Posting` takes no memory, and that a turn that ends in want of memory leaves it as it was.
#![tactic(auto)]

mod laws;
mod orders;
mod posting;
mod walk;

pub use laws::{guessed_keys_fit_a_turn, turns_go_on};
pub use orders::Orders;
pub use posting::Posting;
pub use walk::ahead;
