//! What a turn orders.
use req_keys::{Keys, Numbers};

/// What is to be done in a turn, before the asked key is answered.
#[derive(Drop)]
pub struct Orders {
    /// The entries are counted from 0 again.
    pub new_round: bool,
    /// The entries that nobody is to search any more, by their numbers in the round that ends or goes on.
    pub cancel: Numbers,
    /// The keys to post, in order.
    pub post: Keys,
}
