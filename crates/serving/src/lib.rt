//! One turn of a job on the table that it shares with workers. `serve` carries out what a turn of the look-ahead orders and answers
//! the key that the run asks: by its live entry, where it has one, and otherwise by a search of its own. Layers above may rely on
//! it that the run is told the asked key's verdict and nothing else, that the table's entries are the round's, and on the laws: what
//! one turn leaves is what the next one needs (`turns_follow`), a new round needs a table without an entry (`rounds_begin`), and
//! such a table stands for the board of a new round (`new_tables_stand`).
#![tactic(auto)]

mod answering;
mod carrying;
mod laws;
#[cfg(test)]
mod tests;
mod turn;

pub use laws::{new_tables_stand, rounds_begin, turns_follow};
pub use turn::serve;
