//! How turns follow each other on the tables of a job.
ghost use Rattle.serving.specs.Laws.{FirstRoundBegins, FirstTurnFollows, NewTablesStand, RoundsBegin, TurnsFollow};

use check_table::new_table_is_a_fresh_board;

/// After a turn that `serve` answered, the next one of the same round can be served on the same table. So can a job's first turn
/// on a table without an entry, which holds the first round.
pub fn turns_follow()
    ensures next { TurnsFollow }
    ensures begins { FirstRoundBegins }
    ensures first { FirstTurnFollows }
{}

/// A turn that begins a new round can be served on a table without an entry.
pub fn rounds_begin()
    ensures { RoundsBegin }
{}

/// A table that was just opened stands for the board to which a new round leads.
pub fn new_tables_stand()
    ensures { NewTablesStand }
{
    new_table_is_a_fresh_board();
}
