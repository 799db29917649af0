//! What the rule means.
ghost use Rattle.check_table.specs.Laws.{OneRunner, AnswersAreRight, MineIsUnclaimed, SeenStays, LooksLeaveTheRest, IsDraw, IsNoDraw, IsClaim, IsAnswer, IsGiveUp, IsLook, IsMainLook, IsTake, IsWrite, IsPost, IsCancel, IsStop, IsSplit, IsJoin, IsFresh};

/// No two seats run one entry.
pub fn no_two_seats_run_one_entry()
    ensures { OneRunner }
{}

/// An answer that stands in the table is the verdict of its entry's key in the table's problem.
pub fn answers_are_verdicts()
    ensures { AnswersAreRight }
{}

/// An entry that the main seat took is claimed by nobody.
pub fn mine_is_unclaimed()
    ensures { MineIsUnclaimed }
{}

/// What the main seat saw answered stays so.
pub fn seen_answers_stay()
    ensures { SeenStays }
{}

/// A look at the stop and at the mark changes nothing but what was seen, and answers true only where one of them was.
pub fn looks_leave_the_rest()
    ensures { LooksLeaveTheRest }
{}

/// Each step of a worker is the event on the board that it is named after, and its looks and reads are none.
pub fn worker_steps_are_events()
    ensures draw { IsDraw }
    ensures no_draw { IsNoDraw }
    ensures claim { IsClaim }
    ensures answer { IsAnswer }
    ensures give_up { IsGiveUp }
    ensures look { IsLook }
{}

/// Each step of the main seat is the event on the board that it is named after; its writes and looks are none.
pub fn main_steps_are_events()
    ensures write { IsWrite }
    ensures post { IsPost }
    ensures take { IsTake }
    ensures look { IsMainLook }
    ensures cancel { IsCancel }
    ensures stop { IsStop }
{}

/// A seat that comes changes no board, and neither does one that leaves without a ticket. One that leaves with a ticket
/// leaves the board.
pub fn seats_come_and_leave()
    ensures split { IsSplit }
    ensures join { IsJoin }
{}

/// A new table stands for a fresh board of 64 workers.
pub fn new_table_is_a_fresh_board()
    ensures { IsFresh }
{}
