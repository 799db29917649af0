//! What may cross threads.
use crate::seats::{MainSeat, WorkerSeat};
use crate::table::CheckTable;

fn may_be_sent<T: Send>() {}

fn may_be_shared<T: Sync>() {}

/// The table may be sent and shared, and so may both kinds of seat.
pub fn table_and_seats_cross_threads() {
    may_be_sent::<CheckTable>();
    may_be_shared::<CheckTable>();
    may_be_sent::<MainSeat>();
    may_be_shared::<MainSeat>();
    may_be_sent::<WorkerSeat>();
    may_be_shared::<WorkerSeat>();
}
