//! Carrying out what a turn orders.
ghost use Rattle.std.specs.Prelude.{◌≡◌, ◌≤◌, ◌+◌, ◌++◌, All, false, length, map};
ghost use Rattle.lists.specs.Distinct.{IsDistinct};
ghost use Rattle.check_table.specs.Found.{IsWanted};
ghost use Rattle.check_table.specs.Seats.{IsMainOf};
ghost use Rattle.check_table.specs.Views.{fresh_entry};
ghost use Rattle.serving.specs.inside.Carrying.{with_cancels, with_marks, with_orders};
ghost use Rattle.serving.specs.inside.Staying.{Keeps};

use check_table::{CheckTable, MainSeat, Posted};
use look_ahead::Orders;
use req_keys::Key;

/// Cancels and posts as the turn orders.
pub(crate) fn carry_out(table: &CheckTable, main: &mut MainSeat, orders: &Orders)
    requires own { IsMainOf table.now main.old }
    requires wanted { orders.now.new_round ≡ false → All (IsWanted main.old.sees) orders.now.cancel }
    requires once { orders.now.new_round ≡ false → IsDistinct orders.now.cancel }
    requires over { All (λ key. key.n ≡ length table.now.problem.roots) orders.now.post }
    requires room { length main.old.sees.entries + length orders.now.post ≤ table.now.size }
    ensures own { IsMainOf table.now main.new }
    ensures keeps { Keeps main.old.sees main.new.sees }
    ensures entries { main.new.sees.entries ≡ with_orders orders.now main.old.sees.entries }
{
    cancel_ordered(table, main, orders);
    post_all(table, main, orders.post.as_slice());
}

/// Cancels as the turn orders. Where a new round begins, what is ordered belongs to the table before.
fn cancel_ordered(table: &CheckTable, main: &mut MainSeat, orders: &Orders)
    requires own { IsMainOf table.now main.old }
    requires wanted { orders.now.new_round ≡ false → All (IsWanted main.old.sees) orders.now.cancel }
    requires once { orders.now.new_round ≡ false → IsDistinct orders.now.cancel }
    ensures own { IsMainOf table.now main.new }
    ensures keeps { Keeps main.old.sees main.new.sees }
    ensures entries { main.new.sees.entries ≡ with_cancels orders.now main.old.sees.entries }
    ensures as_many { length main.new.sees.entries ≡ length main.old.sees.entries }
{
    if !orders.new_round {
        cancel_all(table, main, orders.cancel.as_slice());
    }
}

/// Cancels the entries.
fn cancel_all(table: &CheckTable, main: &mut MainSeat, numbers: &[u32])
    requires own { IsMainOf table.now main.old }
    requires wanted { All (IsWanted main.old.sees) numbers.now }
    requires once { IsDistinct numbers.now }
    ensures own { IsMainOf table.now main.new }
    ensures keeps { Keeps main.old.sees main.new.sees }
    ensures entries { main.new.sees.entries ≡ with_marks numbers.now main.old.sees.entries }
    ensures as_many { length main.new.sees.entries ≡ length main.old.sees.entries }
{
    'numbers: for number in numbers {
        table.cancel(main, *number);
    }
}

/// Posts the keys, in order.
fn post_all(table: &CheckTable, main: &mut MainSeat, keys: &[Key])
    requires own { IsMainOf table.now main.old }
    requires over { All (λ key. key.n ≡ length table.now.problem.roots) keys.now }
    requires room { length main.old.sees.entries + length keys.now ≤ table.now.size }
    ensures own { IsMainOf table.now main.new }
    ensures keeps { Keeps main.old.sees main.new.sees }
    ensures entries { main.new.sees.entries ≡ main.old.sees.entries ++ map fresh_entry keys.now }
{
    'keys: for key in keys {
        let Posted::At(_) = table.post(main, key) else {
            unreachable!()
        };
    }
}
