// The task table, open for rows.
ghost use Rattle.std.specs.Prelude.{◌≡◌, ◌≤◌, length};

use crate::row::Row;

mod calls;
mod figures;
mod questions;

// The most rows that a table takes.
pub const ROWS: usize = 64;

// Rows in the order in which they came. Memory is fixed: a controller must not fail for want of it.
// An array with a count, and no vector of fixed capacity: a vector's value ends with its items, so that a refused row could alter the places
// past them, and emptying it writes a blank over each row.
#[derive(Drop)]
pub struct Table {
    rows: [Row; ROWS],
    count: u8,
    ghost wide: { length rows ≡ 64 },
    ghost few: { count ≤ 64 },
}
