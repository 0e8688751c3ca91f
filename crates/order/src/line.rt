// A line: records in order, in slots that the caller hands over.
ghost use Rattle.std.specs.Prelude.{◌≤◌, length, take};
ghost use Rattle.order.specs.Orders.{Sorted};

use crate::ranking::Ranked;

mod calls;

// Records of one kind in order, over slots of the caller's; the slots past the count keep what they hold.
// Slots and a count, and no `Vec`: the list stands in memory that the caller hands over, and no library here has a heap.
#[derive(Drop)]
pub struct Line<'a, T: Ranked> {
    slots: &'a mut [T],
    count: usize,
    ghost within: { count ≤ length slots.now },
    pub ghost sorted: { Sorted T.less (take count slots.now) },
}

// Why a line refuses a record.
#[derive(Clone, Copy, PartialEq, Eq, Debug)]
pub enum LineRefusal {
    Full = 29,
}
