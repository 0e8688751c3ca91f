// A bin of a plan.

// The sum of the charges of its tasks in millionths, and the ticks that it gets of each slot.
#[derive(Clone, Copy, PartialEq, Eq, Debug, Default)]
pub struct Bin {
    pub load: u32,
    pub reserve: u32,
}
