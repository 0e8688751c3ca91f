// Records with a total order: the least one that bears a mark, a line of them in slots of the caller's, and the
// bookings, which are such records. Nothing here knows of plans.
#![tactic(auto)]

pub mod booking;
pub mod line;
pub mod pick;
pub mod ranking;
mod slots;
