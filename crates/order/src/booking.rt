// Bookings: tasks that are booked for a tick, in a line.
ghost use Rattle.std.specs.Prelude.{Some};
ghost use Rattle.order.specs.Lines.{held, SameSlots};
ghost use Rattle.order.specs.Bookings.{earlier, Due, Earliest};
ghost use Rattle.std.proofs.Common.{rules};

use crate::line::Line;
use crate::pick::least;
use crate::ranking::{Marked, Ranked};

// A task that is booked for a tick.
#[derive(Clone, Copy, PartialEq, Eq, Debug)]
pub struct Booking {
    pub tick: u32,
    pub task: u8,
}

// Bookings go by tick, and those of one tick by task. Each kind of record has its own fields to go by, so each has its own order.
impl Ranked for Booking {
    ghost less = { earlier };

    ghost ranks = { Prim.search rules };

    fn before(&self, other: &Booking) -> bool {
        // Spelled out: as pairs it took half as long again to pick the earliest.
        self.tick < other.tick || self.tick == other.tick && self.task < other.task
    }
}

// A booking's mark is its task.
impl Marked for Booking {
    ghost marking = { λ b. Some b.task };

    fn mark(&self) -> Option<u8> {
        Some(self.task)
    }
}

impl Line<'_, Booking> {
    // Takes the first booking out if it is due, so if its tick is at most the clock; else none, and nothing is altered.
    pub fn take_due(&mut self, clock: u32) -> Option<Booking>
        ensures slots { SameSlots self.old self.new }
        ensures due { Due clock self.old self.new result }
    {
        match self.records() {
            [first, ..] if first.tick <= clock => self.take(0),
            _ => None,
        }
    }

    // The earliest booking of a task, which stays in the line; none where the task has no booking.
    pub fn earliest_of(&self, task: u8) -> Option<Booking>
        ensures { Earliest task (held self.now) result }
    {
        let bookings = self.records();
        least(bookings, task).map(|place| bookings[place])
    }
}
