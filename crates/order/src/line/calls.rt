// What can be done with a line.
ghost use Rattle.std.specs.Prelude.{◌≡◌, [], length};
ghost use Rattle.order.specs.Lines.{refusal_number, held, spare, SameSlots, Put, Take};

use crate::line::{Line, LineRefusal};
use crate::ranking::Ranked;
use crate::slots::{insert_sorted, remove_at};

impl LineRefusal {
    // The number that stands for the refusal.
    pub fn number(self) -> u8
        ensures { result ≡ refusal_number self }
    {
        self as u8
    }
}

impl<'a, T: Ranked + Copy> Line<'a, T> {
    // An empty line over the slots, which all stay as they are.
    pub fn new(slots: &'a mut [T]) -> Line<'a, T>
        ensures lent { result.slots.ghost_name ≡ slots.entry.ghost_name }
        ensures empty { held result ≡ [] }
        ensures free { spare result ≡ slots.old }
    {
        Line { slots, count: 0 }
    }

    // How many records the line has.
    pub fn len(&self) -> usize
        ensures { result ≡ length (held self.now) }
    {
        self.records().len()
    }

    // The records, in their order.
    pub fn records(&self) -> &[T]
        ensures { result.now ≡ held self.now }
    {
        &self.slots[..self.count]
    }

    // Puts a record in after its equals; refused where no slot is free. `slots` stands on each call that alters the line: it is of the line
    // before and after, which no field of one line can tell.
    pub fn put(&mut self, x: T) -> Result<(), LineRefusal>
        ensures slots { SameSlots self.old self.new }
        ensures put { Put x self.old self.new result }
    {
        if self.count == self.slots.len() {
            return Err(LineRefusal::Full);
        }
        insert_sorted(&mut self.slots[..=self.count], x);
        self.count += 1;
        Ok(())
    }

    // Takes out the record at a place, and the slot that falls free then holds it; none at or past the count.
    pub fn take(&mut self, place: usize) -> Option<T>
        ensures slots { SameSlots self.old self.new }
        ensures taken { Take place self.old self.new result }
    {
        if place >= self.count {
            return None;
        }
        let x = remove_at(&mut self.slots[..self.count], place);
        self.count -= 1;
        Some(x)
    }
}
