// What the body of a section is made of, piece by piece.
ghost use Rattle.std.specs.Prelude.{◌≡◌, ℕ, ◌<◌, ◌≤◌, List, length, OnOk, IfErr};
ghost use Rattle.plan.specs.Views.{tasks};
ghost use Rattle.file_parts.specs.declared.fault.Fault.{Fault};
ghost use Rattle.file_reader.specs.Steps.{RowsTaken};
ghost use Rattle.file_reader.specs.Readers.{RowsBroken, CallsBroken, CallsWhole};

use crate::cursor::Cursor;
use file_parts::Fault;
use plan::Table;

// Rows, or calls. Whole ones stand from one place to another, and a value says what they make; or reading breaks off before the second.
pub(crate) trait Pieces {
    ghost whole: { List ℕ → ℕ → ℕ → Self → Type 0 };

    ghost broken: { List ℕ → ℕ → ℕ → Fault → Type 0 };

    // Forgets the pieces that were taken.
    fn clear(&mut self)
        ensures { (file : List ℕ) (at : ℕ) → whole file at at self.new };

    // Takes the piece that stands here; the cursor then stands behind it. That a byte is left, and that the limit is inside the file, is asked
    // here and by the cursor's two readers: it is of the cursor and the file together, and they are two arguments, since a cursor without a file
    // can be lent to its guard `Narrowed`.
    fn take(&mut self, file: &[u8], cursor: &mut Cursor) -> Result<(), Fault>
        requires some { cursor.old.pos < cursor.old.limit }
        requires inside { cursor.old.limit ≤ length file.now }
        ensures limit { cursor.new.limit ≡ cursor.old.limit }
        ensures behind { OnOk result (cursor.old.pos < cursor.new.pos) }
        ensures taken { OnOk result ((start : ℕ) → whole file.now start cursor.old.pos self.old → whole file.now start cursor.new.pos self.new) }
        ensures broken { IfErr result (λ e. (start : ℕ) → whole file.now start cursor.old.pos self.old → broken file.now start cursor.old.limit e) };
}

impl Pieces for Table {
    ghost whole = { λ file start end table. RowsTaken file start end (tasks table) };

    ghost broken = { RowsBroken };

    fn clear(&mut self) {
        Table::clear(self);
    }

    fn take(&mut self, file: &[u8], cursor: &mut Cursor) -> Result<(), Fault> {
        cursor.row(file, self)
    }
}

// Calls are tested, and nothing is made of them.
#[derive(Clone, Copy)]
pub(crate) struct Tested;

impl Pieces for Tested {
    ghost whole = { λ file start end _. CallsWhole file start end };

    ghost broken = { CallsBroken };

    fn clear(&mut self) {}

    fn take(&mut self, file: &[u8], cursor: &mut Cursor) -> Result<(), Fault> {
        cursor.call(file)?;
        Ok(())
    }
}
