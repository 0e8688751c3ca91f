// Where a reader stands, and where it ends.
ghost use Rattle.std.specs.Prelude.{◌≡◌, ℕ, ◌+◌, ◌^◌, ◌<◌, ◌≤◌, length, Some, None, MatchResult};
ghost use Rattle.file_reader.specs.Bytes.{two, word_at, Stands};
ghost use Rattle.file_reader.specs.Grammar.{call_bytes, Counts};
ghost use Rattle.plan.specs.Views.{tasks};
ghost use Rattle.file_reader.specs.Faults.{call_fault, row_told, row_fault};
ghost use Rattle.file_reader.specs.Steps.{RowTaken};

use crate::rows::{RowFault, row};
use file_parts::{Call, Fault};
use plan::{RowRefusal, Table};

#[derive(Clone, Copy)]
pub(crate) struct Cursor {
    pub(crate) pos: usize,
    pub(crate) limit: usize,
    ghost within: { pos ≤ limit },
}

// The number whose two bytes stand here.
pub(crate) fn word(file: &[u8], at: usize) -> u16
    requires { at + 2 ≤ length file.now }
    ensures is { result ≡ word_at file.now at }
    ensures stands { Stands file.now at (two result) }
{
    u16::from_be_bytes([file[at], file[at + 1]])
}

impl Cursor {
    // The call that stands here; the cursor then stands behind it.
    pub(crate) fn call(&mut self, file: &[u8]) -> Result<Call, Fault>
        requires some { self.old.pos < self.old.limit }
        requires inside { self.old.limit ≤ length file.now }
        ensures limit { self.new.limit ≡ self.old.limit }
        ensures read { MatchResult result
            (λ c. (call_fault file.now self.old.pos self.old.limit ≡ None)
            × (Stands file.now self.old.pos (call_bytes c)) × (Counts c)
            × (self.new.pos ≡ self.old.pos + length (call_bytes c)))
            (λ e. (call_fault file.now self.old.pos self.old.limit ≡ Some e) × (self.new.pos ≡ self.old.pos)) }
    {
        let at = self.pos;
        let end = self.limit;
        let letter = file[at];
        match letter {
            b'R' | b'D' => {
                if end - at < 2 {
                    return Err(Fault::Cut { end });
                }
                let task = file[at + 1];
                self.pos = at + 2;
                if letter == b'R' {
                    Ok(Call::Request { task })
                } else {
                    Ok(Call::Done { task })
                }
            }
            b'K' => {
                if end - at < 3 {
                    return Err(Fault::Cut { end });
                }
                let count = word(file, at + 1);
                if count == 0 {
                    return Err(Fault::NoTicks { at: at + 1 });
                }
                self.pos = at + 3;
                Ok(Call::Ticks { count })
            }
            _ => Err(Fault::Letter { at }),
        }
    }
}

// What a table says of row `row`, as a fault of the file; the length of the row's name stands at `at`. No `From`: both places are told too.
fn told(refusal: RowRefusal, at: usize, row: usize) -> Fault
    requires { at + 256 < 2 ^ 64 }
    ensures { row_told at row (Some refusal) ≡ Some result }
{
    match refusal {
        RowRefusal::NameLength => Fault::Name { at },
        RowRefusal::NameByte { at: byte } => Fault::Name {
            at: at + 1 + byte as usize,
        },
        RowRefusal::NoBudget => Fault::ZeroBudget { row },
        RowRefusal::LongPeriod => Fault::PeriodTooLong { row },
        RowRefusal::BudgetAbovePeriod => Fault::BudgetOverPeriod { row },
        RowRefusal::TableFull => Fault::TooManyRows { row },
    }
}

impl Cursor {
    // Adds the row that stands here to the table; the cursor then stands behind it.
    pub(crate) fn row(&mut self, file: &[u8], table: &mut Table) -> Result<(), Fault>
        requires some { self.old.pos < self.old.limit }
        requires inside { self.old.limit ≤ length file.now }
        ensures limit { self.new.limit ≡ self.old.limit }
        ensures read { MatchResult result
            (λ _. RowTaken file.now self.old.pos (tasks table.old) self.new.pos (tasks table.new))
            (λ e. (row_fault file.now self.old.pos self.old.limit (length (tasks table.old)) ≡ Some e)
            × (self.new.pos ≡ self.old.pos)) }
    {
        let at = self.pos;
        let end = self.limit;
        let number = table.count() as usize;
        let (read, rest) = row(&file[at..end]);
        match read.fault {
            Some(RowFault::Name) => return Err(Fault::Name { at: at + 8 }),
            Some(RowFault::Cut) => return Err(Fault::Cut { end }),
            None => {}
        }
        let name_at = at + read.name_at;
        // Tried with `map_err` and `?`: the proof did not close, since the closure is known by its clauses alone where it fails.
        match table.add(
            read.budget,
            read.period,
            &file[name_at..name_at + read.name_len],
        ) {
            Ok(()) => {
                self.pos = end - rest.len();
                Ok(())
            }
            Err(refusal) => Err(told(refusal, at + 8, number)),
        }
    }
}

// A cursor that ends early for a while: when this goes, on whatever way, the cursor ends where it ended before.
pub(crate) struct Narrowed<'a> {
    pub(crate) cursor: &'a mut Cursor,
    whole: usize,
    ghost inside: { cursor.now.limit ≤ whole },
}

impl Drop for Narrowed<'_> {
    fn drop(self)
        ensures limit { self.exit.0.now.limit ≡ self.entry.whole }
        ensures pos { self.exit.0.now.pos ≡ self.entry.cursor.now.pos }
    {
        self.cursor.limit = self.whole;
        let Narrowed {
            cursor: _,
            whole: _,
        } = self;
    }
}

pub(crate) fn narrow<'a>(cursor: &'a mut Cursor, end: usize) -> Narrowed<'a>
    requires some { cursor.old.pos ≤ end }
    requires inside { end ≤ cursor.old.limit }
    ensures lent { result.cursor.ghost_name ≡ cursor.entry.ghost_name }
    ensures made { (result.whole ≡ cursor.old.limit) × (result.cursor.now.pos ≡ cursor.old.pos) × (result.cursor.now.limit ≡ end) }
{
    let whole = cursor.limit;
    cursor.limit = end;
    Narrowed { cursor, whole }
}
