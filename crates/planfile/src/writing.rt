// Writing a plan file.
ghost use Rattle.std.specs.Prelude.{◌≡◌, ◌+◌, ◌≤◌, length, if◌then◌else◌, MatchResult, nat_eq};
ghost use Rattle.plan.specs.Views.{tasks};
ghost use Rattle.planfile.specs.Writing.{WrittenOrNot, ReadsBack, SameBytes, ComesBack};
ghost use Rattle.file_reader.specs.Readers.{CallsWhole, CallsBroken};

use crate::telling::{put_file, rows_len};
use areas::Pen;
use file_parts::{Fault, HEAD, NotWritten, Settings};
use file_reader::{Calls, HEADER, names_layout};
use plan::Table;

// The most bytes of calls that a section holds.
pub const LONGEST_CALLS: usize = 65_535;

// Tests a list of calls to its end.
fn test_calls(bytes: &[u8]) -> Result<(), Fault>
    ensures { MatchResult result (λ _. CallsWhole bytes.now 0 (length bytes.now)) (CallsBroken bytes.now 0 (length bytes.now)) }
{
    let mut calls = Calls::new(bytes);
    while let Some(_) = calls.next()? {}
    Ok(())
}

// How long a file is with so many bytes of rows and of calls.
fn file_len(rows: usize, calls: usize) -> usize
    requires { rows + calls ≤ 1000000 }
    ensures { result ≡ 11 + rows + (if nat_eq calls 0 then 0 else 3 + calls) }
{
    let table = HEADER + HEAD + rows;
    if calls == 0 {
        table
    } else {
        table + HEAD + calls
    }
}

// Writes a plan file to the begin of the area and answers its length. Nothing is written where it is refused.
pub fn write(
    table: &Table,
    settings: Settings,
    calls: &[u8],
    area: &mut [u8],
) -> Result<usize, NotWritten>
    ensures written { WrittenOrNot settings (tasks table.now) calls.now area.old area.new result }
    ensures back { ReadsBack settings (tasks table.now) calls.now result }
    ensures again { SameBytes settings (tasks table.now) calls.now }
    ensures returns { ComesBack settings (tasks table.now) calls.now area.old area.new result }
{
    if !names_layout(settings.letter) {
        return Err(NotWritten::Letter);
    }
    test_calls(calls)?;
    if calls.len() > LONGEST_CALLS {
        return Err(NotWritten::LongCalls);
    }
    let rows = rows_len(table);
    let len = file_len(rows as usize, calls.len());
    if area.len() < len {
        return Err(NotWritten::ShortArea);
    }
    let mut pen = Pen::new(area);
    put_file(&mut pen, table, rows, settings, calls);
    Ok(len)
}
