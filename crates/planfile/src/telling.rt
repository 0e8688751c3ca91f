// What a plan file says, and how long its rows are.
ghost use Rattle.std.specs.Prelude.{◌≡◌, ◌≤◌, ◌∷◌, length};
ghost use Rattle.std.specs.List.{flat_map};
ghost use Rattle.plan.specs.Views.{task_of, tasks};
ghost use Rattle.areas.specs.Pens.{Puts};
ghost use Rattle.file_parts.specs.Kinds.{section_kind_letter};
ghost use Rattle.file_reader.specs.Bytes.{two};
ghost use Rattle.file_reader.specs.Grammar.{row_bytes};
ghost use Rattle.file_reader.specs.Meaning.{written};

use areas::Pen;
use file_parts::{SectionKind, Settings};
use plan::{Row, Table};

// How long a row is.
fn row_len(row: &Row) -> u16
    ensures { result ≡ length (row_bytes (task_of row.now)) }
{
    9 + row.name().as_bytes().len() as u16
}

// How long the rows of a table are.
pub(crate) fn rows_len(table: &Table) -> u16
    ensures is { result ≡ length (flat_map row_bytes (tasks table.now)) }
    ensures short { result ≤ 1600 }
{
    let mut len = 0;
    for row in table.rows() {
        len += row_len(row);
    }
    len
}

// The numbers of a row and the length of its name in one piece, and then the name.
fn put_row(pen: &mut Pen, row: &Row)
    ensures { Puts pen.old (row_bytes (task_of row.now)) pen.new }
{
    let name = row.name();
    let letters = name.as_bytes();
    let [b0, b1, b2, b3] = row.budget().to_be_bytes();
    let [p0, p1, p2, p3] = row.period().to_be_bytes();
    pen.put(&[b0, b1, b2, b3, p0, p1, p2, p3, letters.len() as u8]);
    pen.put(letters);
}

fn put_rows(pen: &mut Pen, table: &Table)
    ensures { Puts pen.old (flat_map row_bytes (tasks table.now)) pen.new }
{
    for row in table.rows() {
        put_row(pen, row);
    }
}

// The letter of a section and the length of its body.
fn put_head(pen: &mut Pen, kind: SectionKind, len: u16)
    ensures { Puts pen.old (section_kind_letter kind ∷ two len) pen.new }
{
    let [high, low] = len.to_be_bytes();
    pen.put(&[kind.letter(), high, low]);
}

// Header, table and, where there are some, calls. `rows` is the length of the table's rows.
pub(crate) fn put_file(pen: &mut Pen, table: &Table, rows: u16, settings: Settings, calls: &[u8])
    requires rows { rows ≡ length (flat_map row_bytes (tasks table.now)) }
    requires calls { length calls.now ≤ 65535 }
    ensures { Puts pen.old (written settings (tasks table.now) calls.now) pen.new }
{
    pen.put(&[
        b'N',
        b'P',
        b'F',
        0,
        1,
        settings.processors,
        settings.delta,
        settings.letter,
    ]);
    put_head(pen, SectionKind::Table, rows);
    put_rows(pen, table);
    if !calls.is_empty() {
        put_head(pen, SectionKind::Calls, calls.len() as u16);
        pen.put(calls);
    }
}
