// Reading a whole plan file.
ghost use Rattle.std.specs.Prelude.{◌≡◌, [], Ok, Err};
ghost use Rattle.plan.specs.Views.{tasks};
ghost use Rattle.file_reader.specs.Meaning.{Means, Only};
ghost use Rattle.file_reader.specs.Answers.{answer, RowsLeft, Returns};

use crate::heading::header;
use crate::reader::Reader;
use file_parts::{Fault, Section, Settings};
use plan::Table;

// What a file holds beside its table: the calls, as a part of the file, and whether there are notes.
#[derive(Clone, Copy)]
pub struct Contents<'a> {
    pub settings: Settings,
    pub calls: &'a [u8],
    pub noted: bool,
}

// Reads a file; its rows go to the table, in place of what the table held. After a fault the table has no rows.
pub fn read<'a>(file: &'a [u8], table: &mut Table) -> Result<Contents<'a>, Fault>
    ensures means { Means file.now (answer (tasks table.new) result) }
    ensures only { Only file.now (answer (tasks table.new) result) }
    ensures returns { Returns file.now (tasks table.new) result }
    ensures rows { RowsLeft (tasks table.new) result }
{
    table.clear();
    let settings = header(file)?;
    let mut reader = Reader::new(file);
    let mut calls = &file[0..0];
    while let Some(section) = reader.next(table)? {
        if let Section::Calls { body, at: _ } = section {
            calls = body;
        }
    }
    Ok(Contents {
        settings,
        calls,
        noted: reader.noted(),
    })
}
