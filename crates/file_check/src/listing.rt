// What a plan file holds, section by section.
use plan::Table;
use planfile::{Calls, LayoutKind, Reader, Section, Settings};
use std::fmt;

// Bytes of a note on a line.
const NOTE_LINE: usize = 64;

// A file that was accepted, the settings that it begins with, and the layout that these name.
#[derive(Clone, Copy)]
pub struct Listing<'a> {
    pub file: &'a [u8],
    pub settings: Settings,
    pub layout: LayoutKind,
}

// Bytes as text, with a point for each that is not printable ASCII.
#[derive(Clone, Copy)]
struct Text<'a>(&'a [u8]);

impl fmt::Display for Text<'_> {
    fn fmt<W: fmt::Write>(&self, f: &mut fmt::Formatter<W>) -> fmt::Result {
        for byte in self.0 {
            f.write_char(match byte {
                b' '..=b'~' => char::from(*byte),
                _ => '.',
            })?;
        }
        Ok(())
    }
}

impl fmt::Display for Listing<'_> {
    fn fmt<W: fmt::Write>(&self, f: &mut fmt::Formatter<W>) -> fmt::Result {
        heading(self, f)?;
        let mut table = Table::new();
        let mut reader = Reader::new(self.file);
        while let Ok(Some(section)) = reader.next(&mut table) {
            lines_of(section, &table, f)?;
        }
        Ok(())
    }
}

fn heading<W: fmt::Write>(listing: &Listing<'_>, f: &mut fmt::Formatter<W>) -> fmt::Result {
    let len = listing.file.len();
    let processors = listing.settings.processors;
    let delta = listing.settings.delta;
    let letter = char::from(listing.settings.letter);
    let layout = listing.layout;
    writeln!(f, "plan file of {len} bytes")?;
    writeln!(
        f,
        "processors {processors}, delta {delta}, layout {letter} ({layout})"
    )
}

fn lines_of<W: fmt::Write>(
    section: Section<'_>,
    table: &Table,
    f: &mut fmt::Formatter<W>,
) -> fmt::Result {
    let kind = section.kind();
    let letter = char::from(section.letter());
    let at = section.place();
    let len = section.body().len();
    let start = section.body_place();
    writeln!(f)?;
    writeln!(
        f,
        "section {letter} ({kind}) at byte {at}: {len} bytes from byte {start}"
    )?;
    match section {
        Section::Table { body: _, at: _ } => rows(table, f),
        Section::Calls { body, at: _ } => calls(body, f),
        Section::Note { body, at: _ } => note(body, f),
    }
}

fn rows<W: fmt::Write>(table: &Table, f: &mut fmt::Formatter<W>) -> fmt::Result {
    if table.rows().is_empty() {
        return writeln!(f, "  no rows");
    }
    writeln!(f, "   row   budget   period  name")?;
    for (number, row) in table.rows().iter().enumerate() {
        let budget = row.budget();
        let period = row.period();
        let name = row.name();
        writeln!(f, "  {number:>4}  {budget:>7}  {period:>7}  {name}")?;
    }
    Ok(())
}

fn calls<W: fmt::Write>(bytes: &[u8], f: &mut fmt::Formatter<W>) -> fmt::Result {
    let mut calls = Calls::new(bytes);
    while let Ok(Some(call)) = calls.next() {
        writeln!(f, "  {call}")?;
    }
    Ok(())
}

fn note<W: fmt::Write>(bytes: &[u8], f: &mut fmt::Formatter<W>) -> fmt::Result {
    for line in bytes.chunks(NOTE_LINE) {
        writeln!(f, "  |{}|", Text(line))?;
    }
    Ok(())
}
