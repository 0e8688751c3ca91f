// Sections, one after the other.
ghost use Rattle.std.specs.Prelude.{◌≡◌, Some, MatchResult};
ghost use Rattle.plan.specs.Views.{tasks};
ghost use Rattle.file_reader.specs.Readers.{Headed, head_fault, Came, Sectioned, Stopped};

use super::Reader;
use crate::cursor::word;
use crate::letters::{has_turn, section_of};
use crate::pieces::Tested;
use file_parts::{Due, Fault, HEAD, Section, SectionKind};
use plan::Table;

impl<'a> Reader<'a> {
    // The section that stands here, if the file has not ended, by its letter and length alone.
    fn head(&self) -> Result<Option<Section<'a>>, Fault>
        ensures { MatchResult result
            (Headed self.now.file.now self.now.cursor.pos self.now.due)
            (λ e. head_fault self.now.file.now self.now.cursor.pos self.now.due ≡ Some e) }
    {
        let file = self.file;
        let at = self.cursor.pos;
        let end = self.cursor.limit;
        if at == end {
            return match self.due {
                Due::Table => Err(Fault::ShortFile { len: end }),
                _ => Ok(None),
            };
        }
        let kind = SectionKind::try_from(file[at]).map_err(|_| Fault::Letter { at })?;
        if !has_turn(self.due, kind) {
            return Err(Fault::Order { at });
        }
        if end - at < HEAD {
            return Err(Fault::ShortFile { len: end });
        }
        let many = word(file, at + 1) as usize;
        if end - at - HEAD < many {
            return Err(Fault::ShortFile { len: end });
        }
        if kind == SectionKind::Calls && many == 0 {
            return Err(Fault::NoCalls { at: at + 1 });
        }
        let body = &file[at + HEAD..at + HEAD + many];
        Ok(Some(section_of(kind, body, at)))
    }

    // The next section, its body read too. `file` stands on each call: it is of the reader before and after, which no field can tell.
    fn section(&mut self, table: &mut Table) -> Result<Option<Section<'a>>, Fault>
        ensures file { self.new.file.now ≡ self.old.file.now }
        ensures read { Sectioned self.old (tasks table.old) self.new (tasks table.new) result }
    {
        let Some(section) = self.head()? else {
            return Ok(None);
        };
        let start = self.cursor.pos + HEAD;
        let end = start + section.body().len();
        self.cursor.pos = start;
        match section {
            Section::Table { body: _, at: _ } => {
                self.body(end, table)?;
                self.due = Due::Calls;
            }
            Section::Calls { body: _, at: _ } => {
                self.body(end, &mut Tested)?;
                self.due = Due::Notes;
            }
            Section::Note { body: _, at: _ } => {
                self.cursor.pos = end;
                self.noted = true;
            }
        }
        Ok(Some(section))
    }

    // The next section in order, or none at the end of a file that has a table. The rows of the table section go to the table.
    // After a fault the reader stands where it stood, and the table has no rows.
    pub fn next(&mut self, table: &mut Table) -> Result<Option<Section<'a>>, Fault>
        ensures file { self.new.file.now ≡ self.old.file.now }
        ensures read { MatchResult result
            (Came self.old (tasks table.old) self.new (tasks table.new))
            (Stopped self.old self.new (tasks table.new)) }
    {
        let at = self.cursor.pos;
        let found = self.section(table);
        if found.is_err() {
            self.cursor.pos = at;
            table.clear();
        }
        found
    }
}
