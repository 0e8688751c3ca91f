// A reader at the begin, and what it has skipped.
ghost use Rattle.std.specs.Prelude.{◌≡◌};
ghost use Rattle.file_reader.specs.Readers.{Fresh};

use super::Reader;
use crate::cursor::Cursor;
use crate::heading::HEADER;
use file_parts::Due;

impl<'a> Reader<'a> {
    // Stands behind the header, or at the end of a file that is shorter; what the header says is asked for by itself.
    pub fn new(file: &'a [u8]) -> Reader<'a>
        ensures { Fresh file.now result }
    {
        Reader {
            file,
            cursor: Cursor {
                pos: file.len().min(HEADER),
                limit: file.len(),
            },
            due: Due::Table,
            noted: false,
        }
    }

    // Whether notes were skipped.
    pub fn noted(&self) -> bool
        ensures { result ≡ self.now.noted }
    {
        self.noted
    }
}
