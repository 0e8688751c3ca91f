// What a list of calls gives.
ghost use Rattle.std.specs.Prelude.{◌≡◌, MatchResult};
ghost use Rattle.file_reader.specs.CallLists.{Begins, NextCall, NoCall};

use super::Calls;
use crate::cursor::Cursor;
use file_parts::{Call, Fault};

impl<'a> Calls<'a> {
    pub fn new(bytes: &'a [u8]) -> Calls<'a>
        ensures { Begins bytes.now result }
    {
        Calls {
            bytes,
            cursor: Cursor {
                pos: 0,
                limit: bytes.len(),
            },
        }
    }

    // The next call, or none at the end; at a fault the list stays where it is.
    pub fn next(&mut self) -> Result<Option<Call>, Fault>
        ensures bytes { self.new.bytes.now ≡ self.old.bytes.now }
        ensures read { MatchResult result
            (NextCall self.old.bytes.now self.old.cursor.pos self.new.cursor.pos)
            (NoCall self.old.bytes.now self.old.cursor.pos self.new.cursor.pos) }
    {
        if self.cursor.pos == self.cursor.limit {
            return Ok(None);
        }
        self.cursor.call(self.bytes).map(Some)
    }
}
