// The body of a section, read within its own bounds.
ghost use Rattle.std.specs.Prelude.{◌≡◌, ◌≤◌, length, MatchResult};

use super::Reader;
use crate::cursor::narrow;
use crate::pieces::Pieces;
use file_parts::Fault;

impl Reader<'_> {
    // Takes the pieces that stand from here to `end`, in place of those that were taken.
    pub(super) fn body<P: Pieces>(&mut self, end: usize, pieces: &mut P) -> Result<(), Fault>
        requires some { self.old.cursor.pos ≤ end }
        requires inside { end ≤ length self.old.file.now }
        ensures file { self.new.file.now ≡ self.old.file.now }
        ensures due { self.new.due ≡ self.old.due }
        ensures noted { self.new.noted ≡ self.old.noted }
        ensures read { MatchResult result
            (λ _. (self.new.cursor.pos ≡ end) × P.whole self.old.file.now self.old.cursor.pos end pieces.new)
            (P.broken self.old.file.now self.old.cursor.pos end) }
    {
        pieces.clear();
        let file = self.file;
        let guard = narrow(&mut self.cursor, end);
        while guard.cursor.pos < guard.cursor.limit {
            pieces.take(file, guard.cursor)?;
        }
        Ok(())
    }
}
