// The reader of a plan file.
ghost use Rattle.std.specs.Prelude.{◌≡◌, ◌≤◌, length};

use crate::cursor::Cursor;
use file_parts::Due;

mod bodies;
mod opening;
mod sections;

// It stands between sections and ends where the file ends; only while a section is read does it end where the section does.
#[derive(Drop)]
pub struct Reader<'a> {
    file: &'a [u8],
    cursor: Cursor,
    due: Due,
    noted: bool,
    ghost whole: { cursor.limit ≡ length file.now },
}
