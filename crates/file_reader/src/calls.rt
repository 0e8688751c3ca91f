// A list of calls.
ghost use Rattle.std.specs.Prelude.{◌≡◌, ◌≤◌, length};

use crate::cursor::Cursor;

mod list;

// Calls one by one, from the first on; places are counted from the start of the list.
#[derive(Drop)]
pub struct Calls<'a> {
    bytes: &'a [u8],
    cursor: Cursor,
    ghost whole: { cursor.limit ≡ length bytes.now },
}
