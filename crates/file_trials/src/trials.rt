// What the reader and the writer answer.
use plan::Table;
use planfile::{Settings, read, write};
use std::alloc::{AllocError, Global};

// What stands in an area before anything is written there.
const BLANK: u8 = 0xEE;

// As a line of the table tells it: a refusal's number and place. For a file that is read 0 and 0, for one that is written 0 and its length.
// No plainer as a refusal: the table's lines are numbers, so that a reader of another team can be held to them.
#[derive(Clone, Copy, Debug, PartialEq, Eq)]
pub struct Answer {
    pub number: u8,
    pub place: usize,
}

// None if a refused file leaves rows, or its place is a row where it should be a byte.
pub(crate) fn reading(file: &[u8]) -> Option<Answer> {
    let mut table = Table::new();
    let _ = table.add(1, 1, b"left over");
    match read(file, &mut table) {
        Ok(_) => Some(Answer {
            number: 0,
            place: 0,
        }),
        Err(fault) => {
            let number = fault.number();
            let place = fault.place();
            // By the numbers, so that `names_row` is tested by something else than itself.
            let of_row = matches!(number, 1 | 2 | 3 | 21);
            if table.count() == 0 && fault.names_row() == of_row {
                Some(Answer { number, place })
            } else {
                None
            }
        }
    }
}

// Whether a file has these calls, and is written back byte for byte.
fn comes_back(heap: Global, file: &[u8], calls: &[u8]) -> Result<bool, AllocError> {
    let mut table = Table::new();
    let Ok(contents) = read(file, &mut table) else {
        return Ok(false);
    };
    let mut area = vec![in heap; BLANK; file.len()]?;
    let written = write(&table, contents.settings, contents.calls, &mut area).is_ok();
    Ok(written && contents.calls == calls && area.as_slice() == file)
}

// None if bytes behind the file, or those of a refused area, do not stay, or if the file does not come back.
pub(crate) fn writing(
    heap: Global,
    table: &Table,
    // Any letter, as the writer takes it.
    letter: u8,
    room: usize,
    calls: &[u8],
) -> Result<Option<Answer>, AllocError> {
    let settings = Settings {
        processors: 2,
        delta: 1,
        letter,
    };
    let mut area = vec![in heap; BLANK; room]?;
    let written = write(table, settings, calls, &mut area);
    let Some((file, rest)) = area.split_at_checked(written.unwrap_or(0)) else {
        return Ok(None);
    };
    let good = written.is_err() || comes_back(heap, file, calls)?;
    if !good || rest.iter().any(|byte| *byte != BLANK) {
        return Ok(None);
    }
    Ok(Some(match written {
        Ok(len) => Answer {
            number: 0,
            place: len,
        },
        Err(refusal) => Answer {
            number: refusal.number(),
            place: refusal.place(),
        },
    }))
}
