// From a text to a plan file.
use crate::bad_line::BadLine;
use crate::draft::Draft;
use std::alloc::Global;

// The bytes of the plan file that a text describes. The loop over lines is plan_report's too, whose reasons are others.
pub(crate) fn compose(heap: Global, text: &str) -> Result<Vec<u8>, BadLine> {
    let mut draft = Draft::new(heap);
    // Counted by hand: what the text lacks at its end is a fault of the line after the last.
    let mut number = 1usize;
    for line in text.lines() {
        draft.line(line).map_err(|reason| BadLine {
            line: number,
            reason,
        })?;
        number = number.saturating_add(1);
    }
    draft.file(heap).map_err(|reason| BadLine {
        line: number,
        reason,
    })
}
