// What a layout by slots keeps of a bin.

use plan::Bin;

#[derive(Clone, Copy, Default)]
pub(crate) struct Share {
    pub(crate) bin: Bin,
    // Where the ticks of its reserve begin.
    pub(crate) start: u32,
}
