// The lines of a listing.

// What a row has for a processor that runs nothing. Rows are bytes, as the C interface hands them over, and no Options.
// It is this crate's own: the crate knows no runner.
pub const IDLE: u8 = 255;

// What was asked of a runner.
#[derive(Clone, Copy, PartialEq, Eq, Debug)]
pub enum Asked {
    Request,
    Done,
}

// A `number` is that of a refusal as a listing prints it: 8 bits of any crate's, so no enum of one of them.
#[derive(Clone, Copy, PartialEq, Eq, Debug)]
pub enum Line<'a> {
    Plan {
        slot: u32,
        bins: u8,
    },
    Bin {
        bin: u8,
        load: u32,
        reserve: u32,
    },
    // The clock before the tick, and for each processor the task that it runs or `IDLE`.
    Tick {
        clock: u32,
        row: &'a [u8],
    },
    TickRefused {
        number: u8,
    },
    // A call that was accepted, or the number of its refusal.
    Answer {
        asked: Asked,
        task: u8,
        refusal: Option<u8>,
    },
    End {
        clock: u32,
    },
    // No plainer as one case with the next: `at` counts bytes and `row` rows, and each has words of its own.
    FileRefused {
        number: u8,
        at: usize,
    },
    RowRefused {
        number: u8,
        row: usize,
    },
    Refused {
        number: u8,
    },
}
