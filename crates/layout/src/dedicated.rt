// The dedicated layout: each bin has a processor to itself.
ghost use Rattle.std.specs.Prelude.{ℕ, ◌≤◌, slice_index};
ghost use Rattle.arrayvec.specs.ArrayVec.{array_vec_len};
ghost use Rattle.plan.specs.Method.{full};

use arrayvec::ArrayVec;
use plan::table::ROWS;

mod making;
mod serving;

#[derive(Drop)]
pub struct Dedicated {
    processors: u8,
    shortest: u32,
    // The load of each bin.
    loads: ArrayVec<u32, ROWS>,
    ghost most: { (1 ≤ processors) × (processors ≤ 16) },
    ghost room: { array_vec_len loads ≤ processors },
    ghost light: { (p : ℕ) → slice_index loads.items p ≤ full },
}
