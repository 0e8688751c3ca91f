// What the layouts by slots are made from: the bins of a plan that has room for their reserves.
ghost use Rattle.std.specs.Prelude.{◌≡◌, ℕ, ◌<◌, ◌≤◌, map, slice_index};
ghost use Rattle.arrayvec.specs.ArrayVec.{array_vec_len};
ghost use Rattle.layout_laws.specs.Shares.{Fit, Carry};
ghost use Rattle.layout.specs.Parts.{load_of, reserve_of, start_of};

use crate::share::Share;
use arrayvec::ArrayVec;
use plan::table::ROWS;

mod making;
mod questions;

#[derive(Drop)]
pub(crate) struct Shares {
    pub(crate) processors: u8,
    pub(crate) shortest: u32,
    pub(crate) delta: u8,
    pub(crate) slot: u32,
    pub(crate) bins: ArrayVec<Share, ROWS>,
    ghost most: { (1 ≤ processors) × (processors ≤ 16) },
    // The vector holds no more, but a clause does not see its capacity.
    ghost few: { array_vec_len bins ≤ 64 },
    ghost short: { slot ≤ 1000000 },
    ghost near: { (p : ℕ) → slice_index (map start_of bins.items) p ≤ 64000000 },
    ghost fit: { Fit slot processors (map reserve_of bins.items) },
    ghost carry: { 0 < array_vec_len bins → Carry slot delta shortest (map reserve_of bins.items) (map load_of bins.items) },
}
