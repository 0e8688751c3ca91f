// The plan: a closed table with its bins, its slot and its reserves.
ghost use Rattle.std.specs.Prelude.{◌≡◌, ◌≤◌, map};
ghost use Rattle.arrayvec.specs.ArrayVec.{array_vec_len};
ghost use Rattle.plan.specs.Method.{shortest_of};
ghost use Rattle.plan.specs.Closing.{verdict_of, slot_of, bins_of, loads_of, reserves_of};
ghost use Rattle.plan.specs.Bins.{load_of, reserve_in};
ghost use Rattle.plan.specs.Views.{tasks};

use crate::bin::Bin;
use crate::table::{ROWS, Table};
use crate::verdict::Verdict;
use arrayvec::ArrayVec;

mod closing;
mod questions;

pub const MOST_PROCESSORS: u8 = 16;

pub const LARGEST_DELTA: u8 = 16;

// What each field holds is fixed by the rows, the processors and delta alone.
#[derive(Drop)]
pub struct Plan {
    table: Table,
    processors: u8,
    delta: u8,
    verdict: Verdict,
    shortest: u32,
    slot: u32,
    // The bin of each task, beside the table's rows and not in them: reopening gives the table back whole.
    bin_of: ArrayVec<u8, ROWS>,
    bins: ArrayVec<Bin, ROWS>,
    // Stated, since a clause does not see a vector's capacity.
    ghost few: { array_vec_len bins ≤ 64 },
    ghost judged: { verdict ≡ verdict_of (tasks table) processors delta },
    ghost least: { shortest ≡ shortest_of (tasks table) },
    ghost cut: { slot ≡ slot_of (tasks table) processors delta },
    ghost placed: { bin_of.items ≡ bins_of (tasks table) processors delta },
    ghost loaded: { map load_of bins.items ≡ loads_of (tasks table) processors delta },
    ghost reserved: { map reserve_in bins.items ≡ reserves_of (tasks table) processors delta },
}
