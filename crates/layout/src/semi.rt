// The semi-partitioned layout: the first bins have the end of a processor's slot each, and the others share what is left.
ghost use Rattle.std.specs.Prelude.{◌≡◌, ℕ, ◌<◌, ◌≤◌, length, slice_index};
ghost use Rattle.arrayvec.specs.ArrayVec.{array_vec_len};
ghost use Rattle.layout_laws.specs.Semi.{free, semi_start};
ghost use Rattle.layout.specs.Shared.{reserved, starts};

use crate::shares::Shares;

mod making;
mod serving;

#[derive(Drop)]
pub struct Semi {
    shares: Shares,
    // What the processors below each have left; all places are in use.
    frees: [u32; 17],
    ghost wide: { length frees ≡ 17 },
    ghost freed: { (q : ℕ) → q ≤ 16 → slice_index frees q ≡ free shares.slot (reserved shares) q },
    ghost started: { (p : ℕ) → p < array_vec_len shares.bins → slice_index (starts shares) p ≡ semi_start shares.slot shares.processors (reserved shares) p },
}
