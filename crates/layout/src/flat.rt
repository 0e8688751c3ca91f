// The flat layout: reserves one after another, wrapped at the end of each processor.
ghost use Rattle.std.specs.Prelude.{◌≡◌, ℕ, ◌<◌, slice_index};
ghost use Rattle.arrayvec.specs.ArrayVec.{array_vec_len};
ghost use Rattle.layout_laws.specs.Flat.{start};
ghost use Rattle.layout.specs.Shared.{reserved, starts};

use crate::shares::Shares;

mod making;
mod serving;

#[derive(Drop)]
pub struct Flat {
    shares: Shares,
    ghost started: { (p : ℕ) → p < array_vec_len shares.bins → slice_index (starts shares) p ≡ start (reserved shares) p },
}
