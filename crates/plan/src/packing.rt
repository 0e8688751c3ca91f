// First-Fit: charges come one after another, and each goes to the lowest bin with room.
ghost use Rattle.std.specs.Prelude.{◌≡◌, ℕ, ◌+◌, ◌<◌, ◌≤◌, [], ◌∷◌, ◌++◌, nat_le, slice_index};
ghost use Rattle.arrayvec.specs.ArrayVec.{array_vec_len};
ghost use Rattle.plan.specs.Method.{full, place, put};

use crate::FULL;
use crate::table::ROWS;
use arrayvec::ArrayVec;

#[derive(Drop)]
pub(crate) struct Packing {
    // The bin of each task.
    pub(crate) bin_of: ArrayVec<u8, ROWS>,
    // The load of each bin.
    pub(crate) loads: ArrayVec<u32, ROWS>,
    ghost few: { array_vec_len loads ≤ array_vec_len bin_of },
    ghost light: { (p : ℕ) → slice_index loads.items p ≤ full },
}

// Whether a bin of this load can take the charge.
fn has_room(load: u32, charge: u32) -> bool
    ensures { result ≡ nat_le (load + charge) full }
{
    load.saturating_add(charge) <= FULL
}

impl Packing {
    // No bins, and no task placed.
    pub(crate) fn new() -> Packing
        ensures tasks { result.bin_of.items ≡ [] }
        ensures bins { result.loads.items ≡ [] }
    {
        Packing {
            bin_of: ArrayVec::new(),
            loads: ArrayVec::new(),
        }
    }

    // The lowest bin with room for the charge, or the next number.
    fn place(&self, charge: u32) -> usize
        ensures within { result ≤ array_vec_len self.now.loads }
        ensures lowest { result ≡ place charge self.now.loads.items }
    {
        // Tried as `position`: the proof did not close through `has_room`.
        for (bin, load) in self.loads.iter().enumerate() {
            if has_room(*load, charge) {
                return bin;
            }
        }
        self.loads.len()
    }

    // Puts a task into its bin.
    pub(crate) fn put(&mut self, charge: u32)
        requires room { array_vec_len self.old.bin_of < 64 }
        requires charge { charge ≤ full }
        ensures placed { self.new.bin_of.items ≡ self.old.bin_of.items ++ place charge self.old.loads.items ∷ [] }
        ensures loaded { self.new.loads.items ≡ put charge self.old.loads.items }
    {
        let bin = self.place(charge);
        self.bin_of.push(bin as u8);
        match self.loads.get_mut(bin) {
            Some(load) => *load += charge,
            None => self.loads.push(charge),
        }
    }
}
