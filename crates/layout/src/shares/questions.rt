ghost use Rattle.std.specs.Prelude.{◌≡◌, ℕ, ◌<◌, ◌≤◌, length, slice_index};
ghost use Rattle.layout_laws.specs.Meaning.{in_time};
ghost use Rattle.layout_laws.specs.Offset.{offset};
ghost use Rattle.layout_laws.specs.Semi.{free};
ghost use Rattle.layout.specs.Shared.{weights, reserved, starts, position};

use super::Shares;
use crate::TICKS;

impl Shares {
    pub(crate) fn count(&self) -> u8
        ensures { result ≡ length (weights self.now) }
    {
        self.bins.len() as u8
    }

    // No plainer with `reserve` as one question: it would be handed the field that is asked for.
    // The load of a bin, 0 where there is no such bin.
    pub(crate) fn load(&self, bin: u8) -> u32
        ensures { result ≡ slice_index (weights self.now) bin }
    {
        self.bins
            .get(bin as usize)
            .map_or(0, |share| share.bin.load)
    }

    // The reserve of a bin, 0 where there is no such bin.
    fn reserve(&self, bin: usize) -> u32
        ensures { result ≡ slice_index (reserved self.now) bin }
    {
        self.bins.get(bin).map_or(0, |share| share.bin.reserve)
    }

    // What the processors below each have left beside their own bins.
    pub(crate) fn frees(&self) -> [u32; 17]
        ensures { (q : ℕ) → q ≤ 16 → slice_index result q ≡ free self.now.slot (reserved self.now) q }
    {
        let mut frees = [0; 17];
        let mut next = 0;
        for (q, free) in frees.iter_mut().enumerate() {
            *free = next;
            next += self.slot - self.reserve(q);
        }
        frees
    }

    // The place of a bin that is served in the tick: where it starts, and the ticks of its reserve that went by.
    pub(crate) fn position(&self, tick: u32, bin: u8) -> Option<u32>
        ensures { result ≡ in_time tick (position self.now.slot (slice_index (starts self.now) bin) (slice_index (reserved self.now) bin) tick) }
    {
        if tick >= TICKS {
            return None;
        }
        let share = self.bins.get(bin as usize)?;
        let k = offset(self.slot, share.start, tick);
        (k < share.bin.reserve).then_some(share.start + k)
    }
}

// (tick - start) modulo the slot.
fn offset(slot: u32, start: u32, tick: u32) -> u32
    requires { 1 ≤ slot }
    ensures is { result ≡ offset slot start tick }
    ensures below { result < slot }
{
    let from = tick as u64 + (slot - start % slot) as u64;
    (from % slot as u64) as u32
}
