// What closing works out from the rows.
ghost use Rattle.std.specs.Prelude.{◌≡◌};
ghost use Rattle.plan.specs.Method.{shorter, shortest_of};
ghost use Rattle.plan.specs.Closing.{charges_of};
ghost use Rattle.plan.specs.Packs.{Packs};
ghost use Rattle.plan.specs.Views.{tasks};

use super::Table;
use crate::packing::Packing;

// The shorter of a period and the least so far; 0 says that there was none.
fn shorter(least: u32, period: u32) -> u32
    ensures { result ≡ shorter least period }
{
    if least == 0 || period < least {
        period
    } else {
        least
    }
}

impl Table {
    // The shortest period, or 0 where there are no rows.
    pub(crate) fn shortest(&self) -> u32
        ensures { result ≡ shortest_of (tasks self.now) }
    {
        // Tried as `map` and `min`: the proof did not close, which has to take the run of the chain back to the rows.
        let mut least = 0;
        for row in self.rows() {
            least = shorter(least, row.period());
        }
        least
    }

    // The bins, by First-Fit in the order of the rows.
    pub(crate) fn first_fit(&self) -> Packing
        ensures { Packs (charges_of (tasks self.now)) result }
    {
        let mut packing = Packing::new();
        for row in self.rows() {
            packing.put(row.charge());
        }
        packing
    }
}
