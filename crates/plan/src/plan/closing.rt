// Closing a table, and opening it again.
ghost use Rattle.std.specs.Prelude.{◌≡◌, ℕ, ◌/◌, ◌≤◌, map, Err, slice_index};
ghost use Rattle.plan.specs.Method.{full, shortest_of, reserve_of};
ghost use Rattle.plan.specs.Bins.{load_of, reserve_in};
ghost use Rattle.plan.specs.Closing.{Good, judged, verdict_of, closed};
ghost use Rattle.plan.specs.Laws.{Lawful};
ghost use Rattle.plan.specs.Plans.{planned};
ghost use Rattle.plan.specs.Views.{tasks};

use super::{LARGEST_DELTA, MOST_PROCESSORS, Plan};
use crate::FULL;
use crate::bin::Bin;
use crate::packing::Packing;
use crate::table::{ROWS, Table};
use crate::verdict::{PlanRefusal, Verdict};
use arrayvec::ArrayVec;

fn judge(processors: u8, delta: u8, rows: u8, shortest: u32) -> Verdict
    ensures { result ≡ judged processors delta rows shortest }
{
    if processors < 1 || processors > MOST_PROCESSORS {
        Err(PlanRefusal::BadProcessors)
    } else if delta < 1 || delta > LARGEST_DELTA {
        Err(PlanRefusal::BadDelta)
    } else if rows == 0 {
        Err(PlanRefusal::NoRows)
    } else if shortest < delta as u32 {
        Err(PlanRefusal::ShortPeriod)
    } else {
        Ok(())
    }
}

// How time is cut: into slots, of which the shortest period has delta.
#[derive(Clone, Copy)]
struct Cut {
    slot: u32,
    delta: u8,
    ghost short: { slot ≤ 1000000 },
    ghost some: { 1 ≤ delta },
}

impl Cut {
    // The longest slot of which the shortest period has delta.
    fn of(shortest: u32, delta: u8) -> Cut
        requires shortest { shortest ≤ 1000000 }
        requires delta { 1 ≤ delta }
        ensures { (result.slot ≡ shortest / delta) × (result.delta ≡ delta) }
    {
        Cut {
            slot: shortest / delta as u32,
            delta,
        }
    }

    // The ticks of each slot that a bin of this load gets, rounded up.
    fn reserve(self, load: u32) -> u32
        requires { load ≤ full }
        ensures { result ≡ reserve_of self.slot self.delta load }
    {
        let delta = self.delta as u64;
        let load = load as u64;
        let wanted = self.slot as u64 * (delta + 1) * load;
        let part = load + delta * FULL as u64;
        wanted.div_ceil(part) as u32
    }
}

// Bins of these loads, with their reserves.
fn bins(cut: Cut, loads: &ArrayVec<u32, ROWS>) -> ArrayVec<Bin, ROWS>
    requires { (p : ℕ) → slice_index loads.now.items p ≤ full }
    ensures loads { map load_of result.items ≡ loads.now.items }
    ensures reserves { map reserve_in result.items ≡ map (reserve_of cut.slot cut.delta) loads.now.items }
{
    // Pushed one by one: `extend` answers an error for a vector that is full, which cannot happen here.
    let mut bins = ArrayVec::new();
    for load in loads.iter() {
        bins.push(Bin {
            load: *load,
            reserve: cut.reserve(*load),
        });
    }
    bins
}

// The plan of a table that was found good. Processors and delta go side by side: a struct of both would be taken apart here at once.
fn with_bins(table: Table, processors: u8, delta: u8, shortest: u32) -> Plan
    requires good { verdict_of (tasks table) processors delta ≡ Good }
    requires shortest { shortest ≡ shortest_of (tasks table) }
    ensures { (result.table ≡ table) × (result.processors ≡ processors) × (result.delta ≡ delta) }
{
    let cut = Cut::of(shortest, delta);
    let packing = table.first_fit();
    let bins = bins(cut, &packing.loads);
    let Packing { bin_of, loads: _ } = packing;
    Plan {
        table,
        processors,
        delta,
        verdict: Ok(()),
        shortest,
        slot: cut.slot,
        bin_of,
        bins,
    }
}

// The plan of a table that was refused.
fn without_bins(
    table: Table,
    processors: u8,
    delta: u8,
    refusal: PlanRefusal,
    shortest: u32,
) -> Plan
    requires refused { Err refusal ≡ verdict_of (tasks table) processors delta }
    requires shortest { shortest ≡ shortest_of (tasks table) }
    ensures { (result.table ≡ table) × (result.processors ≡ processors) × (result.delta ≡ delta) }
{
    Plan {
        table,
        processors,
        delta,
        verdict: Err(refusal),
        shortest,
        slot: 0,
        bin_of: ArrayVec::new(),
        bins: ArrayVec::new(),
    }
}

impl Table {
    // Uses the table up. Any processors and any delta may be given: the verdict says what is wrong with them.
    pub fn close(self, processors: u8, delta: u8) -> Plan
        ensures plan { planned result ≡ closed (tasks self) processors delta }
        ensures laws { Lawful (planned result) }
        ensures table { result.table ≡ self }
    {
        let shortest = self.shortest();
        match judge(processors, delta, self.count(), shortest) {
            Ok(()) => with_bins(self, processors, delta, shortest),
            Err(refusal) => without_bins(self, processors, delta, refusal, shortest),
        }
    }
}

impl Plan {
    // Uses the plan up, and gives back the table that was closed.
    pub fn reopen(self) -> Table
        ensures { result ≡ self.table }
    {
        let Plan {
            table: closed,
            processors: _,
            delta: _,
            verdict: _,
            shortest: _,
            slot: _,
            bin_of: _,
            bins: _,
        } = self;
        closed
    }
}
