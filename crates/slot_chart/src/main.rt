// Draws one slot of each layout that a small lab's plan has: a line for each processor, a column for each tick.
#![tactic(auto)]

mod chart;
#[cfg(test)]
mod tests;

use chart::Chart;
use layout::{Dedicated, Flat, Layout, NotMade, Semi};
use plan::{Plan, RowRefusal, Table};
use std::io;

// Four frames whose readings take more than half of every hundred ticks.
fn lab() -> Result<Table, RowRefusal> {
    let mut table = Table::new();
    table.add(56, 100, b"frame 1")?;
    table.add(60, 100, b"frame 2")?;
    table.add(53, 100, b"frame 3")?;
    table.add(63, 100, b"frame 4")?;
    Ok(table)
}

// The chart of a layout that was made, or the refusal of one that was not.
fn show<L: Layout>(
    rt: &HostRuntime,
    name: &str,
    made: Result<(), NotMade>,
    layout: &L,
    slot: u32,
) -> io::Result<()> {
    println!(rt)?;
    match made {
        Ok(()) => {
            println!(rt; "{name}")?;
            print!(rt; "{}", Chart { layout, slot })
        }
        Err(refusal) => println!(rt; "{name}: refused {}", refusal.number()),
    }
}

fn show_all(rt: &HostRuntime, plan: &Plan) -> io::Result<()> {
    let slot = plan.slot();
    println!(rt;
        "{} bins on {} processors, slot of {slot} ticks",
        plan.bins(),
        plan.processors()
    )?;
    let mut flat = Flat::empty();
    show(rt, "flat", flat.fill(plan), &flat, slot)?;
    let mut semi = Semi::empty();
    show(rt, "semi-partitioned", semi.fill(plan), &semi, slot)?;
    let mut dedicated = Dedicated::empty();
    show(rt, "dedicated", dedicated.fill(plan), &dedicated, slot)
}

fn main(rt: HostRuntime) -> io::Result<()> {
    match lab() {
        Ok(table) => show_all(&rt, &table.close(3, 1)),
        Err(refusal) => println!(rt; "refused {}", refusal.number()),
    }
}
