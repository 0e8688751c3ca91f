// Layouts that a plan has on three processors and not on two.
use layout::{Dedicated, Flat, Layout, Semi, fits};
use plan::{Plan, RowRefusal, Table};
use std::test::Fail;

// Reserves of 7, 6 and 7 in slots of 9 ticks.
fn three_bins(processors: u8) -> Result<Plan, RowRefusal> {
    let mut table = Table::new();
    table.add(5, 9, b"force")?;
    table.add(8, 17, b"strain")?;
    table.add(5, 9, b"oven")?;
    Ok(table.close(processors, 1))
}

// Which of the three layouts are made, and whether each of them then fits.
fn made(plan: &Plan) -> (bool, bool, bool) {
    let mut flat = Flat::empty();
    let mut semi = Semi::empty();
    let mut dedicated = Dedicated::empty();
    let a = flat.fill(plan).is_ok() && fits(plan, &flat).is_ok();
    let b = semi.fill(plan).is_ok() && fits(plan, &semi).is_ok();
    let c = dedicated.fill(plan).is_ok() && fits(plan, &dedicated).is_ok();
    (a, b, c)
}

#[test]
fn made_on_three(rt: HostRuntime) -> Result<(), Fail> {
    let (a, b, c) = made(&three_bins(3)?);
    assert!(rt; a && b && c);
    Ok(())
}

#[test]
fn not_on_two(rt: HostRuntime) -> Result<(), Fail> {
    let plan = three_bins(2)?;
    let mut flat = Flat::empty();
    let number = flat.fill(&plan).err().map(|refusal| refusal.number());
    let (a, b, c) = made(&plan);
    assert!(rt; number == Some(27) && !a && !b && !c && flat.processors() == 1 && flat.bins() == 0);
    Ok(())
}
