// A reading that is requested just as its bin's reserve has closed, behind two that are due sooner: from start to finish, call by call.
#![tactic(auto)]

use layout::{Flat, Layout};
use plan::{Plan, RowRefusal, Table};
use runner::{IDLE, Outstanding, Runner};
use std::io;

const LOAD_CELL: u8 = 0;

const EXTENSOMETER: u8 = 1;

const HUMIDITY: u8 = 2;

fn name_of(task: u8) -> &'static str {
    match task {
        LOAD_CELL => "load cell",
        EXTENSOMETER => "extensometer",
        HUMIDITY => "humidity",
        _ => "-",
    }
}

// Three readings that share a bin, for one processor.
fn lab() -> Result<Plan, RowRefusal> {
    let mut table = Table::new();
    table.add(1, 8, name_of(LOAD_CELL).as_bytes())?;
    table.add(1, 8, name_of(EXTENSOMETER).as_bytes())?;
    table.add(2, 12, name_of(HUMIDITY).as_bytes())?;
    Ok(table.close(1, 1))
}

// Runtime and runner go side by side from here on: no plainer as a struct, which would lend both again.
// Prints the outstanding list; the deadline of the humidity reading, while it is on it.
fn show_outstanding<L: Layout>(rt: &impl Print, runner: &Runner<L>) -> io::Result<Option<u32>> {
    let mut slots = [Outstanding {
        task: 0,
        deadline: 0,
        left: 0,
    }; 3];
    let mut due = None;
    print!(rt; "  outstanding:")?;
    match runner.outstanding(&mut slots) {
        Ok(0) => print!(rt; " none")?,
        Ok(count) => {
            for job in slots.iter().take(count) {
                print!(rt;
                    " {} due {} left {};",
                    name_of(job.task),
                    job.deadline,
                    job.left
                )?;
                if job.task == HUMIDITY {
                    due = Some(job.deadline);
                }
            }
        }
        Err(refusal) => print!(rt; " refused {}", refusal.number())?,
    }
    println!(rt)?;
    Ok(due)
}

fn request<L: Layout>(
    rt: &impl Print,
    runner: &mut Runner<L>,
    task: u8,
) -> io::Result<Option<u32>> {
    let clock = runner.clock();
    let name = name_of(task);
    match runner.request(task) {
        Ok(()) => println!(rt; "clock {clock}: request {name}: ok")?,
        Err(refusal) => println!(rt;
            "clock {clock}: request {name}: refused {}",
            refusal.number()
        )?,
    }
    show_outstanding(rt, runner)
}

fn tick<L: Layout>(rt: &impl Print, runner: &mut Runner<L>) -> io::Result<Option<u32>> {
    let clock = runner.clock();
    let mut row = [IDLE; 1];
    match runner.tick(&mut row) {
        Ok(()) => println!(rt; "clock {clock}: tick: {}", name_of(row[0]))?,
        Err(refusal) => println!(rt; "clock {clock}: tick: refused {}", refusal.number())?,
    }
    show_outstanding(rt, runner)
}

// The reserve closes before tick 5; there the readings are requested, the slow one first. It is finished long before soak tests would see
// it late.
fn day<L: Layout>(rt: &impl Print, runner: &mut Runner<L>) -> io::Result<()> {
    for _ in 0..5 {
        tick(rt, runner)?;
    }
    let due = request(rt, runner, HUMIDITY)?.unwrap_or(0);
    request(rt, runner, LOAD_CELL)?;
    request(rt, runner, EXTENSOMETER)?;
    request(rt, runner, LOAD_CELL)?;
    for _ in 0..12 {
        if tick(rt, runner)?.is_none() {
            return println!(rt;
                "humidity was finished at clock {}, and due at {due}",
                runner.clock()
            );
        }
    }
    println!(rt; "humidity was not finished")
}

fn start(rt: &impl Print, plan: Plan) -> io::Result<()> {
    println!(rt;
        "slot {}, one bin of load {}, reserve {}",
        plan.slot(),
        plan.load(0).unwrap_or(0),
        plan.reserve(0).unwrap_or(0)
    )?;
    let mut flat = Flat::empty();
    let _ = flat.fill(&plan);
    let mut runner = Runner::start(plan, flat);
    let result = day(rt, &mut runner);
    let _plan = runner.stop();
    result
}

fn main(rt: HostRuntime) -> io::Result<()> {
    match lab() {
        Ok(plan) => start(&rt, plan),
        Err(refusal) => println!(rt; "refused {}", refusal.number()),
    }
}
