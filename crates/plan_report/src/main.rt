// Reports a plan: `plan_report PROCESSORS DELTA`, with a table of tasks on standard input.
#![tactic(auto)]

mod input;
mod report;
#[cfg(test)]
mod tests;

use anyhow::anyhow;
use input::table_of;
use report::Report;
use std::env;
use std::io::Read;
use std::process::ExitCode;

const USAGE: &str = "usage: plan_report PROCESSORS DELTA < TABLE, both numbers 0 to 255";

// The two arguments, as bytes: what is wrong with the numbers themselves is for the plan's verdict to say.
fn settings(rt: &HostRuntime) -> anyhow::Result<(u8, u8)> {
    let mut words = env::args(rt)?.skip(1);
    match (words.next(), words.next(), words.next()) {
        (Some(processors), Some(delta), None) => match (processors.parse(), delta.parse()) {
            (Ok(processors), Ok(delta)) => Ok((processors, delta)),
            _ => Err(anyhow!(USAGE)),
        },
        _ => Err(anyhow!(USAGE)),
    }
}

// Prints the report, or the line that is at fault: the line says all, and the status says that there is no report.
fn main(rt: HostRuntime) -> anyhow::Result<ExitCode> {
    let (processors, delta) = settings(&rt)?;
    let mut bytes = Vec::new(rt.alloc());
    rt.stdin().read_to_end(&mut bytes)?;
    // A byte that is no text turns into one that no name may have.
    let text = String::from_utf8_lossy(rt.alloc(), &bytes)?;
    match table_of(text.as_str()) {
        Ok(table) => {
            let plan = table.close(processors, delta);
            print!(rt; "{}", Report { plan: &plan })?;
            Ok(ExitCode::SUCCESS)
        }
        Err(bad) => {
            println!(rt; "{bad}")?;
            Ok(ExitCode::FAILURE)
        }
    }
}
