// Makes a plan file: a text on standard input, the file on standard output.
#![tactic(auto)]

mod bad_line;
mod calls;
mod composing;
mod draft;
mod fields;
mod given;
#[cfg(test)]
mod tests;

use composing::compose;
use std::io::{Read, Write};
use std::process::ExitCode;

// The text on standard input. A byte that is no text turns into one that no name may have.
fn input(rt: &HostRuntime) -> anyhow::Result<String> {
    let mut bytes = Vec::new(rt.alloc());
    rt.stdin().read_to_end(&mut bytes)?;
    Ok(String::from_utf8_lossy(rt.alloc(), &bytes)?)
}

// Writes the plan file, or says which line is at fault: the line says all, and the status says that there is no file.
fn main(rt: HostRuntime) -> anyhow::Result<ExitCode> {
    match compose(rt.alloc(), input(&rt)?.as_str()) {
        Ok(file) => {
            rt.stdout().write_all(&file)?;
            Ok(ExitCode::SUCCESS)
        }
        Err(bad) => {
            eprintln!(rt; "{bad}")?;
            Ok(ExitCode::FAILURE)
        }
    }
}
