// Checks a plan file: `file_check < FILE`.
#![tactic(auto)]

mod listing;
mod refused;

use listing::Listing;
use plan::Table;
use planfile::{Contents, LayoutKind, read, write};
use refused::Refused;
use std::io::Read;
use std::process::ExitCode;

// The longest file that is read.
const MOST_BYTES: usize = 60_000;

// Writes what was read, and says whether the file came back; notes do not.
fn write_back(
    rt: &HostRuntime,
    file: &[u8],
    table: &Table,
    contents: Contents<'_>,
) -> anyhow::Result<ExitCode> {
    let mut area = vec![in rt.alloc(); 0u8; file.len()]?;
    match write(table, contents.settings, contents.calls, &mut area) {
        Ok(len) if contents.noted => {
            println!(rt; "notes are not written back: the file has {len} bytes without them")?;
            Ok(ExitCode::SUCCESS)
        }
        Ok(len) if area.as_slice() == file => {
            println!(rt; "written back byte for byte, {len} bytes")?;
            Ok(ExitCode::SUCCESS)
        }
        _ => {
            println!(rt; "not written back byte for byte")?;
            Ok(ExitCode::FAILURE)
        }
    }
}

// Prints what the file holds, or its refusal: the lines say all, and the status says whether something is wrong.
fn main(rt: HostRuntime) -> anyhow::Result<ExitCode> {
    let mut file = Vec::new(rt.alloc());
    rt.stdin()
        .take(MOST_BYTES as u64 + 1)
        .read_to_end(&mut file)?;
    if file.len() > MOST_BYTES {
        println!(rt; "refused 18: the file has more than {MOST_BYTES} bytes")?;
        return Ok(ExitCode::FAILURE);
    }
    let mut table = Table::new();
    match read(&file, &mut table) {
        Ok(contents) => {
            let settings = contents.settings;
            let layout = LayoutKind::try_from(settings.letter)?;
            println!(rt;
                "{}",
                Listing {
                    file: &file,
                    settings,
                    layout
                }
            )?;
            write_back(&rt, &file, &table, contents)
        }
        Err(fault) => {
            println!(rt; "{}", Refused(fault))?;
            Ok(ExitCode::FAILURE)
        }
    }
}
