// Holds the reader and the writer of plan files to the answers that a table on standard input tells.
#![tactic(auto)]

mod making;
mod trials;

use making::{bytes_of, full_table, two_rows};
use plan::Table;
use std::alloc::Global;
use std::io::Read;
use std::process::ExitCode;
use trials::{Answer, reading, writing};

// As in plan_report, but for the trimming: a crate for one line is no plainer.
fn word(line: &str) -> (&str, &str) {
    line.split_once(' ').unwrap_or((line, ""))
}

// `LETTER ROOM CALLS`.
fn written(heap: Global, table: &Table, words: &str) -> anyhow::Result<Option<Answer>> {
    let (letter, rest) = word(words);
    let (room, calls) = word(rest);
    let letter = u8::from_str_radix(letter, 16)?;
    let calls = bytes_of(heap, calls)?;
    Ok(writing(heap, table, letter, room.parse()?, &calls)?)
}

// `FROM BYTES`: the answer to a file; none if one of its cuts, from this length on, is not answered by 12 at its length.
fn cut(heap: Global, words: &str) -> anyhow::Result<Option<Answer>> {
    let (from, words) = word(words);
    let file = bytes_of(heap, words)?;
    let from: usize = from.parse()?;
    let short = |len| {
        let cut = Answer {
            number: 12,
            place: len,
        };
        reading(&file[0..len]) == Some(cut)
    };
    Ok(if (from..file.len()).all(short) {
        reading(&file)
    } else {
        None
    })
}

// `KIND WORDS`.
fn answer(heap: Global, trial: &str) -> anyhow::Result<Option<Answer>> {
    let (kind, words) = word(trial);
    match kind {
        "file" => Ok(reading(&bytes_of(heap, words)?)),
        "cuts" => cut(heap, words),
        "two" => written(heap, &two_rows(), words),
        _ => written(heap, &full_table(), words),
    }
}

// Whether a line tells the answer: `NUMBER PLACE KIND WORDS`.
fn tells(heap: Global, line: &str) -> anyhow::Result<bool> {
    let (number, rest) = word(line);
    let (place, trial) = word(rest);
    let number: u8 = number.parse()?;
    let place: usize = place.parse()?;
    Ok(answer(heap, trial)? == Some(Answer { number, place }))
}

fn is_trial(line: &&str) -> bool {
    !line.starts_with('#')
}

// Prints the lines that do not tell the answer; the status says whether there are some.
fn main(rt: HostRuntime) -> anyhow::Result<ExitCode> {
    let mut text = String::new(rt.alloc());
    rt.stdin().read_to_string(&mut text)?;
    let mut status = ExitCode::SUCCESS;
    // Counted on the way: a second walk over the lines costs as much as the first where they are comments.
    let mut trials = 0usize;
    for line in text.lines().filter(is_trial) {
        trials = trials.saturating_add(1);
        if !tells(rt.alloc(), line)? {
            status = ExitCode::FAILURE;
            println!(rt; "not so: {line}")?;
        }
    }
    println!(rt; "{trials} trials")?;
    Ok(status)
}
