// Bytes and tables for the trials.
use anyhow::anyhow;
use plan::Table;
use std::alloc::{AllocError, Global};

// Two processors, delta 1, flat.
const HEADER: [u8; 8] = [b'N', b'P', b'F', 0, 1, 2, 1, b'F'];

// Budget 1, period 3, name a.
const ROW: [u8; 10] = [0, 0, 0, 1, 0, 0, 0, 3, 1, b'a'];

const REQUEST: [u8; 2] = [b'R', 0];

fn add_times(bytes: &mut Vec<u8>, piece: &[u8], times: usize) -> Result<(), AllocError> {
    for _ in 0..times {
        bytes.extend_from_slice(piece)?;
    }
    Ok(())
}

// Adds what a word stands for: a byte in hexadecimal, or many bytes that have a name.
fn add_word(bytes: &mut Vec<u8>, word: &str) -> anyhow::Result<()> {
    if word.len() == 2 {
        bytes.push(u8::from_str_radix(word, 16)?)?;
        return Ok(());
    }
    match word {
        "HEADER" => add_times(bytes, &HEADER, 1)?,
        "ROWS" => add_times(bytes, &ROW, 64)?,
        "CALLS" => add_times(bytes, &REQUEST, 32_766)?,
        _ => return Err(anyhow!("no such word")),
    }
    Ok(())
}

pub(crate) fn bytes_of(heap: Global, words: &str) -> anyhow::Result<Vec<u8>> {
    let mut bytes = Vec::new(heap);
    for word in words.split_whitespace() {
        add_word(&mut bytes, word)?;
    }
    Ok(bytes)
}

// Rows (1, 3) a and (2, 3) b.
pub(crate) fn two_rows() -> Table {
    let mut table = Table::new();
    let _ = table.add(1, 3, b"a");
    let _ = table.add(2, 3, b"b");
    table
}

// As many rows as a table takes, with the longest names.
pub(crate) fn full_table() -> Table {
    let mut table = Table::new();
    for budget in 1..=64 {
        let _ = table.add(budget, 1_000_000, b"sixteen letters!");
    }
    table
}
