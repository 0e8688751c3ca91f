// What a line says, told once: its length and its bytes both come from here.
// Tried as `Display`: its contract says nothing of a write that fails, so `write` could not say when it refuses.
ghost use Rattle.std.specs.Prelude.{◌*◌, ◌≤◌, ◌++◌, length, flat_map};
ghost use Rattle.line_text.specs.Decimals.{digits};
ghost use Rattle.line_text.specs.Texts.{entry, called, answered, text, Short};
ghost use Rattle.areas.specs.Pens.{Puts};

use crate::line::{Asked, IDLE, Line};
use areas::Pen;

// The last digit first, from the end of the 20 that the greatest number has.
fn put_number(pen: &mut Pen, number: u64)
    ensures { Puts pen.old (digits number) pen.new }
{
    let mut bytes = [0u8; 20];
    let mut at = 19;
    let mut rest = number;
    while rest >= 10 {
        bytes[at] = b'0' + (rest % 10) as u8;
        at -= 1;
        rest /= 10;
    }
    bytes[at] = b'0' + rest as u8;
    pen.put(&bytes[at..]);
}

// A word and the number behind it.
fn put_field(pen: &mut Pen, word: &[u8], number: u64)
    ensures { Puts pen.old (word.now ++ digits number) pen.new }
{
    pen.put(word);
    put_number(pen, number);
}

// Each case in one `put` of a known length, with no loop over digits: a row is put entry by entry, twice a line.
#[tactic(auto, using(crate::proofs::Entries::entry_ones, crate::proofs::Entries::entry_tens, crate::proofs::Entries::entry_hundreds))]
fn put_entry(pen: &mut Pen, task: u8)
    ensures { Puts pen.old (entry task) pen.new }
{
    let tens = b'0' + task / 10 % 10;
    let ones = b'0' + task % 10;
    if task == IDLE {
        pen.put(b" -");
    } else if task < 10 {
        pen.put(&[b' ', ones]);
    } else if task < 100 {
        pen.put(&[b' ', tens, ones]);
    } else {
        pen.put(&[b' ', b'0' + task / 100, tens, ones]);
    }
}

fn put_row(pen: &mut Pen, row: &[u8])
    ensures told { Puts pen.old (flat_map entry row.now) pen.new }
    ensures short { length (flat_map entry row.now) ≤ 4 * length row.now }
{
    for &task in row {
        put_entry(pen, task);
    }
}

fn put_call(pen: &mut Pen, asked: Asked, task: u8)
    ensures { Puts pen.old (called asked task) pen.new }
{
    match asked {
        Asked::Request => put_field(pen, b"request ", task as u64),
        Asked::Done => put_field(pen, b"done ", task as u64),
    }
}

fn put_answer(pen: &mut Pen, refusal: Option<u8>)
    ensures { Puts pen.old (answered refusal) pen.new }
{
    match refusal {
        None => pen.put(b" ok"),
        Some(number) => put_field(pen, b" refused ", number as u64),
    }
}

// Always inlined: over no area the bytes are then not even made, and `measured` counts alone.
// `Short` stands in three contracts, here, of `measured` and of `write`: the public clause of `write` needs it from each.
#[inline(always)]
pub(crate) fn put_line(pen: &mut Pen, line: Line)
    ensures told { Puts pen.old (text line.entry) pen.new }
    ensures short { Short 80 line.entry }
{
    match line {
        Line::Plan { slot, bins } => {
            put_field(pen, b"slot ", slot as u64);
            put_field(pen, b" bins ", bins as u64);
        }
        Line::Bin { bin, load, reserve } => {
            put_field(pen, b"bin ", bin as u64);
            put_field(pen, b" load ", load as u64);
            put_field(pen, b" reserve ", reserve as u64);
        }
        Line::Tick { clock, row } => {
            put_field(pen, b"tick ", clock as u64);
            put_row(pen, row);
        }
        Line::TickRefused { number } => put_field(pen, b"tick refused ", number as u64),
        Line::Answer {
            asked,
            task,
            refusal,
        } => {
            put_call(pen, asked, task);
            put_answer(pen, refusal);
        }
        Line::End { clock } => put_field(pen, b"end ", clock as u64),
        Line::FileRefused { number, at } => {
            put_field(pen, b"refused ", number as u64);
            put_field(pen, b" at ", at as u64);
        }
        Line::RowRefused { number, row } => {
            put_field(pen, b"refused ", number as u64);
            put_field(pen, b" at row ", row as u64);
        }
        Line::Refused { number } => put_field(pen, b"refused ", number as u64),
    }
    pen.put(b"\n");
}
