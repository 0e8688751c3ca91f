// Rows of a table section.
ghost use Rattle.std.specs.Prelude.{◌≡◌, ◌+◌, ◌≤◌, length, drop, Some, None};
ghost use Rattle.file_reader.specs.Bytes.{four, long_at, Stands};
ghost use Rattle.file_reader.specs.Grammar.{row_bytes};
ghost use Rattle.file_reader.specs.Faults.{task_at};
ghost use Rattle.file_reader.specs.RowReads.{failed, row_read, row_used, row_fault_number};

use plan::name::NAME_BYTES;

// A row's numbers come first, then the length of its name.
const NUMBERS: usize = 9;

// What is wrong with a row's form, with its number.
#[derive(Clone, Copy, Debug, PartialEq, Eq)]
pub enum RowFault {
    // The length of its name.
    Name = 15,
    // The bytes end inside it.
    Cut = 16,
}

impl RowFault {
    // The fault's number, by which files, firmware and reports know it.
    pub fn number(self) -> u8
        ensures { result ≡ row_fault_number self }
    {
        self as u8
    }
}

// A row as its bytes tell it: its numbers, and where its name stands among them; or what is wrong with its form, and zeros.
// No `Result`: such a record, paired with the rest of the bytes, is the form that this project names for reading a row.
#[derive(Clone, Copy, Debug, PartialEq, Eq)]
pub struct RowRead {
    pub budget: u32,
    pub period: u32,
    pub name_at: usize,
    pub name_len: usize,
    pub fault: Option<RowFault>,
}

impl RowRead {
    fn failed(fault: RowFault) -> RowRead
        ensures { result ≡ failed fault }
    {
        RowRead {
            budget: 0,
            period: 0,
            name_at: 0,
            name_len: 0,
            fault: Some(fault),
        }
    }
}

// The number whose four bytes stand here.
// No plainer with `word` as one function: each is one `from_be_bytes`, of two bytes and of four.
fn long(bytes: &[u8], at: usize) -> u32
    requires { at + 4 ≤ length bytes.now }
    ensures is { result ≡ long_at bytes.now at }
    ensures stands { Stands bytes.now at (four result) }
{
    u32::from_be_bytes([bytes[at], bytes[at + 1], bytes[at + 2], bytes[at + 3]])
}

// The row that these bytes begin with, and the bytes that follow it; all of them follow a row that is at fault.
pub fn row(bytes: &[u8]) -> (RowRead, &[u8])
    ensures is { result.0 ≡ row_read bytes.now }
    ensures rest { result.1.now ≡ drop (row_used bytes.now) bytes.now }
    ensures spelled { result.0.fault ≡ None → Stands bytes.now 0 (row_bytes (task_at bytes.now 0)) }
{
    if bytes.len() < NUMBERS {
        return (RowRead::failed(RowFault::Cut), bytes);
    }
    let name_len = bytes[NUMBERS - 1] as usize;
    if name_len == 0 || name_len > NAME_BYTES {
        return (RowRead::failed(RowFault::Name), bytes);
    }
    if bytes.len() - NUMBERS < name_len {
        return (RowRead::failed(RowFault::Cut), bytes);
    }
    let read = RowRead {
        budget: long(bytes, 0),
        period: long(bytes, 4),
        name_at: NUMBERS,
        name_len,
        fault: None,
    };
    (read, &bytes[NUMBERS + name_len..])
}
