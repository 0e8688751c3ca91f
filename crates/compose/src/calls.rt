// The bytes of a list of calls.
use crate::bad_line::Reason;
use planfile::writing::LONGEST_CALLS;
use planfile::{Call, Fault, NotWritten};
use std::alloc::Global;

// The most ticks of one call.
const MOST_TICKS: u64 = 65_535;

#[derive(Drop)]
pub struct CallBytes {
    bytes: Vec<u8>,
}

impl CallBytes {
    pub(crate) fn new(heap: Global) -> CallBytes {
        CallBytes {
            bytes: Vec::new(heap),
        }
    }

    pub(crate) fn as_slice(&self) -> &[u8] {
        self.bytes.as_slice()
    }

    // The length is tested here, and not only when the file is written, so that the line at fault is known.
    fn put(&mut self, call: &[u8]) -> Result<(), Reason> {
        if self.bytes.len().saturating_add(call.len()) > LONGEST_CALLS {
            return Err(Reason::File(NotWritten::LongCalls));
        }
        self.bytes.extend_from_slice(call)?;
        Ok(())
    }

    // The writer takes calls as bytes, and no other program makes them.
    pub(crate) fn push(&mut self, call: Call) -> Result<(), Reason> {
        match call {
            Call::Request { task } => self.put(&[b'R', task]),
            Call::Done { task } => self.put(&[b'D', task]),
            Call::Ticks { count } => {
                let [high, low] = count.to_be_bytes();
                self.put(&[b'K', high, low])
            }
        }
    }

    // So many ticks, in as many calls as they take.
    pub(crate) fn push_ticks(&mut self, count: u64) -> Result<(), Reason> {
        for _ in 0..count / MOST_TICKS {
            self.push(Call::Ticks { count: u16::MAX })?;
        }
        match (count % MOST_TICKS) as u16 {
            0 if count == 0 => Err(Reason::File(NotWritten::Calls {
                fault: Fault::NoTicks { at: 0 },
            })),
            0 => Ok(()),
            count => self.push(Call::Ticks { count }),
        }
    }
}
