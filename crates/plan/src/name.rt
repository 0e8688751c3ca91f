// The name of a task.
ghost use Rattle.std.specs.Prelude.{◌≡◌, None, MatchResult, Some};
ghost use Rattle.plan.specs.Rows.{printable, name_refusal};

use crate::refusal::RowRefusal;
use arrayvec::ArrayString;
use std::{fmt, str};

// The longest name.
pub const NAME_BYTES: usize = 16;

// 1 to 16 bytes of printable ASCII, the space among them.
#[derive(Clone, Copy)]
pub struct Name {
    text: ArrayString<NAME_BYTES>,
    ghost good: { name_refusal text.bytes ≡ None },
}

fn is_printable(byte: u8) -> bool
    ensures { result ≡ printable byte }
{
    matches!(byte, b' '..=b'~')
}

impl fmt::Display for Name {
    ghost output = { λ n. Some n.text.bytes };

    fn fmt<W: fmt::Write>(&self, f: &mut fmt::Formatter<W>) -> fmt::Result {
        f.write_str(self.as_str())
    }
}

impl Name {
    // For a row that stands for none.
    pub(crate) fn vacant() -> Name {
        let mut text = ArrayString::new();
        text.push('-');
        Name { text }
    }

    // The name that these bytes spell.
    pub(crate) fn new(bytes: &[u8]) -> Result<Name, RowRefusal>
        ensures { MatchResult result (λ n. (name_refusal bytes.now ≡ None) × (n.text.bytes ≡ bytes.now)) (λ e. name_refusal bytes.now ≡ Some e) }
    {
        if bytes.is_empty() || bytes.len() > NAME_BYTES {
            return Err(RowRefusal::NameLength);
        }
        for (at, byte) in bytes.iter().enumerate() {
            if !is_printable(*byte) {
                return Err(RowRefusal::NameByte { at: at as u8 });
            }
        }
        // Printable bytes are text. Pushed all at once: letter by letter, each is encoded and copied by itself.
        let Ok(letters) = str::from_utf8(bytes) else {
            unreachable!()
        };
        let mut text = ArrayString::new();
        text.push_str(letters);
        Ok(Name { text })
    }

    pub fn as_bytes(&self) -> &[u8]
        ensures { result.now ≡ self.now.text.bytes }
    {
        self.as_str().as_bytes()
    }

    pub fn as_str(&self) -> &str
        ensures { result.now ≡ self.now.text.bytes }
    {
        self.text.as_str()
    }
}
