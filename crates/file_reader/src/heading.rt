// The header of a plan file.
ghost use Rattle.std.specs.Prelude.{◌≡◌, true, Some, None, MatchResult};
ghost use Rattle.file_reader.specs.Bytes.{Stands};
ghost use Rattle.file_reader.specs.Grammar.{layout_letter, header};
ghost use Rattle.file_reader.specs.Faults.{header_fault};

use crate::letters::names_layout;
use file_parts::{Fault, Settings};

// Mark, version and settings.
pub const HEADER: usize = 8;

// The settings that a file begins with.
pub fn header(file: &[u8]) -> Result<Settings, Fault>
    ensures { MatchResult result
        (λ s. (header_fault file.now ≡ None) × (Stands file.now 0 (header s)) × (layout_letter s.letter ≡ true))
        (λ e. header_fault file.now ≡ Some e) }
{
    let len = file.len();
    match file {
        [b'N', b'P', b'F', high, low, rest @ ..] => {
            if u16::from_be_bytes([*high, *low]) != 1 {
                return Err(Fault::Version);
            }
            match rest {
                [processors, delta, letter, ..] => {
                    if !names_layout(*letter) {
                        return Err(Fault::Letter { at: HEADER - 1 });
                    }
                    Ok(Settings {
                        processors: *processors,
                        delta: *delta,
                        letter: *letter,
                    })
                }
                _ => Err(Fault::ShortFile { len }),
            }
        }
        [b'N', b'P', b'F', ..] => Err(Fault::ShortFile { len }),
        [_, _, _, ..] => Err(Fault::Mark),
        _ => Err(Fault::ShortFile { len }),
    }
}
