// The kinds of layouts, by their letters.
ghost use Rattle.std.specs.Prelude.{◌≡◌, Some};
ghost use Rattle.file_reader.specs.LayoutKinds.{layout_kind_named, layout_kind_words};

use file_parts::UnknownLetter;
use std::fmt;

#[derive(Clone, Copy, Debug, PartialEq, Eq)]
pub enum LayoutKind {
    Flat,
    Semi,
    Dedicated,
}

impl TryFrom<u8> for LayoutKind {
    type Error = UnknownLetter;

    ghost try_from_gives = { λ letter kind. kind ≡ layout_kind_named letter };

    fn try_from(letter: u8) -> Result<LayoutKind, UnknownLetter> {
        match letter {
            b'F' => Ok(LayoutKind::Flat),
            b'S' => Ok(LayoutKind::Semi),
            b'D' => Ok(LayoutKind::Dedicated),
            _ => Err(UnknownLetter),
        }
    }
}

impl fmt::Display for LayoutKind {
    ghost output = { λ kind. Some (layout_kind_words kind) };

    fn fmt<W: fmt::Write>(&self, f: &mut fmt::Formatter<W>) -> fmt::Result {
        f.write_str(match self {
            LayoutKind::Flat => "flat",
            LayoutKind::Semi => "semi-partitioned",
            LayoutKind::Dedicated => "dedicated",
        })
    }
}
