// The kinds of sections, by their letters.
ghost use Rattle.std.specs.Prelude.{◌≡◌, Some, codes};
ghost use Rattle.file_parts.specs.Kinds.{section_kind_letter, section_kind_words, section_kind_named};

use std::error::Error;
use std::fmt;

#[derive(Clone, Copy, Debug, PartialEq, Eq)]
pub enum SectionKind {
    Table = b'T' as isize,
    Calls = b'C' as isize,
    Note = b'N' as isize,
}

// A byte that is no letter of what was looked for.
#[derive(Clone, Copy, Debug, PartialEq, Eq)]
pub struct UnknownLetter;

impl SectionKind {
    pub fn letter(self) -> u8
        ensures { result ≡ section_kind_letter self }
    {
        self as u8
    }
}

impl TryFrom<u8> for SectionKind {
    type Error = UnknownLetter;

    ghost try_from_gives = { λ letter kind. kind ≡ section_kind_named letter };

    fn try_from(letter: u8) -> Result<SectionKind, UnknownLetter> {
        match letter {
            b'T' => Ok(SectionKind::Table),
            b'C' => Ok(SectionKind::Calls),
            b'N' => Ok(SectionKind::Note),
            _ => Err(UnknownLetter),
        }
    }
}

impl fmt::Display for SectionKind {
    ghost output = { λ kind. Some (section_kind_words kind) };

    fn fmt<W: fmt::Write>(&self, f: &mut fmt::Formatter<W>) -> fmt::Result {
        f.write_str(match self {
            SectionKind::Table => "table",
            SectionKind::Calls => "calls",
            SectionKind::Note => "note",
        })
    }
}

impl fmt::Display for UnknownLetter {
    ghost output = { λ _. Some (codes "no layout, section or call has this letter") };

    fn fmt<W: fmt::Write>(&self, f: &mut fmt::Formatter<W>) -> fmt::Result {
        f.write_str("no layout, section or call has this letter")
    }
}

impl Error for UnknownLetter {}
