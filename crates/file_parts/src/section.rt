// The sections of a plan file.
ghost use Rattle.std.specs.Prelude.{◌≡◌, ◌+◌, ◌-◌, ◌^◌, min};
ghost use Rattle.file_parts.specs.Sections.{letter_of, body_of, letter_place, kind_of};

use crate::section_kind::SectionKind;

// By its kind: the bytes of its body, lent from the file, and the place of its letter.
#[derive(Clone, Copy)]
pub enum Section<'a> {
    Table { body: &'a [u8], at: usize },
    Calls { body: &'a [u8], at: usize },
    Note { body: &'a [u8], at: usize },
}

// A section's letter and length stand before its body.
pub const HEAD: usize = 3;

impl<'a> Section<'a> {
    pub fn kind(&self) -> SectionKind
        ensures { result ≡ kind_of self.now }
    {
        match self {
            Section::Table { body: _, at: _ } => SectionKind::Table,
            Section::Calls { body: _, at: _ } => SectionKind::Calls,
            Section::Note { body: _, at: _ } => SectionKind::Note,
        }
    }

    pub fn letter(&self) -> u8
        ensures { result ≡ letter_of self.now }
    {
        self.kind().letter()
    }

    pub fn body(&self) -> &'a [u8]
        ensures { result.now ≡ body_of self.now }
    {
        match self {
            Section::Table { body, at: _ }
            | Section::Calls { body, at: _ }
            | Section::Note { body, at: _ } => body,
        }
    }

    // Where its letter stands in the file.
    pub fn place(&self) -> usize
        ensures { result ≡ letter_place self.now }
    {
        match self {
            Section::Table { body: _, at }
            | Section::Calls { body: _, at }
            | Section::Note { body: _, at } => *at,
        }
    }

    // Where its body begins; no file is so long that this cannot be told.
    pub fn body_place(&self) -> usize
        ensures { result ≡ min (letter_place self.now + 3) (2 ^ 64 - 1) }
    {
        self.place().saturating_add(HEAD)
    }
}
