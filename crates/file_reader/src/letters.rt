// What the letters of a plan file stand for.
ghost use Rattle.std.specs.Prelude.{◌≡◌};
ghost use Rattle.file_parts.specs.Kinds.{section_kind_letter};
ghost use Rattle.file_parts.specs.Sections.{kind_of, body_of, letter_place};
ghost use Rattle.file_reader.specs.Faults.{its_turn};
ghost use Rattle.file_reader.specs.Grammar.{layout_letter};

use crate::layout_kind::LayoutKind;
use file_parts::{Due, Section, SectionKind};

// Whether it is a layout's letter: flat, semi-partitioned or dedicated. Any byte is taken: the writer asks it of any letter.
pub fn names_layout(letter: u8) -> bool
    ensures { result ≡ layout_letter letter }
{
    LayoutKind::try_from(letter).is_ok()
}

// Whether a section of this kind may stand here.
pub(crate) fn has_turn(due: Due, kind: SectionKind) -> bool
    ensures { result ≡ its_turn due (section_kind_letter kind) }
{
    match due {
        Due::Table => kind == SectionKind::Table,
        Due::Calls => kind != SectionKind::Table,
        Due::Notes => kind == SectionKind::Note,
    }
}

// The section by its kind.
pub(crate) fn section_of<'a>(kind: SectionKind, body: &'a [u8], at: usize) -> Section<'a>
    ensures kind { kind_of result ≡ kind }
    ensures body { body_of result ≡ body.now }
    ensures place { letter_place result ≡ at }
{
    match kind {
        SectionKind::Table => Section::Table { body, at },
        SectionKind::Calls => Section::Calls { body, at },
        SectionKind::Note => Section::Note { body, at },
    }
}
