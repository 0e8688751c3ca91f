// Writing a line.
ghost use Rattle.std.specs.Prelude.{◌≡◌, ◌-◌, ◌^◌, length, min};
ghost use Rattle.line_text.specs.Areas.{WrittenOrNot};
ghost use Rattle.line_text.specs.Decimals.{DigitsLaw};
ghost use Rattle.line_text.specs.Texts.{text, Short};

use crate::line::Line;
use crate::telling::put_line;
use areas::Pen;

// No line of at most 16 processors has more bytes: `tick ` 5, the clock 10, 16 entries of 4, the end 1.
pub const LONGEST_LINE: usize = 80;

// The area is too short for the line.
#[derive(Clone, Copy, PartialEq, Eq, Debug)]
pub struct ShortArea;

impl ShortArea {
    // The refusal's number, by which files, firmware and reports know it.
    pub fn number(self) -> u8
        ensures { result ≡ 19 }
    {
        19
    }
}

// How long a line is: it is put where nothing fits, and the bytes are counted. A function of its own: a public one that measured any telling
// would have to require that it may be called.
fn measured(line: Line) -> usize
    ensures is { result ≡ min (length (text line.entry)) (2 ^ 64 - 1) }
    ensures short { Short 80 line.entry }
{
    let mut pen = Pen::new(&mut []);
    put_line(&mut pen, line);
    pen.len()
}

// Writes the line to the begin of the area and answers its length. Where the area is too short, nothing is written.
pub fn write(line: Line, area: &mut [u8]) -> Result<usize, ShortArea>
    ensures written { WrittenOrNot (text line.entry) area.old area.new result }
    ensures short { Short LONGEST_LINE line.entry }
    ensures numbers { DigitsLaw }
{
    let len = measured(line);
    if len > area.len() {
        return Err(ShortArea);
    }
    let mut pen = Pen::new(area);
    put_line(&mut pen, line);
    Ok(len)
}
