// What a plan file's header sets.

// Any byte serves for processors and delta: what is wrong with them is for the plan's verdict to say. The letter is the layout's:
// it stays a byte, since the writer takes every letter and refuses those that no layout has.
#[derive(Clone, Copy, Debug, PartialEq, Eq)]
pub struct Settings {
    pub processors: u8,
    pub delta: u8,
    pub letter: u8,
}
