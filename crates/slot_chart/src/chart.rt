// One slot of a layout, drawn.
use layout::Layout;
use std::fmt;

#[derive(Drop)]
pub struct Chart<'a, L> {
    pub layout: &'a L,
    pub slot: u32,
}

impl<L: Layout> Chart<'_, L> {
    // The bin that a processor serves in a tick, if any.
    fn bin_on(&self, processor: u8, tick: u32) -> Option<u8> {
        (0..self.layout.bins()).find(|bin| self.layout.serve(tick, *bin) == Some(processor))
    }

    // A processor's line, with the ticks in use behind it.
    fn line<W: fmt::Write>(&self, processor: u8, f: &mut fmt::Formatter<W>) -> fmt::Result {
        // Counted while they are drawn: a tick asks the layout once.
        let mut used = 0u32;
        write!(f, "{processor:>3} |")?;
        for tick in 0..self.slot {
            match self.bin_on(processor, tick) {
                Some(bin) => {
                    used = used.saturating_add(1);
                    write!(f, "{bin}")?;
                }
                None => f.write_str(".")?,
            }
        }
        let slot = self.slot;
        writeln!(f, "| {used} of {slot} in use")
    }
}

impl<L: Layout> fmt::Display for Chart<'_, L> {
    fn fmt<W: fmt::Write>(&self, f: &mut fmt::Formatter<W>) -> fmt::Result {
        for processor in 0..self.layout.processors() {
            self.line(processor, f)?;
        }
        Ok(())
    }
}
