// What can be asked of a runner.
ghost use Rattle.std.specs.Prelude.{◌≡◌};
ghost use Rattle.runner.specs.Listing.{Shown};
ghost use Rattle.runner.specs.Views.{work_of, state_of};

use super::Runner;
use crate::outstanding::{Outstanding, list};
use crate::refusal::CallRefusal;
use layout::Layout;

impl<L: Layout> Runner<L> {
    // Writes the unfinished jobs into the slots, by deadline and then by task, and answers their number; the slots past them stay. Refused
    // where there are fewer slots than jobs; then nothing is altered.
    pub fn outstanding(&self, slots: &mut [Outstanding]) -> Result<usize, CallRefusal>
        ensures { Shown (state_of self.now) (work_of self.now).tasks slots.old slots.new result }
    {
        list(&self.jobs, self.tasks, slots)
    }

    // The ticks that are over.
    pub fn clock(&self) -> u32
        ensures { result ≡ (state_of self.now).clock }
    {
        self.clock
    }
}
