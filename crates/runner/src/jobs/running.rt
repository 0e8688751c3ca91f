// The tick of a job table: each served bin runs its next job.
ghost use Rattle.std.specs.Prelude.{◌≡◌, ℕ, ◌+◌, ◌<◌, length, slice_index_or, slice_set};
ghost use Rattle.schedule.specs.Work.{Work};
ghost use Rattle.schedule.specs.Steps.{Row, Advanced};
ghost use Rattle.runner.specs.Jobs.{state, Holds, SameBins};

use super::Jobs;
use crate::IDLE;
use crate::job::Job;
use layout::Layout;

// A row that names nobody.
fn blank(row: &mut [u8])
    ensures { (q : ℕ) → slice_index_or row.new q 255 ≡ 255 }
{
    row.fill(IDLE);
}

// Names a task for a processor.
fn name(row: &mut [u8], processor: u8, task: u8)
    requires { processor < length row.old }
    ensures { row.new ≡ slice_set row.old processor task }
{
    row[processor as usize] = task;
}

// The processor that serves a bin in the tick at the clock, if any does.
fn server<L: Layout>(layout: &L, clock: u32, bin: u8) -> Option<u8>
    ensures { result ≡ (L.Layout.meaning layout.now).serves clock bin }
{
    layout.serve(clock, bin)
}

// Fills the row of the tick at the clock, and takes a tick off each job that runs in it.
pub(crate) fn run_bins<L: Layout>(layout: &L, clock: u32, jobs: &mut Jobs, row: &mut [u8])
    requires { length row.old ≡ (L.Layout.meaning layout.now).processors }
    ensures bins { SameBins jobs.old.slots jobs.new.slots }
    ensures row { (w : Work) → Holds w jobs.old.slots → Row w (L.Layout.meaning layout.now) (state clock jobs.old.slots) row.new }
    ensures jobs { (w : Work) → Holds w jobs.old.slots → Advanced w (L.Layout.meaning layout.now) (state clock jobs.old.slots) (state (clock + 1) jobs.new.slots) }
{
    blank(row);
    // By the bins' numbers: a layout is asked by them, and has no bins to go over.
    for bin in 0..layout.bins() {
        if let Some(processor) = server(layout, clock, bin) {
            if let Some(task) = jobs.next_of(bin) {
                jobs.work(task);
                name(row, processor, task);
            }
        }
    }
}
