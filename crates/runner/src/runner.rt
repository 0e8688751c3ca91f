// The runner.
ghost use Rattle.std.specs.Prelude.{◌≡◌, ℕ, ◌<◌, ◌≤◌, length, slice_index, slice_index_or};
ghost use Rattle.plan.specs.Plans.{planned};
ghost use Rattle.runner.specs.Jobs.{none};

use crate::job::Job;
use crate::jobs::Jobs;
use plan::Plan;

mod calls;
mod questions;

// A plan that runs on a layout. A runner is used up by stopping it, and not otherwise.
pub struct Runner<L> {
    plan: Plan,
    layout: L,
    // 0 where the layout does not fit, and no Option: such a runner takes every call too.
    tasks: u8,
    clock: u32,
    jobs: Jobs,
    ghost few: { tasks ≤ 64 },
    ghost timely: { clock ≤ 1000000000 },
    ghost listed: { tasks ≤ length (planned plan).tasks },
    ghost placed: { (i : ℕ) → i < tasks → (slice_index_or jobs.slots i none).bin ≡ slice_index (planned plan).bins i },
    ghost rest: { (i : ℕ) → tasks ≤ i → (slice_index_or jobs.slots i none).left ≡ 0 },
}
