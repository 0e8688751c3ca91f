// Whether a layout fits a plan.
ghost use Rattle.std.specs.Prelude.{◌≡◌, ℕ, ◌<◌, length, MatchBool, MatchResult, slice_index};
ghost use Rattle.plan.specs.Plans.{planned};
ghost use Rattle.layout.specs.Makes.{Fits};

use crate::layout::Layout;
use crate::refusal::NotFit;
use plan::Plan;

// Whether the loads agree, bin by bin.
fn loads_agree<L: Layout>(plan: &Plan, layout: &L) -> bool
    ensures { MatchBool result ((q : ℕ) → q < length (planned plan.now).loads → slice_index (planned plan.now).loads q ≡ (L.Layout.meaning layout.now).load q) (¬ ((q : ℕ) → slice_index (planned plan.now).loads q ≡ (L.Layout.meaning layout.now).load q)) }
{
    (0..plan.bins()).all(|bin| plan.load(bin) == Some(layout.load(bin)))
}

// A layout fits a good plan with its processors, bins, shortest period and loads, however it was made.
pub fn fits<L: Layout>(plan: &Plan, layout: &L) -> Result<(), NotFit>
    ensures { MatchResult result (λ u. Fits (planned plan.now) (L.Layout.meaning layout.now)) (λ e. ¬ Fits (planned plan.now) (L.Layout.meaning layout.now)) }
{
    if plan.verdict().is_ok()
        && plan.processors() == layout.processors()
        && plan.bins() == layout.bins()
        && plan.shortest() == layout.shortest()
        && loads_agree(plan, layout)
    {
        Ok(())
    } else {
        Err(NotFit)
    }
}
