ghost use Rattle.std.specs.Prelude.{◌≡◌, ℕ, ◌<◌, ◌≤◌, map, MatchResult, slice_index};
ghost use Rattle.arrayvec.specs.ArrayVec.{array_vec_len};
ghost use Rattle.plan.specs.Plans.{planned};
ghost use Rattle.layout_laws.specs.Semi.{semi_start};
ghost use Rattle.layout.specs.Makes.{Roomy};
ghost use Rattle.layout.specs.Parts.{load_of, reserve_of, start_of};
ghost use Rattle.layout.specs.Shared.{Shared, SharedNone};

use super::Shares;
use crate::refusal::NotMade;
use crate::share::Share;
use arrayvec::ArrayVec;
use plan::Plan;
use plan::table::ROWS;

// The shares of a plan's bins. The first `own` bins have the end of a processor's slot each, and the others follow one another in what is
// left.
fn laid(plan: &Plan, own: u8) -> ArrayVec<Share, ROWS>
    ensures loads { map load_of result.items ≡ (planned plan.now).loads }
    ensures reserves { map reserve_of result.items ≡ (planned plan.now).reserves }
    ensures starts { (p : ℕ) → p < array_vec_len result → slice_index (map start_of result.items) p ≡ semi_start (planned plan.now).slot own (planned plan.now).reserves p }
    ensures near { (p : ℕ) → slice_index (map start_of result.items) p ≤ 64000000 }
{
    // Pushed one by one: `extend` answers an error for a vector that is full, which cannot happen here.
    let mut shares = ArrayVec::new();
    let mut left = 0;
    let mut taken = 0;
    for (at, bin) in plan.packed().iter().enumerate() {
        if at < own as usize {
            left += plan.slot() - bin.reserve;
            shares.push(Share {
                bin: *bin,
                start: left,
            });
        } else {
            shares.push(Share {
                bin: *bin,
                start: taken,
            });
            taken += bin.reserve;
        }
    }
    shares
}

impl Shares {
    // Those of nobody.
    pub(crate) fn none() -> Shares
        ensures { SharedNone result }
    {
        Shares {
            processors: 1,
            shortest: 0,
            delta: 0,
            slot: 1,
            bins: ArrayVec::new(),
        }
    }

    // Those of a plan, unless it is refused or its reserves are more than the processors have. Each of the first `own` bins has a processor
    // of its own.
    pub(crate) fn of(plan: &Plan, own: u8) -> Result<Shares, NotMade>
        ensures { MatchResult result (λ s. Roomy (planned plan.now) × Shared (planned plan.now) own s) (λ e. ¬ Roomy (planned plan.now)) }
    {
        let there = plan.processors() as u64 * plan.slot() as u64;
        if plan.verdict().is_err() || plan.reserved() as u64 > there {
            return Err(NotMade);
        }
        Ok(Shares {
            processors: plan.processors(),
            shortest: plan.shortest(),
            delta: plan.delta(),
            slot: plan.slot(),
            bins: laid(plan, own),
        })
    }
}
