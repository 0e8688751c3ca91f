// Making a dedicated layout.
ghost use Rattle.std.specs.Prelude.{◌≡◌};
ghost use Rattle.plan.specs.Plans.{planned};
ghost use Rattle.layout_laws.specs.Meaning.{empty};
ghost use Rattle.layout.specs.Makes.{Spacious, dedicated_of, Filled, Made};
ghost use Rattle.layout.specs.Views.{dedicated_view};

use super::Dedicated;
use crate::refusal::NotMade;
use arrayvec::ArrayVec;
use plan::Plan;

impl Dedicated {
    // The layout of nobody: one processor and no bins.
    pub fn empty() -> Dedicated
        ensures { dedicated_view result ≡ empty }
    {
        Dedicated {
            processors: 1,
            shortest: 0,
            loads: ArrayVec::new(),
        }
    }

    fn of(plan: &Plan) -> Result<Dedicated, NotMade>
        ensures { Made Spacious dedicated_of (planned plan.now) dedicated_view result }
    {
        if plan.verdict().is_err() || plan.bins() > plan.processors() {
            return Err(NotMade);
        }
        // Pushed one by one: `extend` answers an error for a vector that is full, which cannot happen here.
        let mut loads = ArrayVec::new();
        for bin in plan.packed() {
            loads.push(bin.load);
        }
        Ok(Dedicated {
            processors: plan.processors(),
            shortest: plan.shortest(),
            loads,
        })
    }

    // Makes this place the dedicated layout of a plan, or where the plan has none, the empty layout. See `Flat::fill`.
    pub fn fill(&mut self, plan: &Plan) -> Result<(), NotMade>
        ensures { Filled Spacious dedicated_of (planned plan.now) result (dedicated_view self.new) }
    {
        match Dedicated::of(plan) {
            Ok(made) => {
                *self = made;
                Ok(())
            }
            Err(refusal) => {
                *self = Dedicated::empty();
                Err(refusal)
            }
        }
    }
}
