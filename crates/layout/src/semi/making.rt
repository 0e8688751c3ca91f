// Making a semi-partitioned layout.
ghost use Rattle.std.specs.Prelude.{◌≡◌};
ghost use Rattle.plan.specs.Plans.{planned};
ghost use Rattle.layout_laws.specs.Meaning.{empty};
ghost use Rattle.layout.specs.Makes.{Roomy, semi_of, Filled, Made};
ghost use Rattle.layout.specs.Views.{semi_view};

use super::Semi;
use crate::refusal::NotMade;
use crate::shares::Shares;
use plan::Plan;

impl Semi {
    // The layout of nobody: one processor and no bins.
    pub fn empty() -> Semi
        ensures { semi_view result ≡ empty }
    {
        let shares = Shares::none();
        Semi {
            frees: shares.frees(),
            shares,
        }
    }

    fn of(plan: &Plan) -> Result<Semi, NotMade>
        ensures { Made Roomy semi_of (planned plan.now) semi_view result }
    {
        let shares = Shares::of(plan, plan.processors())?;
        Ok(Semi {
            frees: shares.frees(),
            shares,
        })
    }

    // Makes this place the semi-partitioned layout of a plan, or where the plan has none, the empty layout. See `Flat::fill`.
    pub fn fill(&mut self, plan: &Plan) -> Result<(), NotMade>
        ensures { Filled Roomy semi_of (planned plan.now) result (semi_view self.new) }
    {
        match Semi::of(plan) {
            Ok(made) => {
                *self = made;
                Ok(())
            }
            Err(refusal) => {
                *self = Semi::empty();
                Err(refusal)
            }
        }
    }
}
