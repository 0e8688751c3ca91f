// Making a flat layout.
ghost use Rattle.std.specs.Prelude.{◌≡◌};
ghost use Rattle.plan.specs.Plans.{planned};
ghost use Rattle.layout_laws.specs.Meaning.{empty};
ghost use Rattle.layout.specs.Makes.{Roomy, flat_of, Filled, Made};
ghost use Rattle.layout.specs.Views.{flat_view};

use super::Flat;
use crate::refusal::NotMade;
use crate::shares::Shares;
use plan::Plan;

impl Flat {
    // The layout of nobody: one processor and no bins.
    pub fn empty() -> Flat
        ensures { flat_view result ≡ empty }
    {
        Flat {
            shares: Shares::none(),
        }
    }

    fn of(plan: &Plan) -> Result<Flat, NotMade>
        ensures { Made Roomy flat_of (planned plan.now) flat_view result }
    {
        let shares = Shares::of(plan, 0)?;
        Ok(Flat { shares })
    }

    // Makes this place the flat layout of a plan, or where the plan has none, the empty layout.
    // No plainer as one function for the three layouts: each would hand it its empty layout and the one that it made.
    pub fn fill(&mut self, plan: &Plan) -> Result<(), NotMade>
        ensures { Filled Roomy flat_of (planned plan.now) result (flat_view self.new) }
    {
        match Flat::of(plan) {
            Ok(made) => {
                *self = made;
                Ok(())
            }
            Err(refusal) => {
                *self = Flat::empty();
                Err(refusal)
            }
        }
    }
}
