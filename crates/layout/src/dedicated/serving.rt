ghost use Rattle.layout.specs.Views.{dedicated_view};
ghost use Rattle.std.proofs.Common.{arith};
ghost use Rattle.layout_laws.proofs.DedicatedLaws.{dedicated_formed, dedicated_exclusive, dedicated_supply};

use super::Dedicated;
use crate::TICKS;
use crate::layout::Layout;

impl Layout for Dedicated {
    ghost meaning = { λ x. dedicated_view x };

    ghost formed = { λ x. dedicated_formed x.processors x.shortest x.loads.items x.most.0 x.most.1 (omega (arith, x.most.1, x.room)) };

    ghost exclusive = { λ x. dedicated_exclusive x.processors x.shortest x.loads.items x.room };

    ghost supply = { λ x. dedicated_supply x.processors x.shortest x.loads.items x.light };

    fn processors(&self) -> u8 {
        self.processors
    }

    fn bins(&self) -> u8 {
        self.loads.len() as u8
    }

    fn shortest(&self) -> u32 {
        self.shortest
    }

    fn load(&self, bin: u8) -> u32 {
        self.loads.get(bin as usize).copied().unwrap_or(0)
    }

    fn serve(&self, tick: u32, bin: u8) -> Option<u8> {
        (tick < TICKS && bin < self.bins()).then_some(bin)
    }
}
