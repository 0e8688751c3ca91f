ghost use Rattle.layout.specs.Views.{flat_view};
ghost use Rattle.std.proofs.Common.{sym, ◌∙◌, arith};
ghost use Rattle.layout_laws.proofs.FlatLaws.{flat_formed, flat_exclusive, flat_supply};
ghost use Rattle.layout.specs.Lawful.{count_weights, count_reserved, carry};
ghost use Rattle.layout.specs.Shared.{weights, reserved};

use super::Flat;
use crate::layout::Layout;

impl Layout for Flat {
    ghost meaning = { λ x. flat_view x };

    ghost formed = { λ x.
        let s = x.shares in
        flat_formed s.slot s.processors s.shortest (reserved s) (weights s) s.most.0 s.most.1 (count_reserved s ∙ sym (count_weights s)) (omega (arith, count_weights s, s.few)) };

    ghost exclusive = { λ x. let s = x.shares in flat_exclusive s.slot s.processors s.shortest (reserved s) (weights s) s.fit };

    ghost supply = { λ x. let s = x.shares in flat_supply s.slot s.processors s.delta s.shortest (reserved s) (weights s) s.fit (carry s) };

    // No plainer: these four are also those of `Semi`, and a type for both would take a parameter with the laws of how it serves.
    fn processors(&self) -> u8 {
        self.shares.processors
    }

    fn bins(&self) -> u8 {
        self.shares.count()
    }

    fn shortest(&self) -> u32 {
        self.shares.shortest
    }

    fn load(&self, bin: u8) -> u32 {
        self.shares.load(bin)
    }

    fn serve(&self, tick: u32, bin: u8) -> Option<u8> {
        self.shares
            .position(tick, bin)
            .map(|position| (position / self.shares.slot) as u8)
    }
}
