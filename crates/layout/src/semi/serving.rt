ghost use Rattle.std.specs.Prelude.{◌≡◌};
ghost use Rattle.std.proofs.Common.{sym, ◌∙◌, arith};
ghost use Rattle.layout_laws.specs.Semi.{free, highest};
ghost use Rattle.layout.specs.Views.{semi_view};
ghost use Rattle.layout_laws.proofs.SemiLaws.{semi_formed, semi_exclusive, semi_supply};
ghost use Rattle.layout.specs.Lawful.{count_weights, count_reserved, carry};
ghost use Rattle.layout.specs.Shared.{weights, reserved};

use super::Semi;
use crate::layout::Layout;

impl Semi {
    // The processor that has this position of what is left.
    fn holder(&self, position: u32) -> u8
        ensures { result ≡ highest (free self.now.shares.slot (reserved self.now.shares)) position self.now.shares.processors }
    {
        let frees = &self.frees[..self.shares.processors as usize];
        frees
            .partition_point(|free| *free <= position)
            .saturating_sub(1) as u8
    }
}

impl Layout for Semi {
    ghost meaning = { λ x. semi_view x };

    ghost formed = { λ x.
        let s = x.shares in
        semi_formed s.slot s.processors s.shortest (reserved s) (weights s) s.most.0 s.most.1 (count_reserved s ∙ sym (count_weights s)) (omega (arith, count_weights s, s.few)) };

    ghost exclusive = { λ x. let s = x.shares in semi_exclusive s.slot s.processors s.shortest (reserved s) (weights s) s.fit };

    ghost supply = { λ x. let s = x.shares in semi_supply s.slot s.processors s.delta s.shortest (reserved s) (weights s) s.fit (carry s) };

    // See `Flat` for these four.
    fn processors(&self) -> u8 {
        self.shares.processors
    }

    fn bins(&self) -> u8 {
        self.shares.count()
    }

    fn shortest(&self) -> u32 {
        self.shares.shortest
    }

    fn load(&self, bin: u8) -> u32 {
        self.shares.load(bin)
    }

    fn serve(&self, tick: u32, bin: u8) -> Option<u8> {
        let own = bin < self.shares.processors;
        self.shares
            .position(tick, bin)
            .map(|at| if own { bin } else { self.holder(at) })
    }
}
