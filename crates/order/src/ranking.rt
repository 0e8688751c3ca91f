// What a kind of record has to offer: an order, and a mark to be picked by.
ghost use Rattle.std.specs.Prelude.{◌≡◌, ℕ, Bool, Option};
ghost use Rattle.std.specs.Cmp.{IsStrictWeakOrder};

// A kind of record with a total order. Records of which neither comes before the other are equals.
// Not std's `Ord`: its laws want `==` of equals, and here they may be different records, as jobs that go by deadline alone.
pub trait Ranked {
    ghost less: { Self → Self → Bool };

    // Whether this record comes before the other.
    fn before(&self, other: &Self) -> bool
        ensures { result ≡ less self.now other.now };

    // No two records come before each other, and "not before" carries over from one record to the next.
    ghost ranks: { IsStrictWeakOrder less };
}

// A kind of record that may bear a mark.
pub trait Marked {
    ghost marking: { Self → Option ℕ };

    // The record's mark, or none.
    fn mark(&self) -> Option<u8>
        ensures { result ≡ marking self.now };
}
