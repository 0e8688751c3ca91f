ghost use Rattle.std.specs.Prelude.{◌≡◌};
ghost use Rattle.layout_laws.specs.Meaning.{Meaning, Formed, Exclusive, Supplies};

// A layout answers which processor serves a bin in a tick, from tick 0 to 999,999,999. What is built on layouts rests on this meaning and
// these laws alone, so it holds of every implementation.
pub trait Layout {
    ghost meaning: { Self → Meaning };

    fn processors(&self) -> u8
        ensures { result ≡ (meaning self.now).processors };

    fn bins(&self) -> u8
        ensures { result ≡ (meaning self.now).bins };

    // The shortest period, in ticks.
    fn shortest(&self) -> u32
        ensures { result ≡ (meaning self.now).shortest };

    // The load of a bin in millionths, 0 where there is no such bin, and no None: the laws are of a load, and one that is not there is 0.
    fn load(&self, bin: u8) -> u32
        ensures { result ≡ (meaning self.now).load bin };

    // The processor that serves the bin in the tick, if any does.
    fn serve(&self, tick: u32, bin: u8) -> Option<u8>
        ensures { result ≡ (meaning self.now).serves tick bin };

    // 1 to 16 processors and at most 64 bins; nothing is served that is not there.
    ghost formed: { (x : Self) → Formed (meaning x) };

    // A processor serves one bin in a tick.
    ghost exclusive: { (x : Self) → Exclusive (meaning x) };

    // Every window that is long enough serves each bin for its load.
    ghost supply: { (x : Self) → Supplies (meaning x) };
}
