// A pen over an area: bytes are put into it one behind the other.
ghost use Rattle.std.specs.Prelude.{◌≡◌, ◌+◌, ◌^◌, ◌<◌, length};

// It writes what fits and counts all that is put, so that a pen over no area measures, and no put has a requires.
#[derive(Drop)]
pub struct Pen<'a> {
    area: &'a mut [u8],
    // Stops at the greatest usize, which is more than any area has.
    len: usize,
    // True of every usize and every area; stated, since proofs of other crates do not see it from the fields' types.
    ghost counted: { len < 2 ^ 64 },
    ghost addressed: { length area.now < 2 ^ 63 },
}

impl<'a> Pen<'a> {
    ghost use Rattle.areas.specs.Pens.{Puts};

    #[inline]
    pub fn new(area: &'a mut [u8]) -> Pen<'a>
        ensures lent { result.area.ghost_name ≡ area.entry.ghost_name }
        ensures whole { result.area.now ≡ area.old }
        ensures none { result.len ≡ 0 }
    {
        Pen { area, len: 0 }
    }

    // How many bytes were put.
    #[inline]
    pub fn len(&self) -> usize
        ensures { result ≡ self.now.len }
    {
        self.len
    }

    // The bytes that no longer fit leave the area as it was.
    #[inline]
    pub fn put(&mut self, bytes: &[u8])
        ensures put { Puts self.old bytes.now self.new }
        ensures over { length self.old.area.now < self.old.len + length bytes.now
            → self.new.area.now ≡ self.old.area.now }
    {
        let Pen { area, len } = self;
        let end = len.saturating_add(bytes.len());
        if end <= area.len() {
            area[*len..end].copy_from_slice(bytes);
        }
        *len = end;
    }
}
