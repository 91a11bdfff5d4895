// Bytes written one after the other into lent room. Every function is total: a byte for which there is no room is only counted, and the
// count stays at the largest usize. Lent no room, a writer tells how many bytes would be written.
#![tactic(auto)]

ghost use Rattle.std.specs.Prelude.{◌≡◌, ◌∷◌, ◌++◌, ◌+◌, length};
ghost use Rattle.page.specs.Page.{Added};
ghost use Rattle.page.specs.Digits.{decimal};

// Lent room, and how many bytes were to be written into it.
#[derive(Drop)]
pub struct Writer<'a> {
    pub out: &'a mut [u8],
    pub count: usize,
}

impl<'a> Writer<'a> {
    // Nothing written yet.
    pub fn new(out: &'a mut [u8]) -> Writer<'a>
        ensures start { (result.out.now ≡ out.old) × (result.count ≡ 0) }
        ensures same_room { result.out.ghost_name ≡ out.entry.ghost_name }
    {
        Writer { out, count: 0 }
    }

    pub fn put(&mut self, b: u8)
        ensures { Added self.old self.new 1 (λ rest. b ∷ rest) }
    {
        // Kept: over `get_mut` the proof doesn't close, since a slice's `get_mut` promises nothing of what the slice ends as.
        if self.count < self.out.len() {
            self.out[self.count] = b;
        }
        self.count = self.count.saturating_add(1);
    }

    // One byte after the other: those for which there is no room are only counted.
    fn one_by_one(&mut self, s: &[u8])
        ensures { Added self.old self.new (length s.now) (λ rest. s.now ++ rest) }
    {
        for &b in s {
            self.put(b);
        }
    }

    // Bytes as they stand, at once where there is room for all of them or for none.
    pub fn raw(&mut self, s: &[u8])
        ensures { Added self.old self.new (length s.now) (λ rest. s.now ++ rest) }
    {
        if self.count <= self.out.len() && s.len() <= self.out.len() - self.count {
            let end = self.count + s.len();
            self.out[self.count..end].copy_from_slice(s);
            self.count = end;
        } else if self.out.len() <= self.count {
            self.count = self.count.saturating_add(s.len());
        } else {
            self.one_by_one(s);
        }
    }

    // A count in decimal digits: no number of 64 bits has more than twenty.
    pub fn decimal(&mut self, x: usize)
        ensures { Added self.old self.new 20 (λ rest. decimal x ++ rest) }
    {
        if x >= 10 {
            self.decimal(x / 10);
        }
        self.put(b'0' + (x % 10) as u8);
    }

    // A number of 32 bits has no more than ten.
    pub fn number(&mut self, x: u32)
        ensures { Added self.old self.new 10 (λ rest. decimal x ++ rest) }
    {
        self.decimal(x as usize);
    }
}
