// Text written into a lent slice of bytes, one behind the other.
#![tactic(auto)]

ghost use Rattle.std.specs.Prelude.{◌≡◌, [], ◌∷◌, length, take, ◌+◌, ◌<◌, ◌≤◌};
ghost use Rattle.text.specs.Bytes.{Wrote, text, text_of};
ghost use Rattle.text.specs.Decimal.{decimal, integer};

// A lent slice, and the place that the next byte goes to.
#[derive(Drop)]
pub struct Writer<'a> {
    out: &'a mut [u8],
    pub at: usize,
}

impl<'a> Writer<'a> {
    // A writer at the start of a slice.
    pub fn new(out: &'a mut [u8]) -> Writer<'a>
        ensures same { result.out.ghost_name ≡ out.entry.ghost_name }
        ensures text { text_of result ≡ text out.old 0 }
    {
        Writer { out, at: 0 }
    }

    // The bytes before the place.
    pub fn written(&self) -> &[u8]
        ensures { result.now ≡ take self.now.at self.now.out.now }
    {
        &self.out[..self.at.min(self.out.len())]
    }

    // One byte. Past the end nothing is written, and the place stays at the end.
    pub fn put(&mut self, b: u8)
        ensures { Wrote self.old (b ∷ []) self.new }
    {
        if self.at < self.out.len() {
            self.out[self.at] = b;
            self.at += 1;
        } else {
            self.at = self.out.len();
        }
    }

    // The bytes of `s`.
    pub fn put_bytes(&mut self, s: &[u8])
        ensures { Wrote self.old s.now self.new }
    {
        for b in s {
            self.put(*b);
        }
    }

    // A number in decimal.
    pub fn put_decimal(&mut self, n: u32)
        ensures { Wrote self.old (decimal n) self.new }
    {
        if n >= 10 {
            self.put_decimal(n / 10);
        }
        self.put(digit(n % 10));
    }

    // A signed number in decimal.
    pub fn put_integer(&mut self, z: i32)
        ensures { Wrote self.old (integer z) self.new }
    {
        if z < 0 {
            self.put(b'-');
        }
        self.put_decimal(z.unsigned_abs());
    }
}

// The ASCII digit of a number below 10.
fn digit(d: u32) -> u8
    requires { d < 10 }
    ensures { result ≡ 48 + d }
{
    b'0' + d as u8
}

// How many bytes a number takes in decimal.
pub fn decimal_length(n: u32) -> usize
    ensures { (result ≡ length (decimal n)) × (result ≤ 10) }
{
    if n < 10 {
        return 1;
    }
    decimal_length(n / 10) + 1
}
