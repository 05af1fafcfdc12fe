// Bytes written one after another into a buffer that the caller lends. What does not fit is left out.
#![tactic(auto)]

ghost use Rattle.std.specs.Prelude.{◌≡◌, [], ◌∷◌, ◌<◌, take};
ghost use Rattle.io.specs.Digits.{last_digits, hex_digit_ascii};
ghost use Rattle.writing.specs.Text.{decimal_of, signed_of};
ghost use Rattle.writing.specs.Writers.{written};

// The buffer, and the place where what comes next is written.
#[derive(Drop)]
pub struct Writer<'a> {
    pub out: &'a mut [u8],
    pub at: usize,
}

impl<'a> Writer<'a> {
    // From the start of a buffer on.
    pub fn new(out: &'a mut [u8]) -> Writer<'a>
        ensures lent { result.out.ghost_name ≡ out.entry.ghost_name }
        ensures bytes { result.out.now ≡ out.old }
        ensures start { result.at ≡ 0 }
    {
        Writer { out, at: 0 }
    }

    // The buffer up to the place: what was written, from the start on.
    #[tactic(auto, using(std::proofs::lemmas::List::take_min))]
    pub fn bytes(&self) -> &[u8]
        ensures { result.now ≡ take self.now.at self.now.out.now }
    {
        &self.out[..self.at.min(self.out.len())]
    }

    // One byte.
    #[tactic(auto, using(crate::proofs::Writings::written_byte, crate::proofs::Writings::written_full))]
    pub fn byte(&mut self, b: u8)
        ensures { self.new ≡ written self.old (b ∷ []) }
    {
        if self.at < self.out.len() {
            self.out[self.at] = b;
            self.at += 1;
        }
    }

    // The bytes of s.
    #[tactic(auto, using(crate::proofs::Writings::written_none, crate::proofs::Writings::written_more))]
    pub fn text(&mut self, s: &[u8])
        ensures { self.new ≡ written self.old s.now }
    {
        for b in s {
            self.byte(*b);
        }
    }

    // n in decimal.
    #[tactic(auto, using(crate::proofs::Writings::decimal_steps))]
    pub fn decimal(&mut self, n: u64)
        ensures { self.new ≡ written self.old (decimal_of n) }
    {
        if 10 <= n {
            self.decimal(n / 10);
        }
        self.byte(b'0' + (n % 10) as u8);
    }

    // The last k hexadecimal digits of n.
    #[tactic(auto, using(crate::proofs::Writings::hex_steps))]
    pub fn hex(&mut self, n: u64, k: usize)
        ensures { self.new ≡ written self.old (last_digits 16 k n) }
    {
        if k != 0 {
            self.hex(n / 16, k - 1);
            self.byte(glyph(n % 16));
        }
    }

    // v in decimal, with a minus sign where it is below 0.
    #[tactic(auto, using(crate::proofs::Writings::written_then, crate::proofs::Signs::signs))]
    pub fn signed(&mut self, v: i64)
        ensures { self.new ≡ written self.old (signed_of v) }
    {
        if v < 0 {
            self.byte(b'-');
        }
        self.decimal(v.unsigned_abs());
    }
}

fn glyph(d: u64) -> u8
    requires { d < 16 }
    ensures { result ≡ hex_digit_ascii d }
{
    if d < 10 {
        b'0' + d as u8
    } else {
        b'a' + (d - 10) as u8
    }
}
