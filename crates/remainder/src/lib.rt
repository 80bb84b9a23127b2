// The remainder of bits by a generator, in a register that is a number: one type for every generator of a degree up to 31.
#![tactic(auto)]

ghost use Rattle.std.specs.Prelude.{◌≡◌, ◌≤◌, ◌<◌, ◌^◌};
ghost use Rattle.bits.specs.Digits.{digits};
ghost use Rattle.remainder.specs.Remainder.{step, remainder_number, check_number};

// A generator, by its coefficients below the leading one, as the digits of a number, and by its degree. An entry of bits that is neither 0 nor 1 counts as its
// lowest binary digit.
#[derive(Clone, Copy)]
pub struct Generator {
    pub coefficients: u32,
    pub degree: u32,
}

impl Generator {
    // A step of the division. The register holds the remainder so far, its coefficients as binary digits; bit comes behind them.
    fn next(self, reg: u32, bit: u8) -> u32
        requires { (self.degree ≤ 31) × (reg < 2 ^ self.degree) }
        ensures { (result < 2 ^ self.degree)
            × (digits 2 self.degree result ≡ step (digits 2 self.degree self.coefficients) (digits 2 self.degree reg) bit) }
    {
        let w = reg * 2 + u32::from(bit % 2);
        (w ^ (w >> self.degree) * self.coefficients) % (1u32 << self.degree)
    }

    // 0 above degree 31, as `remainder_number` says, and likewise below.
    pub fn remainder_of(self, bits: &[u8]) -> u32
        ensures { result ≡ remainder_number self.degree self.coefficients bits.now }
    {
        if self.degree > 31 {
            return 0;
        }
        let mut reg: u32 = 0;
        for &bit in bits {
            reg = self.next(reg, bit);
        }
        reg
    }

    // The check bits of a word: the remainder of the word times x to the degree.
    pub fn check_of(self, bits: &[u8]) -> u32
        ensures { result ≡ check_number self.degree self.coefficients bits.now }
    {
        if self.degree > 31 {
            return 0;
        }
        let mut reg = self.remainder_of(bits);
        for i in 0..self.degree {
            reg = self.next(reg, 0);
        }
        reg
    }
}
