// Samples and their codes at a factor, and the factor of 64 samples (docs/FORMAT.md, "Samples" and "Scale words").
#![tactic(auto)]

pub mod pattern; // pattern.rt: a code as the number that its 14 bits make, and back

ghost use Rattle.std.specs.Prelude.{◌≡◌, ℕ, ◌-◌, ◌^◌, ltb};
ghost use Rattle.std.specs.Int.Signed.{mag};
ghost use Rattle.sample.specs.Sample.{is_code, code_answer, sample_answer, coded, sampled};
ghost use Rattle.sample.specs.Factor.{all_fit, largest, factor_answer, chosen};

use bits::Refusal;

// How far a number reaches from 0: n for n and for -(n + 1). It lies from -h to h - 1 exactly where this is less than h.
pub fn reach(z: i16) -> u16
    ensures { result ≡ mag z }
{
    if z < 0 { (-1 - z) as u16 } else { z as u16 }
}

// Whether a number is a 14-bit code.
pub fn is_code(code: i16) -> bool
    ensures { result ≡ is_code code }
{
    reach(code) < 8192
}

// Refused with number 2 where the factor is over 7 or the sample does not fit it.
// A sample that fits times 2^factor still has 16 bits, and a division by 4 is left at every factor.
#[tactic(auto, unfolding(crate::specs::Sample::code_answer))]
pub fn code_of(sample: i16, factor: u8) -> Result<i16, Refusal>
    ensures { coded result ≡ code_answer sample factor }
{
    if 7 < factor {
        return Err(Refusal::Range);
    }
    if 32768u16 >> factor <= reach(sample) {
        return Err(Refusal::Range);
    }
    let grown = sample * (1i16 << factor);
    Ok(grown >> 2)
}

// Refused with number 2 where the factor is over 7 or the code has more than 14 bits.
// Four times a code has 16 bits. The shift copies the sign, and so rounds down.
#[tactic(auto, unfolding(crate::specs::Sample::sample_answer))]
pub fn sample_of(code: i16, factor: u8) -> Result<i16, Refusal>
    ensures { sampled result ≡ sample_answer code factor }
{
    if 7 < factor {
        return Err(Refusal::Range);
    }
    if 8192 <= reach(code) {
        return Err(Refusal::Range);
    }
    let four = code * 4;
    Ok(four >> factor)
}

// The farthest reach of any sample, which alone decides what factors they fit.
fn farthest(samples: &[i16]) -> u16
    ensures { (s : ℕ) → all_fit s samples.now ≡ ltb result (2 ^ (15 - s)) }
{
    let mut most: u16 = 0;
    for &sample in samples {
        most = most.max(reach(sample));
    }
    most
}

// The largest factor that this reach fits.
fn factor_for(most: u16) -> u8
    ensures { result ≡ largest 7 (λ s. ltb most (2 ^ (15 - s))) }
{
    for s in (1..8u8).rev() {
        if most < 32768u16 >> s {
            return s;
        }
    }
    0
}

// Refused with number 1 for another number of samples than 64.
#[tactic(auto, unfolding(crate::specs::Factor::factor_answer))]
pub fn factor_of(samples: &[i16]) -> Result<u8, Refusal>
    ensures { chosen result ≡ factor_answer samples.now }
{
    if samples.len() != 64 {
        return Err(Refusal::Length);
    }
    Ok(factor_for(farthest(samples)))
}
