// What a block carries: the 14-bit codes of four channels and two extra bits (docs/FORMAT.md, "The block").
#![tactic(auto)]

ghost use Rattle.std.specs.Prelude.{◌≡◌, true, ◌<◌};
ghost use Rattle.bits.specs.Digits.{value};
ghost use Rattle.bits.specs.Bits.{are_bits};
ghost use Rattle.block.specs.Layout.{fourteen, code_place};
ghost use Rattle.block_codes.specs.Codes.{code_at, codes_at, codes_of};

use bits::Refusal;

// The codes of the four channels and the extra bits of the two programmes.
#[derive(Clone, Copy, PartialEq, Eq, Debug)]
pub struct BlockCodes {
    pub codes: [i16; 4],
    pub extra: [u8; 2],
}

// Where bit k of a channel's 14 stands in a block: 52 is 63 - 11, as the lower bits, from k 11 on, stand behind the first 63.
fn place_of(channel: usize, k: usize) -> usize
    requires { (channel < 4) × (k < 14) }
    ensures { (result ≡ code_place channel k) × (result < 77) }
{
    if k < 11 {
        11 * channel + k
    } else {
        52 + 3 * channel + k
    }
}

// The number that the 14 bits of a channel make. The channel is an index of the four that `all_codes` makes, here and below.
fn pattern_at(bits: [u8; 77], channel: usize) -> u16
    requires { (channel < 4) × (are_bits bits ≡ true) }
    ensures { result ≡ value 2 (fourteen bits channel) }
{
    let mut pattern: u16 = 0;
    for k in 0..14 {
        let at = place_of(channel, k);
        pattern = pattern * 2 + u16::from(bits[at]);
    }
    pattern
}

#[tactic(auto, unfolding(crate::specs::Codes::code_at, sample::specs::Pattern::bits_code))]
fn code_at(bits: [u8; 77], channel: usize) -> i16
    requires { (channel < 4) × (are_bits bits ≡ true) }
    ensures { result ≡ code_at bits channel }
{
    sample::pattern::signed_of(pattern_at(bits, channel))
}

fn all_codes(bits: [u8; 77]) -> [i16; 4]
    requires { are_bits bits ≡ true }
    ensures { result ≡ codes_at bits }
{
    std::array::from_fn(|channel| code_at(bits, channel))
}

#[tactic(auto, unfolding(crate::specs::Codes::codes_of))]
pub fn codes_of(bits: [u8; 77]) -> Result<BlockCodes, Refusal>
    ensures { result ≡ codes_of bits }
{
    if !bits::are_bits(&bits) {
        return Err(Refusal::Range);
    }
    Ok(BlockCodes {
        codes: all_codes(bits),
        extra: [bits[75], bits[76]],
    })
}
