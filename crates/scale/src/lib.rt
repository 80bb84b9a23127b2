// Scale words written: the factors of a programme's two channels (docs/FORMAT.md, "Scale words").
#![tactic(auto)]

ghost use Rattle.std.specs.Prelude.{◌≡◌, ◌/◌, ◌%◌, ◌<◌};
ghost use Rattle.bits.specs.Digits.{value, digits};
ghost use Rattle.scale.specs.Word.{scale_word, written_scale};

use bits::Refusal;

// The scale word of two factors as a number, by their six bits, which are left * 8 + right.
fn word_of(pair: u8) -> u32
    requires { pair < 64 }
    ensures { result ≡ value 2 (scale_word (pair / 8) (pair % 8)) }
{
    let six = [
        pair / 32 % 2,
        pair / 16 % 2,
        pair / 8 % 2,
        pair / 4 % 2,
        pair / 2 % 2,
        pair % 2,
    ];
    u32::from(pair) * 256 + code::scale_check(&six)
}

fn bits_of(word: u32) -> [u8; 14]
    ensures { result ≡ digits 2 14 word }
{
    std::array::from_fn(|i| ((word >> (13 - i)) % 2) as u8)
}

// Refused with number 2 for a factor over 7.
#[tactic(auto, unfolding(crate::specs::Word::written_scale))]
pub fn write(left: u8, right: u8) -> Result<[u8; 14], Refusal>
    ensures { result ≡ written_scale left right }
{
    if 7 < left || 7 < right {
        return Err(Refusal::Range);
    }
    Ok(bits_of(word_of(left * 8 + right)))
}
