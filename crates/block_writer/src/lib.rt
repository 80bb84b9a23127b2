// Writing a block: 77 bits, one number per bit, of four codes and two extra bits (docs/FORMAT.md, "The block").
#![tactic(auto)]

ghost use Rattle.std.specs.Prelude.{◌≡◌, ◌&&◌, ◌<◌, get_or};
ghost use Rattle.bits.specs.Table.{every};
ghost use Rattle.bits.specs.Bits.{are_bits};
ghost use Rattle.bits.specs.Digits.{value};
ghost use Rattle.remainder.specs.Remainder.{check_bits};
ghost use Rattle.code.specs.Generators.{block_generator};
ghost use Rattle.sample.specs.Sample.{is_code};
ghost use Rattle.sample.specs.Pattern.{code_bits};
ghost use Rattle.block.specs.Layout.{sound, block_with};
ghost use Rattle.block_writer.specs.Written.{written_block};

use bits::Refusal;

fn are_codes(codes: [i16; 4]) -> bool
    ensures { result ≡ every is_code codes }
{
    codes.iter().all(|&code| sample::is_code(code))
}

fn in_range(codes: [i16; 4], extra: [u8; 2]) -> bool
    ensures { result ≡ (every is_code codes && are_bits extra) }
{
    are_codes(codes) && bits::are_bits(&extra)
}

// Bit k of the 14 bits of a code, the highest first: one binary digit, which fits a byte.
fn code_bit(code: i16, k: usize) -> u8
    requires { k < 14 }
    ensures { result ≡ get_or (code_bits code) k 0 }
{
    ((sample::pattern::pattern_of(code) >> (13 - k)) % 2) as u8
}

// Bit j of the 44 protected sound bits.
fn sound_bit(codes: &[i16; 4], j: usize) -> u8
    requires { j < 44 }
    ensures { result ≡ get_or (sound codes.now) j 0 }
{
    code_bit(codes[j / 11], j % 11)
}

// All 44.
fn sound_of(codes: [i16; 4]) -> [u8; 44]
    ensures { result ≡ sound codes }
{
    std::array::from_fn(|j| sound_bit(&codes, j))
}

// Bit j of the whole block: 44 sound bits, 19 check bits, 12 sound bits, 2 extra bits. What stands there differs from part to part, so each part has its line.
fn bit_of(protected: &[u8; 44], check: u32, codes: &[i16; 4], extra: &[u8; 2], j: usize) -> u8
    requires at { j < 77 }
    requires sound_bits { protected.now ≡ sound codes.now }
    requires check_bits { check ≡ value 2 (check_bits block_generator protected.now) }
    ensures { result ≡ get_or (block_with codes.now extra.now) j 0 }
{
    if j < 44 {
        protected[j]
    } else if j < 63 {
        ((check >> (62 - j)) % 2) as u8
    } else if j < 75 {
        code_bit(codes[(j - 63) / 3], 11 + (j - 63) % 3)
    } else {
        extra[j - 75]
    }
}

fn bits_of(codes: [i16; 4], extra: [u8; 2]) -> [u8; 77]
    ensures { result ≡ block_with codes extra }
{
    let protected = sound_of(codes);
    let check = code::block_check(&protected);
    std::array::from_fn(|j| bit_of(&protected, check, &codes, &extra, j))
}

// A code outside -8192 to 8191, or an extra bit that is not 0 or 1, is refused.
pub fn write(codes: [i16; 4], extra: [u8; 2]) -> Result<[u8; 77], Refusal>
    ensures { result ≡ written_block codes extra }
{
    if !in_range(codes, extra) {
        return Err(Refusal::Range);
    }
    Ok(bits_of(codes, extra))
}
