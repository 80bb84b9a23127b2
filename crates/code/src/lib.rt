// The two codes of document 01 (docs/FORMAT.md): their generators as numbers, and the check bits and remainders that they give. An entry of bits that is
// neither 0 nor 1 counts as its lowest binary digit.
#![tactic(auto)]

mod byte_table; // byte_table.rt: what each byte leaves by the block's generator

ghost use Rattle.std.specs.Prelude.{◌≡◌};
ghost use Rattle.bits.specs.Digits.{value};
ghost use Rattle.remainder.specs.Remainder.{remainder, check_bits};
ghost use Rattle.eights.specs.Eights.{remainders_of};
ghost use Rattle.code.specs.Generators.{block_generator, scale_generator};

use byte_table::REMAINDERS;
use remainder::Generator;

const SCALE: Generator = Generator {
    coefficients: 0b1101_0001,
    degree: 8,
};

// The table by which a block's bits are divided (crate `eights`). A function, as a constant has no contract.
pub fn remainders() -> [u32; 256]
    ensures { result ≡ remainders_of block_generator }
{
    REMAINDERS
}

// The check bits of a block's sound bits, the first of them the highest digit.
pub fn block_check(bits: &[u8]) -> u32
    ensures { result ≡ value 2 (check_bits block_generator bits.now) }
{
    eights::check_of(&remainders(), bits)
}

// What the 63 protected bits of a block leave: 0 for a code word.
pub fn block_remainder(bits: &[u8]) -> u32
    ensures { result ≡ value 2 (remainder block_generator bits.now) }
{
    eights::of_bits(&remainders(), bits)
}

// The check bits of a scale word's six bits, the first of them the highest digit.
pub fn scale_check(bits: &[u8]) -> u32
    ensures { result ≡ value 2 (check_bits scale_generator bits.now) }
{
    SCALE.check_of(bits)
}
