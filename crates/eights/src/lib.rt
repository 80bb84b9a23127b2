// The remainder of bits by a generator of degree 19, eight bits at a time (document 02, P3), by a table of 256 numbers that is lent: a constant is stored anew
// wherever its name stands, so whoever divides much makes the table once. Of any table it is said what comes out; with the remainders of a generator in it,
// that is the remainder (proofs/Whole.antt).
#![tactic(auto)]

ghost use Rattle.std.specs.Prelude.{◌≡◌, ◌<◌};
ghost use Rattle.eights.specs.Eights.{step_by, word_by, row_by, check_by};

// A step of the division for eight bits. The register holds the remainder so far, 19 binary digits: its upper eight choose what is taken off.
// (There is no From of a u32 for a usize; and that what `as` narrows fits is proved, here and below.)
fn next(table: &[u32; 256], reg: u32, byte: u8) -> u32
    ensures { result ≡ step_by 11 table.now reg byte }
{
    let upper = (reg / 2048 % 256) as usize;
    (reg % 2048 * 256 + u32::from(byte)) ^ table[upper]
}

// The remainder of the 64 binary digits of a number. Its upper 16 are their own remainder.
pub fn of_word(table: &[u32; 256], word: u64) -> u32
    ensures { result ≡ word_by table.now word }
{
    let mut reg = (word >> 48) as u32;
    for i in 0..6u32 {
        reg = next(table, reg, ((word >> (40 - 8 * i)) % 256) as u8);
    }
    reg
}

// The remainder of a list of bits of any length. The first ones, as many as are over, are their own remainder.
pub fn of_bits(table: &[u32; 256], bits: &[u8]) -> u32
    ensures { result ≡ row_by table.now bits.now }
{
    let over = bits.len() % 8;
    let mut reg = u32::from(bits::byte_from(bits, 0)) >> (8 - over);
    for i in 0..bits.len() / 8 {
        reg = next(table, reg, bits::byte_from(bits, over + 8 * i));
    }
    reg
}

// The check bits of a list of bits: the remainder of its remainder with 19 zeros behind it.
pub fn check_of(table: &[u32; 256], bits: &[u8]) -> u32
    ensures { result ≡ check_by table.now bits.now }
{
    of_word(table, u64::from(of_bits(table, bits)) * 524288)
}
