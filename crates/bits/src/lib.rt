// Bits of bytes and bytes of bits (docs/FORMAT.md, "Path of a reel"). Every function takes any slice and any place, and says what it gives past the end.
#![tactic(auto)]

mod refusal; // refusal.rt: what a call is refused for

ghost use Rattle.std.specs.Prelude.{◌≡◌, ◌+◌, ◌%◌, ◌<◌, get_or};
ghost use Rattle.bits.specs.Bits.{bit_at, byte_at, all_below, are_bits};

pub use refusal::Refusal;

// Byte i, and 0 past the end.
pub fn byte_of(bytes: &[u8], i: usize) -> u8
    ensures { result ≡ get_or bytes.now i 0 }
{
    if i < bytes.len() { bytes[i] } else { 0 }
}

// A byte as a wider number.
pub fn wide(byte: u8) -> u32
    ensures { (result ≡ byte) × (result < 256) }
{
    u32::from(byte)
}

// Bit k, counted from 0; 0 past the end.
pub fn bit_of(bytes: &[u8], k: usize) -> u8
    ensures { result ≡ bit_at bytes.now k }
{
    (byte_of(bytes, k / 8) >> (7 - k % 8)) % 2
}

// The entry j places behind a place, as a bit. The two are apart because their sum may not fit.
fn bit_behind(bits: &[u8], at: usize, j: usize) -> u8
    ensures { result ≡ get_or bits.now (at + j) 0 % 2 }
{
    let n = bits.len();
    if at < n && j < n - at {
        bits[at + j] % 2
    } else {
        0
    }
}

// The byte that eight bits make, from a place of a list of bits on. The place is any, so a slice from there on would not do.
pub fn byte_from(bits: &[u8], at: usize) -> u8
    ensures { result ≡ byte_at bits.now at }
{
    let mut sum: u8 = 0;
    for j in 0..8 {
        sum = sum * 2 + bit_behind(bits, at, j);
    }
    sum
}

// Whether each number of a list is less than a bound.
pub fn all_below(list: &[u8], bound: u8) -> bool
    ensures { result ≡ all_below bound list.now }
{
    list.iter().all(|&x| x < bound)
}

// Whether each number of a list is 0 or 1.
pub fn are_bits(list: &[u8]) -> bool
    ensures { result ≡ are_bits list.now }
{
    all_below(list, 2)
}
