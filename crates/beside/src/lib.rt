// What a superframe carries beside its sound: the extra bits of the 16 programmes, and the service bits.
#![tactic(auto)]

ghost use Rattle.std.specs.Prelude.{◌≡◌, ◌<◌};
ghost use Rattle.beside.specs.Beside.{extra_bit, extra_bits, extra_of, number_of_factors, places_of_factors, factor_or, programmes_of, programmes_answer, service_bit, service_bits, six_of, sync_of, six_answer};

use bits::Refusal;
use nearest::{Extra, Factors};

// The extra bits of the 16 programmes as they read, in a list for each part: the state takes the factors whole, and the texts put each part as a row.
#[derive(Clone, Copy)]
pub struct Programmes {
    // document 01's number for each programme, which is handed out: 0; 5: two or more scale words are equally near
    pub numbers: [u8; 16],
    // of the 32 channels, for the superframe after the next; 8: missing
    pub factors: [u8; 32],
    // in how many of its 42 bits the nearest scale word, sent three times, differs; 0 where a number came
    pub places: [u8; 16],
    // information words of 22 bits, the first bit the highest
    pub words: [u32; 16],
}

// The 64 service bits of a superframe.
#[derive(Clone, Copy)]
pub struct SixAndSync {
    // 1 to 48
    pub six: [u8; 6],
    // 49 to 64
    pub sync: [u8; 16],
}

// The bit is looked up where it stands on tape, in a main frame of 320 bits.
fn extra_at(sf: &[u8], q: usize, f: usize) -> u8
    requires { (q < 16) × (f < 64) }
    ensures { result ≡ extra_bit sf.now q f }
{
    let p = q / 2;
    let b = p % 4;
    let frame = f + 64 * (p / 4);
    bits::bit_of(
        sf,
        320 * frame + (12 + 154 * (b / 2) + b % 2 + 2 * (75 + q % 2)),
    )
}

fn extra_bits(sf: &[u8], q: usize) -> [u8; 64]
    requires { q < 16 }
    ensures { result ≡ extra_bits sf.now q }
{
    std::array::from_fn(
        |f|
            requires { (q < 16) × (f < 64) }
            ensures { result ≡ extra_bit sf.entry.now q f }
        { extra_at(sf, q, f) },
    )
}

// Each extra bit is a bit, so that nothing is refused.
fn extra_of(sf: &[u8], q: usize) -> Extra
    requires { q < 16 }
    ensures { result ≡ extra_of sf.now q }
{
    nearest::read_extra(extra_bits(sf, q)).unwrap()
}

// 5 where the factors could not be read: document 01's number, as the lists of Programmes hold it.
fn number_of(factors: Option<Factors>) -> u8
    ensures { result ≡ number_of_factors factors }
{
    match factors {
        Some(_) => 0,
        None => 5,
    }
}

fn places_of(factors: Option<Factors>) -> u8
    ensures { result ≡ places_of_factors factors }
{
    match factors {
        Some(read) => read.places,
        None => 0,
    }
}

// Side 0 is the left one. 8, missing, where the factors could not be read.
#[tactic(auto, unfolding(crate::specs::Beside::factor_or))]
fn factor_or(factors: Option<Factors>, side: usize) -> u8
    ensures { result ≡ factor_or factors side }
{
    match factors {
        Some(read) => if side == 0 { read.left } else { read.right },
        None => 8,
    }
}

fn all_programmes(sf: &[u8]) -> Programmes
    ensures { result ≡ programmes_of sf.now }
{
    let extras: [Extra; 16] = std::array::from_fn(|q| extra_of(sf, q));
    Programmes {
        numbers: std::array::from_fn(|q| number_of(extras[q].factors)),
        factors: std::array::from_fn(|c| factor_or(extras[c / 2].factors, c % 2)),
        places: std::array::from_fn(|q| places_of(extras[q].factors)),
        words: std::array::from_fn(|q| extras[q].word),
    }
}

// What is no superframe is refused.
#[tactic(auto, unfolding(crate::specs::Beside::programmes_answer))]
pub fn programmes_of(sf: &[u8]) -> Result<Programmes, Refusal>
    ensures { result ≡ programmes_answer sf.now }
{
    if sf.len() == 5120 {
        Ok(all_programmes(sf))
    } else {
        Err(Refusal::Length)
    }
}

// Bit 12 of a main frame of A.
fn service_at(sf: &[u8], f: usize) -> u8
    requires { f < 64 }
    ensures { result ≡ service_bit sf.now f }
{
    bits::bit_of(sf, 320 * f + 11)
}

fn service_bits(sf: &[u8]) -> [u8; 64]
    ensures { result ≡ service_bits sf.now }
{
    std::array::from_fn(|f| service_at(sf, f))
}

fn six_of(bits: [u8; 64]) -> [u8; 6]
    ensures { result ≡ six_of bits }
{
    std::array::from_fn(|i| bits::byte_from(&bits, 8 * i))
}

fn sync_of(bits: [u8; 64]) -> [u8; 16]
    ensures { result ≡ sync_of bits }
{
    std::array::from_fn(|j| bits[48 + j])
}

// What is no superframe is refused.
pub fn six_and_sync(sf: &[u8]) -> Result<SixAndSync, Refusal>
    ensures { result ≡ six_answer sf.now }
{
    if sf.len() != 5120 {
        return Err(Refusal::Length);
    }
    let bits = service_bits(sf);
    Ok(SixAndSync {
        six: six_of(bits),
        sync: sync_of(bits),
    })
}
