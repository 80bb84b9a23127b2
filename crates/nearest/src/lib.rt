// The extra bits of a programme read: 42 bits as the nearest of the 64 scale words sent three times, and the information word (docs/FORMAT.md, "Scale words").
#![tactic(auto)]

mod sent_table; // sent_table.rt: the 64 scale words sent three times

ghost use Rattle.std.specs.Prelude.{◌≡◌, ◌≤◌, ◌<◌, ◌^◌};
ghost use Rattle.bits.specs.Digits.{value, digits};
ghost use Rattle.nearest.specs.Reading.{away, read_scale, scale_answer, factors_told};
ghost use Rattle.nearest.specs.Extra.{extra_answer};
ghost use Rattle.nearest.specs.Search.{sent_table, bits_from, better_of, Holds, best_told, nearest_told};

use bits::Refusal;
use sent_table::SENT;

// The factors whose scale word, sent three times, is the nearest, and in how many of the 42 places it differs.
#[derive(Clone, Copy, PartialEq, Eq, Debug)]
pub struct Factors {
    pub left: u8,
    pub right: u8,
    pub places: u8,
}

// What the 64 extra bits of a programme read as. The word comes whatever the factors read as.
#[derive(Clone, Copy, PartialEq, Eq, Debug)]
pub struct Extra {
    // None is number 5
    pub factors: Option<Factors>,
    pub word: u32,
}

// Of the pairs that were looked at the fewest places in which one differs, and that one, where it is the only one.
#[derive(Clone, Copy)]
struct Best {
    places: u8,
    only: Option<u8>,
}

// The table by a function, since a constant promises nothing.
fn sent() -> [u64; 64]
    ensures { result ≡ sent_table }
{
    SENT
}

// The n entries from a place on as a number, the first bit the highest.
fn number_from(bits: &[u8], at: usize, n: usize) -> u64
    requires { (at ≤ 42) × (n ≤ 42) }
    ensures { result ≡ value 2 (bits_from bits.now at n) }
{
    let mut sum: u64 = 0;
    for j in 0..n {
        sum = sum * 2 + u64::from(bits::byte_of(bits, at + j) % 2);
    }
    sum
}

fn far(words: &[u64; 64], number: u64, pair: u8) -> u8
    requires { (words.now ≡ sent_table) × (number < 2 ^ 42) × (pair < 64) }
    ensures { result ≡ away (digits 2 42 number) pair }
{
    u64::count_ones(words[usize::from(pair)] ^ number) as u8
}

// One pair more.
#[tactic(auto, unfolding(crate::specs::Search::better_of))]
fn better(best: Best, pair: u8, places: u8) -> Best
    ensures { result ≡ better_of best pair places }
{
    if places < best.places {
        return Best {
            places,
            only: Some(pair),
        };
    }
    if places == best.places {
        return Best { only: None, ..best };
    }
    best
}

fn best_of(words: &[u64; 64], number: u64) -> Best
    requires { (words.now ≡ sent_table) × (number < 2 ^ 42) }
    ensures { Holds (digits 2 42 number) 64 result }
{
    let mut best = Best {
        places: far(words, number, 0),
        only: Some(0),
    };
    for k in 1..64u8 {
        best = better(best, k, far(words, number, k));
    }
    best
}

// The best of all 64 for the first 42 entries, each by its lowest binary digit. Words sent three times are 15 apart, so one that differs in at most seven places is the
// nearest; that of the six bits that came first mostly is.
fn nearest_in(bits: &[u8]) -> Best
    ensures { best_told result ≡ read_scale (bits_from bits.now 0 42) }
{
    let number = number_from(bits, 0, 42);
    let words = sent();
    let came = (number >> 36) as u8;
    let places = far(&words, number, came);
    if places <= 7 {
        return Best {
            places,
            only: Some(came),
        };
    }
    best_of(&words, number)
}

// Its factors, where it is the only one.
fn factors_of(best: Best) -> Option<Factors>
    ensures { nearest_told result ≡ best_told best }
{
    best.only.map(|pair| Factors {
        left: pair / 8,
        right: pair % 8,
        places: best.places,
    })
}

// Refused with number 2 where an entry is not 0 or 1, then with number 5 where two or more scale words are equally near and none is nearer.
pub fn read(bits: [u8; 42]) -> Result<Factors, Refusal>
    ensures { factors_told result ≡ scale_answer bits }
{
    if !bits::are_bits(&bits) {
        return Err(Refusal::Range);
    }
    factors_of(nearest_in(&bits)).ok_or(Refusal::Scale)
}

// Refused with number 2 where an entry is not 0 or 1.
pub fn read_extra(bits: [u8; 64]) -> Result<Extra, Refusal>
    ensures { result ≡ extra_answer bits }
{
    if !bits::are_bits(&bits) {
        return Err(Refusal::Range);
    }
    let factors = factors_of(nearest_in(&bits));
    let word = number_from(&bits, 42, 22) as u32;
    Ok(Extra { factors, word })
}
