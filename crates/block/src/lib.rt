// Reading a block: 77 bits held as [u8; 77], one number per bit (docs/FORMAT.md, "The block").
#![tactic(auto)]

ghost use Rattle.std.specs.Prelude.{◌≡◌, ◌<◌, true};
ghost use Rattle.reading.specs.Reading.{is_radius};
ghost use Rattle.reading.specs.Wrong.{turn, answer, wrong_places, Within};
ghost use Rattle.block.specs.Read.{is_readable, outcome, IsRead};

use bits::Refusal;
use lookup::Lookup;
use reading::Places;

// What reading says of a block, in document 01's three words: clean, mended with 1, 2 or 3 places turned, or bad. Bad is a reading and no refusal: such a block
// is handed on as it was received.
#[derive(Clone, Copy, PartialEq, Eq, Debug)]
pub enum BlockReading {
    Clean,
    Mended(u8),
    Bad,
}

// The 77 bits as they then stand.
#[derive(Clone, Copy, PartialEq, Eq, Debug)]
pub struct BlockRead {
    pub reading: BlockReading,
    pub bits: [u8; 77],
}

#[tactic(auto, unfolding(reading::specs::Wrong::turn))]
fn turned(bits: [u8; 77], place: usize) -> [u8; 77]
    requires { place < 77 }
    ensures { result ≡ turn bits place }
{
    let mut out = bits;
    out[place] = (bits[place] % 2 + 1) % 2;
    out
}

// Whether a block can be read so: at a radius of 2 or 3, and each entry is 0 or 1.
#[tactic(auto, unfolding(crate::specs::Read::is_readable))]
fn readable(radius: u8, bits: &[u8; 77]) -> bool
    ensures { result ≡ is_readable radius bits.now }
{
    reading::is_radius(radius) && bits::are_bits(bits)
}

// The places that leave a remainder, at most as many as the radius.
fn wrong(radius: u8, remainder: u32) -> Places
    requires { is_radius radius ≡ true }
    ensures wrong { answer result ≡ wrong_places radius remainder }
    ensures within { Within result }
{
    Lookup::new().places(radius, remainder)
}

// The block with the wrong places turned.
#[tactic(auto, unfolding(crate::specs::Read::outcome, reading::specs::Wrong::Within))]
fn mended(bits: [u8; 77], places: Places) -> BlockRead
    requires { Within places }
    ensures { result ≡ outcome bits places }
{
    match places {
        Places::Zero => BlockRead {
            reading: BlockReading::Clean,
            bits,
        },
        Places::One(i) => BlockRead {
            reading: BlockReading::Mended(1),
            bits: turned(bits, i),
        },
        Places::Two(i, j) => BlockRead {
            reading: BlockReading::Mended(2),
            bits: turned(turned(bits, i), j),
        },
        Places::Three(i, j, k) => BlockRead {
            reading: BlockReading::Mended(3),
            bits: turned(turned(turned(bits, i), j), k),
        },
        Places::Nowhere => BlockRead {
            reading: BlockReading::Bad,
            bits,
        },
    }
}

// At radius 3 a block is mended where a code word lies at most three places away, else at most two (document 02, P9). The last 14 bits are never changed.
pub fn read(radius: u8, bits: [u8; 77]) -> Result<BlockRead, Refusal>
    ensures { IsRead radius bits result }
{
    if !readable(radius, &bits) {
        return Err(Refusal::Range);
    }
    let remainder = code::block_remainder(&bits[0..63]);
    let places = wrong(radius, remainder);
    Ok(mended(bits, places))
}
