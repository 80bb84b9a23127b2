// A block's mark and codes, with its 63 protected bits as one number: the remainder eight bits at a time, the wrong places looked up, and the places turned in
// the number (document 02, P3). Of a reader of any tables it is said what comes out; with the true ones it is the block as it is read (proofs/Words.antt).
#![tactic(auto)]

ghost use Rattle.std.specs.Prelude.{◌≡◌, ◌<◌};
ghost use Rattle.bits.specs.Table.{tabulate};
ghost use Rattle.reading.specs.Wrong.{answer};
ghost use Rattle.words.specs.Words.{word_of, turned_at, righted, lower_in, code_in, told_in, true_reader};

use lookup::Lookup;
use reading::Places;

// The tables by which blocks are read. A constant is stored anew wherever its name stands, so whoever reads many blocks makes a reader once and lends it. The
// tables may be any, as `told_by` says what any give, so no invariant says that they are the true ones.
#[derive(Drop)]
pub struct Reader {
    // what each byte leaves by the block's generator
    pub remainders: [u32; 256],
    pub lookup: Lookup,
}

// What is told of a block: its mark, 0 clean, 1 mended with one or two places turned, 4 with three, 2 bad, and the codes of its four channels. The mark is a
// number of document 01, which goes as a byte into lists of marks.
#[derive(Clone, Copy)]
pub struct Told {
    pub mark: u8,
    pub codes: [i16; 4],
}

// A word with the places that were found turned, and its mark.
#[derive(Clone, Copy)]
struct Righted {
    mark: u8,
    word: u64,
}

// The 63 protected bits as one number, the first the highest digit: seven, and then eight at a time.
fn word_of(bits: [u8; 77]) -> u64
    ensures { result ≡ word_of bits }
{
    let mut word = u64::from(bits::byte_from(&bits, 0) / 2);
    for i in 0..7 {
        word = word * 256 + u64::from(bits::byte_from(&bits, 7 + 8 * i));
    }
    word
}

// The digit of a place turned. There are 63 places.
#[tactic(auto, unfolding(crate::specs::Words::turned_at))]
fn turned(word: u64, place: usize) -> u64
    ensures { result ≡ turned_at word place }
{
    if place < 63 {
        word ^ (1u64 << (62 - place))
    } else {
        word
    }
}

#[tactic(auto, unfolding(crate::specs::Words::righted, crate::specs::Words::mended_by, crate::specs::Words::mark_by, crate::specs::Words::turned_all, reading::specs::Wrong::answer))]
fn mended(word: u64, places: Places) -> Righted
    ensures { result ≡ righted word (answer places) }
{
    match places {
        Places::Zero => Righted { mark: 0, word },
        Places::One(i) => Righted {
            mark: 1,
            word: turned(word, i),
        },
        Places::Two(i, j) => Righted {
            mark: 1,
            word: turned(turned(word, i), j),
        },
        Places::Three(i, j, k) => Righted {
            mark: 4,
            word: turned(turned(turned(word, i), j), k),
        },
        Places::Nowhere => Righted { mark: 2, word },
    }
}

// The three unprotected bits of a channel as a number. The channel is an index of the four that `codes_in` makes, here and below.
fn lower_in(bits: [u8; 77], channel: usize) -> u16
    requires { channel < 4 }
    ensures { (result ≡ lower_in bits channel) × (result < 8) }
{
    let at = 63 + 3 * channel;
    u16::from(bits[at] % 2 * 4 + bits[at + 1] % 2 * 2 + bits[at + 2] % 2)
}

fn code_in(word: u64, bits: [u8; 77], channel: usize) -> i16
    requires { channel < 4 }
    ensures { result ≡ code_in word bits channel }
{
    let upper = ((word >> (52 - 11 * channel)) % 2048) as u16;
    sample::pattern::signed_of(upper * 8 + lower_in(bits, channel))
}

fn codes_in(word: u64, bits: [u8; 77]) -> [i16; 4]
    ensures { result ≡ tabulate 4 (code_in word bits) }
{
    std::array::from_fn(|channel| code_in(word, bits, channel))
}

impl Reader {
    // With the true tables.
    pub fn new() -> Reader
        ensures { result ≡ true_reader }
    {
        Reader {
            remainders: code::remainders(),
            lookup: Lookup::new(),
        }
    }

    // An entry that is neither 0 nor 1 counts as its lowest binary digit. Three places are turned where the radius is 3 or more (document 02, P9).
    pub fn read(&self, radius: u8, bits: [u8; 77]) -> Told
        ensures { result ≡ told_in self.now radius bits }
    {
        let word = word_of(bits);
        let remainder = eights::of_word(&self.remainders, word);
        let right = mended(word, self.lookup.places(radius, remainder));
        Told {
            mark: right.mark,
            codes: codes_in(right.word, bits),
        }
    }
}
