// Which of the 63 protected bits of a block are wrong, at most two or at most three of them, and what each alone leaves as a remainder.
#![tactic(auto)]

ghost use Rattle.std.specs.Prelude.{◌≡◌};
ghost use Rattle.reading.specs.Reading.{is_radius};
ghost use Rattle.reading.specs.Wrong.{column_numbers};

// The ordinary radius: at most so many places are mended.
pub const ORDINARY: u8 = 2;

// What each place alone leaves, the first place first.
const COLUMNS: [u32; 63] = [
    279464, 139732, 69866, 34933, 264082, 132041, 344652, 172326, 86163, 322529, 407128, 203564,
    101782, 50891, 270541, 414670, 207335, 382811, 436229, 464810, 232405, 362050, 181025, 336440,
    168220, 84110, 42055, 266635, 412525, 484894, 242447, 367151, 429759, 460023, 508371, 500545,
    496136, 248068, 124034, 62017, 277128, 138564, 69282, 34641, 262144, 131072, 65536, 32768,
    16384, 8192, 4096, 2048, 1024, 512, 256, 128, 64, 32, 16, 8, 4, 2, 1,
];

// Places are counted from 0, the lowest first. The outcomes of one search, which are told apart by one match: an Option around four of them would take two.
#[derive(Clone, Copy)]
pub enum Places {
    // The word is a code word.
    Zero,
    One(usize),
    Two(usize, usize),
    Three(usize, usize, usize),
    // No set of so few places leaves that remainder.
    Nowhere,
}

// Whether a block may be read at a radius: at 2, or at 3 (document 02, P9).
#[tactic(auto, unfolding(crate::specs::Reading::is_radius))]
pub fn is_radius(radius: u8) -> bool
    ensures { result ≡ is_radius radius }
{
    radius == 2 || radius == 3
}

// What each place alone leaves. A function, as a constant has no contract.
pub fn columns() -> [u32; 63]
    ensures { result ≡ column_numbers }
{
    COLUMNS
}
