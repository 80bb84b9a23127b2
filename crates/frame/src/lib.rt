// Main frames, their layout and how they are read (docs/FORMAT.md, "Main frame"): 320 bits in 40 bytes, two kinds, A and B.
#![tactic(auto)]

ghost use Rattle.std.specs.Prelude.{◌≡◌, ℕ, ◌+◌, ◌-◌, ◌*◌, ◌/◌, ◌%◌, ◌^◌, ◌<◌, ◌≤◌, length};
ghost use Rattle.bits.specs.Table.{tabulate};
ghost use Rattle.bits.specs.Bits.{bit_at};
ghost use Rattle.frame.specs.Frame.{sync_word, service_in};
ghost use Rattle.frame.specs.Read.{wrong_sync, service_read, block_of, gathered_of, read_frame};

use bits::Refusal;

#[derive(Clone, Copy)]
pub enum Letter {
    A,
    B,
}

// How many bits of the sync are wrong, the service bit and the four blocks.
#[derive(Clone, Copy)]
pub struct FrameRead {
    pub wrong: u8,
    pub service: u8,
    pub blocks: [[u8; 77]; 4],
}

const SYNC_A: [u8; 11] = [1, 1, 1, 0, 0, 0, 1, 0, 0, 1, 0];

const SYNC_B: [u8; 11] = [0, 0, 0, 1, 1, 1, 0, 1, 1, 0, 1];

// How many wrong bits a sync may have.
pub const MOST_WRONG: u8 = 2;

pub fn sync_of(letter: Letter) -> [u8; 11]
    ensures { result ≡ sync_word letter }
{
    match letter {
        Letter::A => SYNC_A,
        Letter::B => SYNC_B,
    }
}

// In how many of its eleven bits a sync differs from its letter's word.
pub fn sync_errors(letter: Letter, bytes: &[u8]) -> u8
    ensures { result ≡ wrong_sync letter bytes.now }
{
    let sync = sync_of(letter);
    let mut wrong: u8 = 0;
    for k in 0..11 {
        wrong += (sync[k] + bits::bit_of(bytes, k)) % 2;
    }
    wrong
}

// What a frame of a letter carries of a service bit: B carries none, it is written 0 and handed out as 0.
pub fn carried(letter: Letter, service: u8) -> u8
    ensures { result ≡ service_in letter service }
{
    match letter {
        Letter::A => service,
        Letter::B => 0,
    }
}

// Bit 12 of A; 0 for B.
fn service_of(letter: Letter, bytes: &[u8]) -> u8
    ensures { result ≡ service_read letter bytes.now }
{
    carried(letter, bits::bit_of(bytes, 11))
}

// The eight bits from bit `over` of byte `at` on. They are the rest by 256, which fits a byte.
fn eight_from(bytes: &[u8], at: usize, over: u16) -> u8
    requires { (at + 1 < length bytes.now) × (over < 8) }
    ensures { (q : ℕ) → q < 8 → result / 2 ^ (7 - q) % 2 ≡ bit_at bytes.now (8 * at + over + q) }
{
    let both = u16::from(bytes[at]) * 256 + u16::from(bytes[at + 1]);
    ((both >> (8 - over)) % 256) as u8
}

// Every second bit from a place on, 77 of them: eight bits of the frame, from any bit on, hold four.
fn every_second(bytes: &[u8], start: usize) -> [u8; 77]
    requires { (start < 168) × (40 ≤ length bytes.now) }
    ensures { result ≡ tabulate 77 (λ j. bit_at bytes.now (start + 2 * j)) }
{
    let mut out = [0u8; 77];
    let first = start / 8;
    let over = (start % 8) as u16;
    for g in 0..19 {
        let eight = eight_from(bytes, first + g, over);
        let j = 4 * g;
        out[j] = eight / 128 % 2;
        out[j + 1] = eight / 32 % 2;
        out[j + 2] = eight / 8 % 2;
        out[j + 3] = eight / 2 % 2;
    }
    out[76] = bits::bit_of(bytes, start + 152);
    out
}

// Block b, counted from 0, out of its pair.
fn gather(bytes: &[u8], b: usize) -> [u8; 77]
    requires { (b < 4) × (40 ≤ length bytes.now) }
    ensures { result ≡ block_of bytes.now b }
{
    every_second(bytes, 12 + 154 * (b / 2) + b % 2)
}

// A block out of a whole main frame: another length is refused, then a block that a frame does not have.
#[tactic(auto, unfolding(crate::specs::Read::gathered_of))]
pub fn block_of(bytes: &[u8], b: usize) -> Result<[u8; 77], Refusal>
    ensures { result ≡ gathered_of bytes.now b }
{
    let n = bytes.len();
    if n != 40 {
        return Err(Refusal::Length);
    }
    if 4 <= b {
        return Err(Refusal::Range);
    }
    Ok(gather(bytes, b))
}

// A main frame is handed on as it came: wrong bits of its sync are not put right. Another length is refused, then a sync with too many wrong bits.
pub fn read(letter: Letter, bytes: &[u8]) -> Result<FrameRead, Refusal>
    ensures { result ≡ read_frame letter bytes.now }
{
    if bytes.len() != 40 {
        return Err(Refusal::Length);
    }
    let wrong = sync_errors(letter, bytes);
    if MOST_WRONG < wrong {
        return Err(Refusal::Sync);
    }
    Ok(FrameRead {
        wrong,
        service: service_of(letter, bytes),
        blocks: [
            gather(bytes, 0),
            gather(bytes, 1),
            gather(bytes, 2),
            gather(bytes, 3),
        ],
    })
}
