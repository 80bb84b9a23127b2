// For programs in other languages: a superframe taken at a radius over lent bytes alone. What is carried from one to the next, but for the service and the
// running totals, and the counts stand in 88 bytes: the factors of the 32 channels for the next superframe and those for the one after it, and for each of the
// eight block positions how many blocks were clean, mended and bad, which a caller may add up.
#![tactic(auto)]

ghost use Rattle.std.specs.Prelude.{◌≡◌, ◌+◌, ◌≤◌, ◌<◌, length, get_or};
ghost use Rattle.bits.specs.Table.{tabulate};
ghost use Rattle.outside.specs.Outside.{state_from, packed_at, TookOutside};

use bits::Refusal;
use superframe::State;
use tape::Blocks;

// 32 of the bytes.
fn channels(beside: &[u8], from: usize) -> [u8; 32]
    requires { from + 32 ≤ length beside.now }
    ensures { result ≡ tabulate 32 (λ k. get_or beside.now (from + k) 0) }
{
    std::array::from_fn(|k| beside[from + k])
}

// With the service searching, and nothing counted: so no history is full.
#[tactic(auto, unfolding(crate::specs::Outside::state_from))]
fn state_from(beside: &[u8]) -> State
    requires { length beside.now ≡ 88 }
    ensures { result ≡ state_from beside.now }
{
    State {
        next: channels(beside, 0),
        after: channels(beside, 32),
        ..State::fresh()
    }
}

// Byte k of the 88, by the five cases that the definition has.
#[tactic(auto, unfolding(crate::specs::Outside::packed_at))]
fn packed_at(state: &State, blocks: &Blocks, k: usize) -> u8
    requires { k < 88 }
    ensures { result ≡ packed_at state.now.next state.now.after blocks.now k }
{
    if k < 32 {
        return state.next[k];
    }
    if k < 64 {
        return state.after[k - 32];
    }
    if k < 72 {
        return blocks.clean[k - 64];
    }
    if k < 80 {
        return blocks.mended[k - 72];
    }
    blocks.bad[k - 80]
}

// The 88 bytes behind a superframe.
fn packed(state: &State, blocks: &Blocks) -> [u8; 88]
    ensures { result ≡ tabulate 88 (packed_at state.now.next state.now.after blocks.now) }
{
    std::array::from_fn(|k| packed_at(state, blocks, k))
}

// Of a superframe that is lost.
const NO_BLOCKS: Blocks = Blocks {
    clean: [0; 8],
    mended: [0; 8],
    bad: [0; 8],
};

// Number 0 or 3, and the 88 bytes follow; or 1 or 2, and they stay. It is a number because C reads it.
pub fn outside_take(
    radius: u8,
    beside: &mut [u8],
    bytes: &[u8],
    samples: &mut [i16],
    marks: &mut [u8],
) -> u8
    ensures { TookOutside radius beside.old bytes.now samples.old marks.old result beside.new samples.new marks.new }
{
    if beside.len() != 88 {
        return 1;
    }
    match state_from(beside).take(radius, bytes, samples, marks) {
        Ok(taken) => {
            beside.copy_from_slice(&packed(&taken.next, &taken.blocks));
            0
        }
        Err(refused) => match refused.why {
            Refusal::Sync => {
                beside.copy_from_slice(&packed(&refused.next, &NO_BLOCKS));
                3
            }
            why => why.number(),
        },
    }
}
