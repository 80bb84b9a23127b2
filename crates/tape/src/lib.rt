// The syncs and the blocks of a superframe, from its bytes alone (docs/FORMAT.md, "Superframe").
#![tactic(auto)]

mod blocks;
mod frames;

pub use blocks::{Blocks, Counted, counts, gathered, read_at};
pub use frames::syncs;
