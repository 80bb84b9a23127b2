// The reader's state and what it does with a superframe (docs/FORMAT.md, "Superframe").
#![tactic(auto)]

mod state;
mod taking;

pub use state::State;
pub use taking::{NotTaken, Taken};
