// Text put into a lent buffer by a pen, which keeps the place where the next byte goes. What does not fit is left out, all other bytes stay as they
// were, and the place is then past the buffer's end: so it says whether anything was left out.
#![tactic(auto)]

mod pen;
mod words;

pub use pen::{Pen, within};
pub use words::Text;
