// The line of the Deal tag in Portable Bridge Notation, read as the holders of the 52 cards.
#![tactic(auto)]

mod deal_line;
mod held;
mod walk;

pub use deal_line::{Deal, deal_in};
