// A table record read up to its last card: its sections in order, each as the Laws' section of that name. `contents` takes the same sections from lists of
// numbers: its loops are like these, and the clauses of either speak of a reading of the Laws of its own.
#![tactic(auto)]

mod cards;
mod codes;
mod plays;
mod reached;
mod reading;
mod runs;

pub use reached::{Reached, read_to_last_card};
pub use reading::Read;
