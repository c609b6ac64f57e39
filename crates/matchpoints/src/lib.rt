// The matchpoints of a result in a tally.
#![tactic(auto)]

mod points;

pub use points::{BothSides, matchpoints};
