// A table record judged: read in order, and scored by Law 77.
#![tactic(auto)]

mod claim;
mod settle;
mod whole;

pub use whole::{Judged, judge};
