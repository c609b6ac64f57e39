// A table record's score explained: the items of Law 77 that make it.
#![tactic(auto)]

mod played;
mod slip;

pub use slip::{Items, explain};
