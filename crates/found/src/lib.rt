// What is found of the cards played beside what the cards themselves tell, and the plays against Law 50 as bytes.
#![tactic(auto)]

mod found;
mod told;

pub use crate::found::Found;
