// The sheets of a text of scores, with matchpoints and with percentages. `whole` has the table and the sheets; `columns` what a table gives for each side.
#![tactic(auto)]

mod columns;
mod whole;

pub use whole::{write, write_cells};
