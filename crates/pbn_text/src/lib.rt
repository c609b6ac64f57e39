// A text of Portable Bridge Notation, read line by line.
#![tactic(auto)]

mod game;
mod lines;
mod numbers;
mod state;
mod text;

pub use game::{Game, line_end, read_game};
pub use numbers::Numbers;
