// The words and the lines of Portable Bridge Notation: the words of calls and cards, the lines of words, and the lines of tags with a board or a seat.
#![tactic(auto)]

mod board;
mod rows;
mod tags;
mod words;

pub use board::board_in;
pub use rows::{Row, row_in};
pub use tags::{seat_in, seat_letter};
pub use words::rank_letter;
