// The position of the play with its penalty cards, and the revokes as they are listed.
#![tactic(auto)]

mod listed;
mod start;
mod table;

pub use crate::listed::Listed;
pub use crate::start::Start;
pub use crate::table::Table;
