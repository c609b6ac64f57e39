// The order in which cards were played that are listed in columns.
#![tactic(auto)]

mod order;

pub use order::order_of_play;
