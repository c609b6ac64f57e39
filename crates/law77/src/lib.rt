// Law 77: what a contract scores, in all and item by item. A record's judgement and its explanation alone stand on it: no program and no call from C scores a
// contract by itself.
#![tactic(auto)]

mod law77;

pub use law77::{
    Stake, declarer_score, doubling_points, game_points, ns_score, overtricks, part_score_points,
    slam_points, trick_points, undertricks,
};
