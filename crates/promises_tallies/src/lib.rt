// What is promised of tallies, matchpoints, IMPs, percentages and team matches: see specs/ and proofs/. The crate has no function.
#![tactic(auto)]
