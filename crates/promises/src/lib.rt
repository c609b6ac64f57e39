// What is promised of records, judged, and of best play: see specs/ and proofs/. The crate has no function.
#![tactic(auto)]
