// What is promised of the writer, of texts in Portable Bridge Notation and of slips: see specs/ and proofs/. The crate has no function.
#![tactic(auto)]
