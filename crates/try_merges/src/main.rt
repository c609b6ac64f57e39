// Merges two tallies of 64 distinct scores, a thousand times for each byte of standard input, and writes how many merges were accepted:
// what docs/PERFORMANCE.md measures. Each merge takes a count from the one before it, so that none can be left out.
#![tactic(auto)]

use deal::SUITS;
use std::{array, io};
use tally::Tally;

// A tally of board 1 and of one deal: 64 scores, each 20 below the one before it, one result each.
fn filled(top: i16) -> Tally {
    Tally {
        board: 1,
        deal: SUITS,
        scores: array::from_fn(|i| {
            if i < 64 {
                top.saturating_sub(20 * i as i16)
            } else {
                0
            }
        }),
        counts: array::from_fn(|i| u8::from(i < 64)),
    }
}

// How many of n merges are accepted.
fn merges(a: Tally, b: Tally, n: usize) -> usize {
    let mut other = b;
    let mut sum: usize = 0;
    for _ in 0..n {
        if let Ok(t) = merging::merge(a, other) {
            other.counts[63] = t.counts[127];
            sum += 1;
        }
    }
    sum
}

fn main(rt: HostRuntime) -> io::Result<()> {
    let mut input = [0u8; 4096];
    let mut stdin = rt.stdin();
    let n = filling::fill(&mut stdin, &mut input)?;
    if n <= 4096 {
        let sum = merges(filled(1290), filled(1280), n * 1000);
        return println!(rt; "{sum}");
    }
    Ok(())
}
