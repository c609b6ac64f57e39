// What best play would give from the table record on standard input, on standard output. Its first 505 bytes decide it, and 8 bytes are enough.
#![tactic(auto)]

use std::io;
use std::io::Write;

// `filling::fill` says why each program of its kind has a `main`.
fn main(rt: HostRuntime) -> io::Result<()> {
    let mut input = [0u8; 505];
    let mut stdin = rt.stdin();
    let n = filling::fill(&mut stdin, &mut input)?;
    let mut text = [0u8; 8];
    match best_text::write(&input[..n], &mut text) {
        Some(length) => rt.stdout().write_all(&text[..length]),
        None => Ok(()),
    }
}
