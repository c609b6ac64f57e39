// The sheet with percentages of standard input on standard output. Its first 769 bytes decide it, and 3097 bytes are enough for every one.
#![tactic(auto)]

use std::io;
use std::io::Write;

// `filling::fill` says why each program of its kind has a `main`.
fn main(rt: HostRuntime) -> io::Result<()> {
    let mut input = [0u8; 769];
    let mut stdin = rt.stdin();
    let n = filling::fill(&mut stdin, &mut input)?;
    let mut text = [0u8; 3097];
    match sheet_text::write_cells(&input[..n], &mut text) {
        Some(length) => rt.stdout().write_all(&text[..length]),
        None => Ok(()),
    }
}
