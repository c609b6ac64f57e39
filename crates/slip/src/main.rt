// The slip of the table record on standard input, on standard output. Its first 506 bytes decide it, and 72 bytes are enough for every slip.
#![tactic(auto)]

use std::io;
use std::io::Write;

// `filling::fill` says why each program of its kind has a `main`.
fn main(rt: HostRuntime) -> io::Result<()> {
    let mut input = [0u8; 506];
    let mut stdin = rt.stdin();
    let n = filling::fill(&mut stdin, &mut input)?;
    let mut text = [0u8; 72];
    match slip_text::write(&input[..n], &mut text) {
        Some(length) => rt.stdout().write_all(&text[..length]),
        None => Ok(()),
    }
}
