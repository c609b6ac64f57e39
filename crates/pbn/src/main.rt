// The record of a game in Portable Bridge Notation: on standard input the table's number on a line, then the text; on standard output the record's bytes, or
// the refusal. The first 65,537 bytes of input decide it, and 505 bytes are enough.
#![tactic(auto)]

use std::io;
use std::io::Write;

// `filling::fill` says why each program of its kind has a `main`.
fn main(rt: HostRuntime) -> io::Result<()> {
    let mut input = [0u8; 65537];
    let mut stdin = rt.stdin();
    let n = filling::fill(&mut stdin, &mut input)?;
    let mut record = [0u8; 505];
    match pbn_output::write(&input[..n], &mut record) {
        Some(length) => rt.stdout().write_all(&record[..length]),
        None => Ok(()),
    }
}
