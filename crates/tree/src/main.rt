// Runs a script of tally calls from standard input on a stack of at most 16 tallies, and writes what each call answers; at the end, the top tally.
// A line is `fresh B`, `add S`, `merge`, `matchpoints S`, `cell S` or `award N`.
#![tactic(auto)]

use std::io;
use std::io::{Read, Write};
use tree_run::Run;

// A run after one read, and whether there may be more to read. `team` has its like on a run of its own: `tree_run` says why there are two.
#[derive(Clone, Copy)]
struct Turn {
    run: Run,
    more: bool,
}

// Reads once, and takes the bytes that came.
fn read_some<R: Read, W: Write>(input: &mut R, out: &mut W, run: Run) -> io::Result<Turn> {
    let mut buffer = [0u8; 4096];
    let n = input.read(&mut buffer)?;
    if n == 0 {
        return Ok(Turn { run, more: false });
    }
    let next = tree_print::feed(out, run, &buffer[..n])?;
    Ok(Turn {
        run: next,
        more: !next.over,
    })
}

// The turns are counted, up to a number that no run reaches: nothing says that the input ends.
fn main(rt: HostRuntime) -> io::Result<()> {
    let mut input = rt.stdin();
    let mut out = rt.stdout();
    let mut run = tree_run::start();
    for _ in 0..u64::MAX {
        let turn = read_some(&mut input, &mut out, run)?;
        run = turn.run;
        if !turn.more {
            break;
        }
    }
    tree_print::finish(&mut out, run)?;
    Ok(())
}
