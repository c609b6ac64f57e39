// Runs many scripts, each under a line that names it: short ones that stand here, and longer ones from files.
#![tactic(auto)]

use std::io::Write;
use std::{fs, io};
// A script by its bytes.
fn script<W: Write>(out: &mut W, name: &[u8], bytes: &[u8]) -> io::Result<()> {
    out.write_all(name)?;
    out.write_all(b":\n")?;
    let run = tree_print::feed(out, tree_run::start(), bytes)?;
    tree_print::finish(out, run)?;
    Ok(())
}

// A script in a file of that name.
fn file<W: Write>(rt: &HostRuntime, out: &mut W, name: &str) -> io::Result<()> {
    let mut bytes = [0u8; 4096];
    let mut file = fs::open(rt, name)?;
    let n = filling::fill(&mut file, &mut bytes)?;
    script(out, name.as_bytes(), &bytes[..n])
}

// Lines that are read.
fn read<W: Write>(out: &mut W) -> io::Result<()> {
    script(out, b"no calls", b"")?;
    script(out, b"empty stack at the end", b"fresh 0\n")?;
    script(out, b"empty tally at the end", b"fresh 9\n")?;
    script(out, b"no last newline", b"fresh 3\nadd 10\nmatchpoints 10")?;
    script(
        out,
        b"leading zeros",
        b"fresh 00003\nadd 00010\nadd -0\nadd -00010\nmatchpoints -00010\n",
    )?;
    script(
        out,
        b"the longest line",
        b"fresh 3\nmatchpoints -99999 5\nmatchpoints -99999 50\n",
    )
}

// Lines that cannot be read as calls.
fn words<W: Write>(out: &mut W) -> io::Result<()> {
    script(out, b"an empty line", b"fresh 3\n\nadd 10\n")?;
    script(out, b"no such call", b"fresh 3\nsub 10\n")?;
    script(out, b"a capital", b"Fresh 3\n")?;
    script(out, b"two spaces", b"fresh  3\n")?;
    script(out, b"a carriage return", b"fresh 3\r\n")?;
    script(out, b"merge and a space", b"fresh 3\nfresh 3\nmerge \n")?;
    script(
        out,
        b"a long line at the end",
        b"fresh 3\nadd 10\nmatchpoints 10 and more",
    )
}

// Numbers that cannot be read.
fn numbers<W: Write>(out: &mut W) -> io::Result<()> {
    script(out, b"no board", b"fresh \n")?;
    script(out, b"a board with a minus", b"fresh -3\n")?;
    script(out, b"no score", b"fresh 3\nadd -\n")?;
    script(out, b"a plus", b"fresh 3\nadd +10\n")?;
    script(out, b"six digits", b"fresh 3\nadd 000010\n")?;
    script(out, b"a space at the end", b"fresh 3\nadd 10 \n")
}

// Deals that cannot be read.
fn deals<W: Write>(out: &mut W) -> io::Result<()> {
    script(out, b"deal 6", b"fresh 3\nadd 10 6\n")?;
    script(out, b"deal 9", b"fresh 3\nmatchpoints 10 9\n")?;
    script(out, b"a deal with a leading zero", b"fresh 3\nadd 10 01\n")?;
    script(out, b"a deal with a minus", b"fresh 3\ncell 10 -\n")?;
    script(out, b"a deal and no score", b"fresh 3\nadd 1\nadd  1\n")?;
    script(out, b"two spaces before a deal", b"fresh 3\nadd 10  1\n")?;
    script(out, b"a deal and a space", b"fresh 3\nadd 10 1 \n")?;
    script(out, b"a deal for a merge", b"fresh 3\nfresh 3\nmerge 1\n")?;
    script(out, b"two deals", b"fresh 3\nadd 10 1 1\n")
}

// A stack that is too short for each call.
fn short<W: Write>(out: &mut W) -> io::Result<()> {
    script(out, b"add to nothing", b"add 10\nfresh 3\n")?;
    script(out, b"merge of one", b"fresh 3\nadd 10\nmerge\nadd 20\n")?;
    script(
        out,
        b"matchpoints of nothing",
        b"fresh 128\nmatchpoints 10\n",
    )?;
    script(out, b"cell of nothing", b"cell 10\nfresh 3\n")?;
    script(out, b"award of nothing", b"award 60\n")
}

fn main(rt: HostRuntime) -> io::Result<()> {
    let mut out = rt.stdout();
    read(&mut out)?;
    words(&mut out)?;
    numbers(&mut out)?;
    deals(&mut out)?;
    short(&mut out)?;
    file(&rt, &mut out, "sixteen")?;
    file(&rt, &mut out, "seventeen")?;
    file(&rt, &mut out, "a_before_b")?;
    file(&rt, &mut out, "b_before_a")?;
    file(&rt, &mut out, "every_refusal")?;
    file(&rt, &mut out, "results_129")?;
    file(&rt, &mut out, "cells")?;
    file(&rt, &mut out, "deals")?;
    file(&rt, &mut out, "fouled_128")
}
