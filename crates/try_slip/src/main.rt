// The slips of records in files, each under a line that names it; and one slip with bytes enough and one too few.
#![tactic(auto)]

use std::io::Write;
use std::{fs, io};

// The slip of a record. Other programs that try a text have their like of this and of what follows: one of each for all would stand in a crate of its own, with
// a trait for the texts, and be no plainer.
fn show<W: Write>(out: &mut W, name: &str, record: &[u8]) -> io::Result<()> {
    writeln!(out, "{name}:")?;
    let mut text = [0u8; 72];
    match slip_text::write(record, &mut text) {
        Some(length) => out.write_all(&text[..length]),
        None => Ok(()),
    }
}

// The slip of the record in a file of that name.
fn file<W: Write>(rt: &HostRuntime, out: &mut W, name: &str) -> io::Result<()> {
    let mut record = [0u8; 4096];
    let mut file = fs::open(rt, name)?;
    let n = filling::fill(&mut file, &mut record)?;
    show(out, name, &record[..n])
}

// What the slip of no bytes gives in lent bytes, all `.` before.
fn lend<W: Write>(out: &mut W, bytes: &mut [u8]) -> io::Result<()> {
    match slip_text::write(b"", bytes) {
        Some(_) => writeln!(out, "written:"),
        None => writeln!(out, "too short:"),
    }?;
    out.write_all(bytes)?;
    writeln!(out)
}

fn main(rt: HostRuntime) -> io::Result<()> {
    let mut out = rt.stdout();
    file(&rt, &mut out, "partscore-over")?;
    file(&rt, &mut out, "slam")?;
    file(&rt, &mut out, "doubled-made")?;
    file(&rt, &mut out, "doubled-one-down")?;
    file(&rt, &mut out, "redoubled-down")?;
    file(&rt, &mut out, "east-west")?;
    file(&rt, &mut out, "doubled-down")?;
    file(&rt, &mut out, "revoke-two-tricks")?;
    file(&rt, &mut out, "longest-slip")?;
    file(&rt, &mut out, "passed-out")?;
    file(&rt, &mut out, "claim-of-13")?;
    let mut enough = [b'.'; 6];
    lend(&mut out, &mut enough)?;
    let mut few = [b'.'; 3];
    lend(&mut out, &mut few)
}
