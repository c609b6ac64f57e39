// What best play would give from records in files, each under a line that names it; and one answer with bytes enough and one too few.
#![tactic(auto)]

use std::io::Write;
use std::{fs, io};

// The answer for a record. Other programs that try a text have their like of this and of what follows: one of each for all would stand in a crate of its own,
// with a trait for the texts, and be no plainer.
fn show<W: Write>(out: &mut W, name: &str, record: &[u8]) -> io::Result<()> {
    write!(out, "{name}: ")?;
    let mut text = [0u8; 8];
    match best_text::write(record, &mut text) {
        Some(length) => out.write_all(&text[..length]),
        None => Ok(()),
    }
}

// The answer for the record in a file of that name.
fn file<W: Write>(rt: &HostRuntime, out: &mut W, name: &str) -> io::Result<()> {
    let mut record = [0u8; 4096];
    let mut file = fs::open(rt, name)?;
    let n = filling::fill(&mut file, &mut record)?;
    show(out, name, &record[..n])
}

// What the answer for no bytes gives in lent bytes, all `.` before.
fn lend<W: Write>(out: &mut W, bytes: &mut [u8]) -> io::Result<()> {
    match best_text::write(b"", bytes) {
        Some(_) => writeln!(out, "written:"),
        None => writeln!(out, "too short:"),
    }?;
    out.write_all(bytes)?;
    writeln!(out)
}

fn main(rt: HostRuntime) -> io::Result<()> {
    let mut out = rt.stdout();
    file(&rt, &mut out, "claim-best-play")?;
    file(&rt, &mut out, "all-four")?;
    file(&rt, &mut out, "last-two")?;
    file(&rt, &mut out, "partscore")?;
    file(&rt, &mut out, "trick-under-way")?;
    file(&rt, &mut out, "seventeen-left")?;
    file(&rt, &mut out, "passed-out")?;
    file(&rt, &mut out, "claim")?;
    file(&rt, &mut out, "refused-claim")?;
    file(&rt, &mut out, "refused-card")?;
    file(&rt, &mut out, "wrong-card")?;
    let mut enough = [b'.'; 6];
    lend(&mut out, &mut enough)?;
    let mut few = [b'.'; 3];
    lend(&mut out, &mut few)
}
