// The sheet of many inputs, each under a line that names it; and the example of docs/RULES.md with bytes enough and one too few.
#![tactic(auto)]

ghost use Rattle.std.specs.Prelude.{◌≤◌};

use std::io;
use std::io::Write;

// The sheet of an input. Other programs that try a text have their like of this and of `lend`: one of each for all would stand in a crate of its own, with
// a trait for the texts, and be no plainer.
fn show<W: Write>(out: &mut W, name: &str, input: &[u8]) -> io::Result<()> {
    writeln!(out, "{name}:")?;
    let mut text = [0u8; 2331];
    match sheet_text::write(input, &mut text) {
        Some(length) => out.write_all(&text[..length]),
        None => Ok(()),
    }
}

// The sheet of the line `-7600`, so many times.
fn repeated<W: Write>(out: &mut W, name: &str, times: usize) -> io::Result<()>
    requires { times ≤ 256 }
{
    let lines = [*b"-7600\n"; 256];
    show(out, name, lines[..times].as_flattened())
}

// What the example of docs/RULES.md gives in lent bytes, all `.` before.
fn lend<W: Write>(out: &mut W, bytes: &mut [u8]) -> io::Result<()> {
    match sheet_text::write(b"420\n420\n-50\n450\n", bytes) {
        Some(_) => writeln!(out, "written:"),
        None => writeln!(out, "too short:"),
    }?;
    out.write_all(bytes)?;
    writeln!(out)
}

fn taken<W: Write>(out: &mut W) -> io::Result<()> {
    show(out, "no input", b"")?;
    show(out, "no last newline", b"420\n420\n-50\n450")?;
    show(out, "zero", b"0\n10\n-10\n")?;
    show(out, "the ends of the range", b"7600\n-7600\n7600\n")?;
    repeated(out, "128 results", 128)
}

fn refused<W: Write>(out: &mut W) -> io::Result<()> {
    show(out, "a bad line", b"420\n450\n4a0\n-50\n")?;
    show(out, "two bad lines", b"420\n1\n2\n")?;
    show(out, "minus zero", b"420\n-0\n")?;
    show(out, "two zeros", b"00\n")?;
    show(out, "a leading zero", b"010\n")?;
    show(out, "a plus", b"+10\n")?;
    show(out, "above the range", b"420\n420\n7610\n")?;
    show(out, "below the range", b"-7610\n")?;
    show(out, "no multiple of ten", b"425\n")?;
    show(out, "five digits", b"10000\n")?;
    show(out, "a minus alone", b"-\n")?;
    show(out, "a space", b"420 \n")?;
    show(out, "an empty line", b"420\n\n450\n")?;
    show(out, "an empty last line", b"420\n\n")?;
    show(out, "a newline alone", b"\n")?;
    show(out, "a carriage return", b"420\r\n450\r\n")?;
    repeated(out, "129 results", 129)?;
    repeated(out, "256 results", 256)
}

fn main(rt: HostRuntime) -> io::Result<()> {
    let mut out = rt.stdout();
    taken(&mut out)?;
    refused(&mut out)?;
    let mut enough = [b'.'; 59];
    lend(&mut out, &mut enough)?;
    let mut few = [b'.'; 56];
    lend(&mut out, &mut few)
}
