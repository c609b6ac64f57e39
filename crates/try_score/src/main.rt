// IMPs and sums of both units at work. First the IMPs of pairs of scores: those of P7, each end of the scale and ten points less, signs, the widest
// difference, and scores that are not valid. Then sums of IMPs and of matchpoints, at the ends of what a number holds.
#![tactic(auto)]

use score::{Imps, Matchpoints};
use std::io;
use std::io::Write;

// Writes two scores and their IMPs.
fn imps<W: Write>(out: &mut W, first: i16, second: i16) -> io::Result<()> {
    match score::imps_of(first, second) {
        Err(refusal) => writeln!(out, "{first} {second} refused {}", refusal.number()),
        Ok(i) => writeln!(out, "{first} {second} {}", i.0),
    }
}

// Writes two numbers of IMPs and their sum.
fn imp_sum<W: Write>(out: &mut W, a: i32, b: i32) -> io::Result<()> {
    match score::add_imps(Imps(a), Imps(b)) {
        Some(i) => writeln!(out, "IMPs {a} {b} {}", i.0),
        None => writeln!(out, "IMPs {a} {b} does not fit"),
    }
}

// Writes two numbers of matchpoints and their sum.
fn matchpoint_sum<W: Write>(out: &mut W, a: u32, b: u32) -> io::Result<()> {
    match score::add_matchpoints(Matchpoints(a), Matchpoints(b)) {
        Some(m) => writeln!(out, "matchpoints {a} {b} {}", m.0),
        None => writeln!(out, "matchpoints {a} {b} does not fit"),
    }
}

fn examples<W: Write>(out: &mut W) -> io::Result<()> {
    imps(out, 10, 0)?;
    imps(out, 20, 0)?;
    imps(out, 490, 0)?;
    imps(out, 500, 0)?;
    imps(out, 3990, 0)?;
    imps(out, 4000, 0)?;
    imps(out, -500, 0)
}

// The first half of the scale: ten points less than an entry, and the entry.
fn lower_half<W: Write>(out: &mut W) -> io::Result<()> {
    imps(out, 40, 0)?;
    imps(out, 50, 0)?;
    imps(out, 80, 0)?;
    imps(out, 90, 0)?;
    imps(out, 120, 0)?;
    imps(out, 130, 0)?;
    imps(out, 160, 0)?;
    imps(out, 170, 0)?;
    imps(out, 210, 0)?;
    imps(out, 220, 0)?;
    imps(out, 260, 0)?;
    imps(out, 270, 0)?;
    imps(out, 310, 0)?;
    imps(out, 320, 0)?;
    imps(out, 360, 0)?;
    imps(out, 370, 0)?;
    imps(out, 420, 0)?;
    imps(out, 430, 0)?;
    imps(out, 590, 0)?;
    imps(out, 600, 0)
}

// The second half, as losses.
fn upper_half<W: Write>(out: &mut W) -> io::Result<()> {
    imps(out, 0, 740)?;
    imps(out, 0, 750)?;
    imps(out, 0, 890)?;
    imps(out, 0, 900)?;
    imps(out, 0, 1090)?;
    imps(out, 0, 1100)?;
    imps(out, 0, 1290)?;
    imps(out, 0, 1300)?;
    imps(out, 0, 1490)?;
    imps(out, 0, 1500)?;
    imps(out, 0, 1740)?;
    imps(out, 0, 1750)?;
    imps(out, 0, 1990)?;
    imps(out, 0, 2000)?;
    imps(out, 0, 2240)?;
    imps(out, 0, 2250)?;
    imps(out, 0, 2490)?;
    imps(out, 0, 2500)?;
    imps(out, 0, 2990)?;
    imps(out, 0, 3000)?;
    imps(out, 0, 3490)?;
    imps(out, 0, 3500)
}

// Differences of two scores that are not 0, and scores that are not valid.
fn pairs<W: Write>(out: &mut W) -> io::Result<()> {
    imps(out, 0, 0)?;
    imps(out, 420, 420)?;
    imps(out, 620, -100)?;
    imps(out, -100, 620)?;
    imps(out, -50, 420)?;
    imps(out, 7600, -7600)?;
    imps(out, -7600, 7600)?;
    imps(out, 7610, 0)?;
    imps(out, 0, -7610)?;
    imps(out, 425, 420)?;
    imps(out, 420, 425)?;
    imps(out, 32767, -32768)
}

fn main(rt: HostRuntime) -> io::Result<()> {
    let mut out = rt.stdout();
    examples(&mut out)?;
    lower_half(&mut out)?;
    upper_half(&mut out)?;
    pairs(&mut out)?;
    imp_sum(&mut out, 10, -12)?;
    imp_sum(&mut out, -24, -24)?;
    imp_sum(&mut out, 2147483646, 1)?;
    imp_sum(&mut out, 2147483647, 1)?;
    imp_sum(&mut out, -2147483647, -1)?;
    imp_sum(&mut out, -2147483648, -1)?;
    imp_sum(&mut out, -2147483648, 2147483647)?;
    matchpoint_sum(&mut out, 0, 0)?;
    matchpoint_sum(&mut out, 254, 254)?;
    matchpoint_sum(&mut out, 4294967294, 1)?;
    matchpoint_sum(&mut out, 4294967295, 1)?;
    matchpoint_sum(&mut out, 4294967295, 4294967295)
}
