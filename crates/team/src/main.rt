// Plays a team match from standard input, a board a line: its number, and the scores at the two tables, as in `1 420 -50`. For each line it writes
// the first team's IMPs or the refusal, and at the end the totals of the two teams.
#![tactic(auto)]

use laws::Refusal;
use score::Imps;
use std::io;
use std::io::{Read, Write};
use team_match::TeamMatch;
use team_run::{Fed, Reply, Run};

// A run after one read, and whether there may be more to read. `tree` has its like on a run of its own: `tree_run` says why there are two.
#[derive(Clone, Copy)]
struct Turn {
    run: Run,
    more: bool,
}

// Writes the start of some bytes, as much of them as a text has filled.
fn show<W: Write>(out: &mut W, outcome: Option<usize>, bytes: &[u8]) -> io::Result<()> {
    let Some(n) = outcome else {
        return Ok(());
    };
    if bytes.len() < n {
        return Ok(());
    }
    out.write_all(&bytes[..n])
}

// Writes what a board is answered.
fn say_board<W: Write>(out: &mut W, answer: Result<Imps, Refusal>) -> io::Result<()> {
    let mut text = [0u8; 12];
    let outcome = team_text::write_board(answer, &mut text);
    show(out, outcome, &text)
}

// Writes that a line cannot be read.
fn say_refusal<W: Write>(out: &mut W, line: u64) -> io::Result<()> {
    let mut text = [0u8; 34];
    let outcome = team_text::write_refusal(line, &mut text);
    show(out, outcome, &text)
}

// Writes the totals of the two teams.
fn say_totals<W: Write>(out: &mut W, m: TeamMatch) -> io::Result<()> {
    let Ok(totals) = team_match::totals(m) else {
        return Ok(());
    };
    let mut text = [0u8; 30];
    let outcome = team_text::write_totals(totals.first, totals.second, &mut text);
    show(out, outcome, &text)
}

// Writes what a byte brought.
fn report<W: Write>(out: &mut W, fed: Fed) -> io::Result<()> {
    match fed.reply {
        None => Ok(()),
        Some(Reply::Answer(answer)) => say_board(out, answer),
        Some(Reply::Stopped) => say_refusal(out, fed.run.line.number),
    }
}

// More bytes of the input: each board's answer is written.
fn feed<W: Write>(out: &mut W, run: Run, bytes: &[u8]) -> io::Result<Run> {
    let mut r = run;
    for b in bytes {
        let fed = team_run::take(r, *b);
        report(out, fed)?;
        r = fed.run;
    }
    Ok(r)
}

// The end of the input: a last line without a newline is answered, and where the run is not over the totals are written.
fn finish<W: Write>(out: &mut W, run: Run) -> io::Result<()> {
    let fed = team_run::finish(run);
    report(out, fed)?;
    if fed.run.over {
        return Ok(());
    }
    say_totals(out, fed.run.state)
}

// Reads once, and takes the bytes that came.
fn read_some<R: Read, W: Write>(input: &mut R, out: &mut W, run: Run) -> io::Result<Turn> {
    let mut buffer = [0u8; 4096];
    let n = input.read(&mut buffer)?;
    if n == 0 {
        return Ok(Turn { run, more: false });
    }
    let next = feed(out, run, &buffer[..n])?;
    Ok(Turn {
        run: next,
        more: !next.over,
    })
}

// The turns are counted, up to a number that no run reaches: nothing says that the input ends.
fn main(rt: HostRuntime) -> io::Result<()> {
    let mut input = rt.stdin();
    let mut out = rt.stdout();
    let mut run = team_run::start();
    for _ in 0..u64::MAX {
        let turn = read_some(&mut input, &mut out, run)?;
        run = turn.run;
        if !turn.more {
            break;
        }
    }
    finish(&mut out, run)
}
