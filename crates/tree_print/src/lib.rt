// A run of a script whose answers are written as they come, and the top tally at its end. The texts are those that `answer_text` puts into lent bytes.
// An error is the writer's. It leaves the run as it was given, and some of the answers may be written.
#![tactic(auto)]

ghost use Rattle.std.specs.Prelude.{◌≡◌, IfOk};
ghost use Rattle.tree_run.specs.Runs.{finished_of};
ghost use Rattle.tree_print.specs.Printing.{fed_of};

use std::io;
use std::io::Write;
use tally::Tally;
use tree_run::{Fed, Run};
use tree_stack::Said;

// Writes what a call on a line answers.
fn say<W: Write>(out: &mut W, said: Said, line: u64) -> io::Result<()> {
    let mut text = [0u8; 34];
    match answer_text::write_said(said, line, &mut text) {
        Some(n) => out.write_all(&text[..n]),
        None => Ok(()),
    }
}

// Writes what a byte brought.
fn report<W: Write>(out: &mut W, fed: Fed) -> io::Result<()> {
    match fed.reply {
        Some(said) => say(out, said, fed.run.line.number),
        None => Ok(()),
    }
}

// Writes a tally, an entry a line.
fn show<W: Write>(out: &mut W, t: Tally) -> io::Result<()> {
    let mut text = [0u8; 1408];
    match answer_text::write_tally(t, &mut text) {
        Some(n) => out.write_all(&text[..n]),
        None => Ok(()),
    }
}

// More bytes of the script: each call's answer is written.
pub fn feed<W: Write>(out: &mut W, run: Run, bytes: &[u8]) -> io::Result<Run>
    ensures { IfOk result (λ r. r ≡ fed_of run bytes.now) }
{
    let mut r = run;
    for b in bytes {
        let fed = tree_run::take(r, *b);
        report(out, fed)?;
        r = fed.run;
    }
    Ok(r)
}

// The end of the script: a last line without a newline is answered, and where the run is not over the top tally is written.
pub fn finish<W: Write>(out: &mut W, run: Run) -> io::Result<Run>
    ensures { IfOk result (λ r. r ≡ (finished_of run).run) }
{
    let fed = tree_run::finish(run);
    report(out, fed)?;
    let last = fed.run;
    if last.over {
        return Ok(last);
    }
    show(out, tree_run::top(last.stack))?;
    Ok(last)
}
