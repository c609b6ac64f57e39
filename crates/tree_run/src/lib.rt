// A run of a script: bytes are taken one by one, and each line is a call, whose answer is handed back.
#![tactic(auto)]

ghost use Rattle.std.specs.Prelude.{◌≡◌, None};
ghost use Rattle.tree_stack.specs.Saying.{saying};
ghost use Rattle.tree_run.specs.Runs.{start_of, is_ended, brought, call_in, line_done, taken_byte, finished_of, top_of};

use script_line::{Line, first_line, next_line, with_byte};
use tally::Tally;
use tree_script::{Call, read_call};
use tree_stack::{Said, Stack, make_call};

// A run under way: the stack, the line so far, and whether it is over. `team_run` has its like: one type for both, with a trait or a closure for what a whole
// line does and a ghost member for its meaning, is no plainer than the two short functions `take` and `finish`.
#[derive(Clone, Copy)]
pub struct Run {
    pub stack: Stack,
    pub line: Line,
    pub over: bool,
}

// A run after a byte, or at its end, and what the call answered whose line that ended.
#[derive(Clone, Copy)]
pub struct Fed {
    pub run: Run,
    pub reply: Option<Said>,
}

// A run before its first byte.
#[tactic(auto, unfolding(crate::specs::Runs::start_of, tally::specs::Tallies::tally_of))]
pub fn start() -> Run
    ensures { result ≡ start_of }
{
    let none = tally::empty(0, [0u8; 52]);
    Run {
        stack: Stack {
            tallies: [none; 16],
            used: 0,
        },
        line: first_line(),
        over: false,
    }
}

// Whether an answer ends the run.
fn is_stopped(said: Said) -> bool
    ensures { result ≡ is_ended (saying said) }
{
    matches!(said, Said::Stopped)
}

// The call on the line so far, where one can be read.
fn call_in(line: Line) -> Option<Call>
    ensures { result ≡ call_in line }
{
    if 20 < line.length {
        return None;
    }
    read_call(&line.bytes[..line.length])
}

// The line is whole: its call is made.
#[tactic(auto, unfolding(crate::specs::Runs::line_done))]
fn line_done(run: Run) -> Fed
    ensures { brought result ≡ line_done run }
{
    let made = make_call(run.stack, call_in(run.line));
    let said = made.said;
    Fed {
        run: Run {
            stack: made.stack,
            line: next_line(run.line),
            over: is_stopped(said),
        },
        reply: Some(said),
    }
}

// Nothing is answered.
fn silent(run: Run) -> Fed
    ensures { brought result ≡ record { run = run; reply = None } }
{
    Fed { run, reply: None }
}

// One byte more of the script.
pub fn take(run: Run, b: u8) -> Fed
    ensures { brought result ≡ taken_byte run b }
{
    if run.over {
        return silent(run);
    }
    if b == b'\n' {
        return line_done(run);
    }
    silent(Run {
        stack: run.stack,
        line: with_byte(run.line, b),
        over: false,
    })
}

// The end of the script: its last line may lack a newline.
pub fn finish(run: Run) -> Fed
    ensures { brought result ≡ finished_of run }
{
    if run.over || run.line.length == 0 {
        return silent(run);
    }
    line_done(run)
}

// The top tally of a stack; the all-zero one where it has none.
pub fn top(s: Stack) -> Tally
    ensures { result ≡ top_of s }
{
    tree_stack::top(s).unwrap_or(tally::empty(0, [0u8; 52]))
}
