// A run of a team match: bytes are taken one by one, and each line is a board, whose answer is handed back.
#![tactic(auto)]

ghost use Rattle.std.specs.Prelude.{◌≡◌, None, Some};
ghost use Rattle.team_run.specs.Runs.{start_of, brought, asked_in, done_with, line_done, taken_byte, finished_of};

use laws::Refusal;
use score::Imps;
use script_line::{Line, first_line, next_line, with_byte};
use team_match::TeamMatch;
use team_script::{Board, read_line};

// A run under way: the match, the line so far, and whether it is over. `tree_run` has its like: one type for both, with a trait or a closure for what a whole
// line does and a ghost member for its meaning, is no plainer than the two short functions `take` and `finish`.
#[derive(Clone, Copy)]
pub struct Run {
    pub state: TeamMatch,
    pub line: Line,
    pub over: bool,
}

// What a line brings: what its board is answered, or that the run ends at a line that cannot be read. An Option here would stand in that of `Fed`, where
// neither lack tells which it is.
#[derive(Clone, Copy, Debug, PartialEq, Eq)]
pub enum Reply {
    Answer(Result<Imps, Refusal>),
    Stopped,
}

// A run after a byte, or at its end, and what that brought where it ended a line.
#[derive(Clone, Copy)]
pub struct Fed {
    pub run: Run,
    pub reply: Option<Reply>,
}

// A run before its first byte.
pub fn start() -> Run
    ensures { result ≡ start_of }
{
    Run {
        state: team_match::start(),
        line: first_line(),
        over: false,
    }
}

// The board on the line so far, where it can be read.
fn asked_in(line: Line) -> Option<Board>
    ensures { result ≡ asked_in line }
{
    if 20 < line.length {
        return None;
    }
    read_line(&line.bytes[..line.length])
}

// A board is played.
fn play_board(run: Run, board: Board) -> Fed
    ensures { brought result ≡ done_with run (Some board) }
{
    let played = team_match::play(run.state, board.number, board.first, board.second);
    Fed {
        run: Run {
            state: played.state,
            line: next_line(run.line),
            over: false,
        },
        reply: Some(Reply::Answer(played.answer)),
    }
}

// The run ends at a line that cannot be read.
fn stop(run: Run) -> Fed
    ensures { brought result ≡ done_with run None }
{
    Fed {
        run: Run {
            state: run.state,
            line: next_line(run.line),
            over: true,
        },
        reply: Some(Reply::Stopped),
    }
}

// The line is whole.
fn line_done(run: Run) -> Fed
    ensures { brought result ≡ line_done run }
{
    match asked_in(run.line) {
        Some(board) => play_board(run, board),
        None => stop(run),
    }
}

// Nothing is answered.
fn silent(run: Run) -> Fed
    ensures { brought result ≡ record { run = run; reply = None } }
{
    Fed { run, reply: None }
}

// One byte more of the input.
pub fn take(run: Run, b: u8) -> Fed
    ensures { brought result ≡ taken_byte run b }
{
    if run.over {
        return silent(run);
    }
    if b == b'\n' {
        return line_done(run);
    }
    silent(Run {
        state: run.state,
        line: with_byte(run.line, b),
        over: false,
    })
}

// The end of the input: its last line may lack a newline.
pub fn finish(run: Run) -> Fed
    ensures { brought result ≡ finished_of run }
{
    if run.over || run.line.length == 0 {
        return silent(run);
    }
    line_done(run)
}
