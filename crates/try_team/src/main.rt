// Tries states of a team match, some of them forged. A line has the kind, whether it is a state (1 or 0), the refusals of board 127 played and of the
// totals asked, 0 for none, and whether the state after the play is the state before it.
#![tactic(auto)]

use laws::Refusal;
use score::Imps;
use std::io;
use std::io::Write;
use team_match::TeamMatch;

// A state with a total, and the boards from a number up to another used.
fn state(total: i32, from: usize, to: usize) -> TeamMatch {
    let mut m = TeamMatch {
        total: Imps(total),
        used: [false; 128],
    };
    for (i, used) in m.used.iter_mut().enumerate() {
        *used = from <= i && i <= to;
    }
    m
}

// The number of a refusal, 0 for none. `try_forged` has its like, of refusals with a place: one for both would be a crate of its own for one line.
fn refusal_of<T: Copy>(answer: Result<T, Refusal>) -> u8 {
    answer.map_or_else(|refusal| refusal.number(), |_| 0)
}

// Writes a kind of state, and what each call answers to it.
fn line<W: Write>(out: &mut W, kind: &str, m: TeamMatch) -> io::Result<()> {
    let is_state = u8::from(team_match::is_match(m));
    let played = team_match::play(m, 127, 420, -50);
    let refused = refusal_of(played.answer);
    let asked = refusal_of(team_match::totals(m));
    let same = u8::from(played.state == m);
    writeln!(out, "{kind}: {is_state} {refused} {asked} {same}")
}

fn main(rt: HostRuntime) -> io::Result<()> {
    let mut out = rt.stdout();
    line(&mut out, "before the first board", team_match::start())?;
    line(&mut out, "2 boards, -48", state(-48, 1, 2))?;
    line(&mut out, "2 boards, 48", state(48, 1, 2))?;
    line(&mut out, "2 boards, -49", state(-49, 1, 2))?;
    line(&mut out, "2 boards, 49", state(49, 1, 2))?;
    line(&mut out, "2 boards, 50", state(50, 1, 2))?;
    line(&mut out, "no board, 1", state(1, 1, 0))?;
    line(&mut out, "place 0", state(0, 0, 2))?;
    line(&mut out, "31 boards", state(0, 1, 31))?;
    line(&mut out, "32 boards", state(768, 1, 32))?;
    line(&mut out, "32 boards, 769", state(769, 1, 32))?;
    line(
        &mut out,
        "32 boards, board 127 among them",
        state(0, 96, 127),
    )?;
    line(&mut out, "33 boards", state(0, 1, 33))?;
    line(&mut out, "127 boards", state(0, 1, 127))?;
    line(&mut out, "least total", state(-2147483648, 1, 32))?;
    line(&mut out, "greatest total", state(2147483647, 1, 32))
}
