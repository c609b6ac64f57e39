// A team match: boards played by two teams at two tables, each board's scores as IMPs in the first team's total. It knows the scores and the IMPs by
// the contracts of `score`. A state is a value, and every call tests the state that it is given.
#![tactic(auto)]

ghost use Rattle.std.specs.Prelude.{◌≡◌, true, ◌&&◌, nat_abs, neg_ℤ, length, ◌≤◌};
ghost use Rattle.score.specs.Units.{imp_answer};
ghost use Rattle.laws.specs.Law77.{valid_score};
ghost use Rattle.laws.specs.TeamMatch.{is_free};
ghost use Rattle.team_match.specs.Matches.{boards_in, is_match, start_of, with_imps, answer_on, after_on, totals_on, totals_answer};

use laws::Refusal;
use score::{Imps, add_imps, imps_of, imps_size, valid};

// The first team's total, and for each number from 0 to 127 whether that board was used; 0 is no board's number.
#[derive(Clone, Copy, Debug, PartialEq, Eq)]
pub struct TeamMatch {
    pub total: Imps,
    pub used: [bool; 128],
}

// What a board answers, its IMPs or a refusal, and the state after it.
#[derive(Clone, Copy, Debug, PartialEq, Eq)]
pub struct Played {
    pub state: TeamMatch,
    pub answer: Result<Imps, Refusal>,
}

// The totals of both teams.
#[derive(Clone, Copy, Debug, PartialEq, Eq)]
pub struct BothTotals {
    pub first: Imps,
    pub second: Imps,
}

// A match before its first board.
pub fn start() -> TeamMatch
    ensures { result ≡ start_of }
{
    TeamMatch {
        total: Imps(0),
        used: [false; 128],
    }
}

// How many boards are used. They are counted in eight bits, so that the compiler takes many places at once: the library's `count` is of 64.
fn boards_used(m: TeamMatch) -> u8
    ensures { result ≡ length (boards_in m) }
{
    let mut n: u8 = 0;
    for used in &m.used {
        n += u8::from(*used);
    }
    n
}

// Whether some run of 0 to 32 boards leaves a state.
pub fn is_match(m: TeamMatch) -> bool
    ensures { result ≡ is_match m }
{
    if m.used[0] {
        return false;
    }
    let n = boards_used(m);
    n <= 32 && imps_size(m.total) <= 24 * n as u64
}

// Whether a board can be played.
fn is_free(m: TeamMatch, board: u8) -> bool
    ensures { result ≡ is_free board (boards_in m) }
{
    match board {
        1..=127 => !m.used[usize::from(board)],
        _ => false,
    }
}

// Whether both scores are valid.
fn both_valid(first: i16, second: i16) -> bool
    ensures { result ≡ (valid_score first && valid_score second) }
{
    valid(first) && valid(second)
}

// What a board is answered: its IMPs, or 17 for the state, 20 for a score, 29 for the board, 30 for a 33rd.
fn worth(m: TeamMatch, board: u8, first: i16, second: i16) -> Result<Imps, Refusal>
    ensures { imp_answer result ≡ answer_on m (record { board = board; first = first; second = second }) }
{
    if !is_match(m) {
        return Err(Refusal::MalformedTally);
    }
    if !both_valid(first, second) {
        return Err(Refusal::InvalidScore);
    }
    if !is_free(m, board) {
        return Err(Refusal::BoardNotFree);
    }
    if 32 <= boards_used(m) {
        return Err(Refusal::TooManyBoards);
    }
    imps_of(first, second)
}

// A state with a board more, worth so many IMPs.
fn with_imps(m: TeamMatch, board: u8, gained: Imps) -> TeamMatch
    requires { (is_match m ≡ true) × (board ≤ 127) × (nat_abs gained.0 ≤ 24) }
    ensures { result ≡ with_imps m board gained.0 }
{
    let mut next = m;
    next.total = add_imps(m.total, gained).unwrap();
    next.used[usize::from(board)] = true;
    next
}

// One board more: its number, and the scores at the two tables. Refused, the state stays: 17 for the state, 20 for a score, 29 for the board, 30 for
// a 33rd.
pub fn play(m: TeamMatch, board: u8, first: i16, second: i16) -> Played
    ensures state { result.state ≡ after_on m (record { board = board; first = first; second = second }) }
    ensures answer { imp_answer result.answer ≡ answer_on m (record { board = board; first = first; second = second }) }
{
    let answer = worth(m, board, first, second);
    let state = match answer {
        Ok(gained) => with_imps(m, board, gained),
        Err(_) => m,
    };
    Played { state, answer }
}

// The other team's total.
fn opposite(m: TeamMatch) -> Imps
    requires { is_match m ≡ true }
    ensures { result.0 ≡ neg_ℤ m.total.0 }
{
    let total = m.total;
    Imps(-total.0)
}

// The totals of both teams; 17 for a state that is none.
pub fn totals(m: TeamMatch) -> Result<BothTotals, Refusal>
    ensures { totals_answer result ≡ totals_on m }
{
    if !is_match(m) {
        return Err(Refusal::MalformedTally);
    }
    Ok(BothTotals {
        first: m.total,
        second: opposite(m),
    })
}
