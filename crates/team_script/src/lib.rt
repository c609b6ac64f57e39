// A line of a team match, read as a board and its two scores.
#![tactic(auto)]

ghost use Rattle.std.specs.Prelude.{◌≡◌, ◌≤◌, length, drop};
ghost use Rattle.decimal.specs.Scores.{score_on};
ghost use Rattle.team_script.specs.Boards.{to_space, field, behind, scored, asked_on};

use decimal::{board_in, read_number, read_score};
use parts::part_end;

// A board by its number, with its scores at the two tables.
#[derive(Clone, Copy, Debug, PartialEq, Eq)]
pub struct Board {
    pub number: u8,
    pub first: i16,
    pub second: i16,
}

// The place of the first space, or the end of the bytes.
fn to_space(bytes: &[u8]) -> usize
    ensures { (result ≡ to_space bytes.now) × (result ≤ length bytes.now) }
{
    part_end(bytes, 0, b' ')
}

// The place behind the first space, or the end of the bytes.
fn behind_space(bytes: &[u8]) -> usize
    ensures { (drop result bytes.now ≡ behind bytes.now) × (result ≤ length bytes.now) }
{
    bytes.len().min(to_space(bytes) + 1)
}

// The score in the field that the bytes start with.
fn score_in(bytes: &[u8]) -> Option<i16>
    ensures { result ≡ score_on (field bytes.now) }
{
    let end = to_space(bytes);
    read_score(&bytes[..end])
}

// The board of a number, with the scores in the two fields of the bytes.
fn with_scores(board: u8, bytes: &[u8]) -> Option<Board>
    ensures { result ≡ scored board (score_on (field bytes.now)) (score_on (behind bytes.now)) }
{
    let first = score_in(bytes)?;
    let at = behind_space(bytes);
    let second = read_score(&bytes[at..])?;
    Some(Board {
        number: board,
        first,
        second,
    })
}

// The board and the scores on a line, where it can be read.
pub fn read_line(line: &[u8]) -> Option<Board>
    ensures { result ≡ asked_on line.now }
{
    let end = to_space(line);
    let n = read_number(&line[..end])?;
    let at = behind_space(line);
    with_scores(board_in(n), &line[at..])
}
