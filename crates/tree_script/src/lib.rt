// A line of a script of tally calls, read as a call.
#![tactic(auto)]

ghost use Rattle.std.specs.Prelude.{◌≡◌};
ghost use Rattle.decimal.specs.Scores.{score_on};
ghost use Rattle.tree_script.specs.Calls.{fresh_on, of_deal, given_on, award_on, tally_call_on, call_on};

use decimal::{board_in, read_number, read_score};

// A score with the number of its deal.
#[derive(Clone, Copy, Debug, PartialEq, Eq)]
pub struct Given {
    pub score: i16,
    pub deal: u8,
}

// A call that a line asks for, with its board, its score and deal, or its percentage.
#[derive(Clone, Copy, Debug, PartialEq, Eq)]
pub enum Call {
    Fresh(u8),
    Add(Given),
    Merge,
    Matchpoints(Given),
    Cell(Given),
    Award(u32),
}

// A fresh tally of the board that the bytes say.
fn fresh_on(bytes: &[u8]) -> Option<Call>
    ensures { result ≡ fresh_on bytes.now }
{
    let n = read_number(bytes)?;
    Some(Call::Fresh(board_in(n)))
}

// The score that the bytes say, of a deal.
fn score_of(bytes: &[u8], deal: u8) -> Option<Given>
    ensures { result ≡ of_deal deal (score_on bytes.now) }
{
    let score = read_score(bytes)?;
    Some(Given { score, deal })
}

// The score that the bytes say, of the deal that a space and a digit from 0 to 5 name at their end, and of deal 0 where there is no such space.
fn given_on(bytes: &[u8]) -> Option<Given>
    ensures { result ≡ given_on bytes.now }
{
    let n = bytes.len();
    if n < 2 {
        return score_of(bytes, 0);
    }
    if bytes[n - 2] != b' ' {
        return score_of(bytes, 0);
    }
    let digit = bytes[n - 1];
    if digit < b'0' {
        return None;
    }
    if b'5' < digit {
        return None;
    }
    score_of(&bytes[..n - 2], digit - b'0')
}

// A percentage to be awarded.
fn award_on(bytes: &[u8]) -> Option<Call>
    ensures { result ≡ award_on bytes.now }
{
    let n = read_number(bytes)?;
    Some(Call::Award(n))
}

// A call that makes a tally or asks for matchpoints.
fn tally_call(line: &[u8]) -> Option<Call>
    ensures { result ≡ tally_call_on line.now }
{
    if line.starts_with(b"fresh ") {
        return fresh_on(&line[6..]);
    }
    if line.starts_with(b"add ") {
        let given = given_on(&line[4..])?;
        return Some(Call::Add(given));
    }
    if line.starts_with(b"matchpoints ") {
        let given = given_on(&line[12..])?;
        return Some(Call::Matchpoints(given));
    }
    if line.len() != 5 {
        return None;
    }
    if line.starts_with(b"merge") {
        return Some(Call::Merge);
    }
    None
}

// The call on a line, where one can be read.
pub fn read_call(line: &[u8]) -> Option<Call>
    ensures { result ≡ call_on line.now }
{
    if line.starts_with(b"cell ") {
        let given = given_on(&line[5..])?;
        return Some(Call::Cell(given));
    }
    if line.starts_with(b"award ") {
        return award_on(&line[6..]);
    }
    tally_call(line)
}
