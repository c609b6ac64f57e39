// A stack of at most 16 tallies, and the calls on it.
#![tactic(auto)]

ghost use Rattle.std.specs.Prelude.{◌≡◌, ◌<◌, set};
ghost use Rattle.laws.specs.Refusals.{given};
ghost use Rattle.tally.specs.Tallies.{tallied_of};
ghost use Rattle.percentages.specs.Cells.{entered, cell_answer, Numbered};
ghost use Rattle.matchpoints.specs.Points.{points_answer};
ghost use Rattle.tree_stack.specs.Deals.{suits, deal_numbered};
ghost use Rattle.tree_stack.specs.Saying.{saying, stepped};
ghost use Rattle.tree_stack.specs.Stacks.{
  top_of,
  stopped,
  landed,
  said_of,
  fresh_step,
  add_step,
  merge_step,
  matchpoints_step,
  said_cell,
  cell_step,
  award_step,
  step_of,
};

use deal::SUITS;
use laws::Refused;
use matchpoints::BothSides;
use percentages::Cell;
use tally::Tally;
use tree_script::{Call, Given};

// The first `used` of 16 places hold tallies, the top last: a rule of the project (no heap, fixed memory).
#[derive(Clone, Copy, Debug, PartialEq, Eq)]
pub struct Stack {
    pub tallies: [Tally; 16],
    pub used: usize,
}

// What a call answers: that it is done, a refusal with its place, the matchpoints of both sides, a cell with the 64 bits of its float; or that the run ends
// there.
#[derive(Clone, Copy, Debug, PartialEq, Eq)]
pub enum Said {
    Done,
    Refused(Refused),
    Points(u32, u32),
    Played(u64),
    Awarded(u64),
    Alone,
    Stopped,
}

// The stack after a call, and what the call answers.
#[derive(Clone, Copy, Debug, PartialEq, Eq)]
pub struct Step {
    pub stack: Stack,
    pub said: Said,
}

// Deal 0 with new holders of two cards.
fn with_two(card: usize, holder: u8, card2: usize, holder2: u8) -> [u8; 52]
    requires { (card < 52) × (card2 < 52) }
    ensures { result ≡ set (set suits card holder) card2 holder2 }
{
    let mut holders = SUITS;
    holders[card] = holder;
    holders[card2] = holder2;
    holders
}

// The holders of the deal of a number.
fn holders_of(deal: u8) -> [u8; 52]
    ensures { result ≡ deal_numbered deal }
{
    match deal {
        1 => with_two(0, 1, 13, 0),
        2 => with_two(26, 3, 39, 2),
        3 => with_two(12, 3, 51, 0),
        4 => with_two(51, 4, 51, 4),
        5 => with_two(13, 2, 13, 2),
        _ => SUITS,
    }
}

// The run ends with the stack as it is.
fn stop(s: Stack) -> Step
    ensures { stepped result ≡ stopped s }
{
    Step {
        stack: s,
        said: Said::Stopped,
    }
}

// The tally that a call made, at a place, with so many used; refused, the stack as it is.
fn land(s: Stack, at: usize, used: usize, made: Result<Tally, Refused>) -> Step
    requires { at < 16 }
    ensures { stepped result ≡ landed s at used (tallied_of made) }
{
    match made {
        Ok(t) => {
            let mut next = s;
            next.tallies[at] = t;
            next.used = used;
            Step {
                stack: next,
                said: Said::Done,
            }
        }
        Err(refused) => Step {
            stack: s,
            said: Said::Refused(refused),
        },
    }
}

// The top tally of a stack, where it has one.
#[tactic(auto, unfolding(crate::specs::Stacks::top_of))]
pub fn top(s: Stack) -> Option<Tally>
    ensures { result ≡ top_of s }
{
    let n = s.used;
    if n < 1 {
        return None;
    }
    if 16 < n {
        return None;
    }
    Some(s.tallies[n - 1])
}

// A fresh tally on top.
fn fresh_step(s: Stack, board: u8) -> Step
    ensures { stepped result ≡ fresh_step s board }
{
    let n = s.used;
    if 15 < n {
        return stop(s);
    }
    land(s, n, n + 1, tally::fresh(board))
}

// A result added to the top tally.
fn add_step(s: Stack, given: Given) -> Step
    ensures { stepped result ≡ add_step s given }
{
    let Some(t) = top(s) else {
        return stop(s);
    };
    let holders = holders_of(given.deal);
    land(
        s,
        s.used - 1,
        s.used,
        merging::add(t, given.score, &holders),
    )
}

// The two topmost tallies merged, the lower one first; refused, the lower one is left.
fn merge_step(s: Stack) -> Step
    ensures { stepped result ≡ merge_step s }
{
    let n = s.used;
    if n < 2 {
        return stop(s);
    }
    if 16 < n {
        return stop(s);
    }
    let first = s.tallies[n - 2];
    let second = s.tallies[n - 1];
    let mut rest = s;
    rest.used = n - 1;
    land(rest, n - 2, n - 1, merging::merge(first, second))
}

// An answer for matchpoints.
fn said_of(answer: Result<BothSides, Refused>) -> Said
    ensures { saying result ≡ said_of (points_answer answer) }
{
    match answer {
        Ok(points) => Said::Points(points.ns.0, points.ew.0),
        Err(refused) => Said::Refused(refused),
    }
}

// The matchpoints of a result in the top tally.
fn matchpoints_step(s: Stack, given: Given) -> Step
    ensures { stepped result ≡ matchpoints_step s given }
{
    let Some(t) = top(s) else {
        return stop(s);
    };
    let holders = holders_of(given.deal);
    let said = said_of(matchpoints::matchpoints(t, given.score, &holders));
    Step { stack: s, said }
}

// A cell, as it is said.
fn said_entered(cell: Cell) -> Said
    requires { Numbered (given (entered cell)) }
    ensures { saying result ≡ said_cell (given (entered cell)) }
{
    match cell {
        Cell::Played(x) => Said::Played(f64::to_bits(x)),
        Cell::Awarded(x) => Said::Awarded(f64::to_bits(x)),
        Cell::Alone => Said::Alone,
    }
}

// An answer for a cell, as it is said.
fn said_cell(answer: Result<Cell, Refused>) -> Said
    requires { Numbered (cell_answer answer) }
    ensures { saying result ≡ said_cell (cell_answer answer) }
{
    match answer {
        Ok(cell) => said_entered(cell),
        Err(refused) => Said::Refused(refused),
    }
}

// The cell of a result in the top tally.
fn cell_step(s: Stack, given: Given) -> Step
    ensures { stepped result ≡ cell_step s given }
{
    let Some(t) = top(s) else {
        return stop(s);
    };
    let holders = holders_of(given.deal);
    let said = said_cell(percentages::cell_of(t, given.score, &holders));
    Step { stack: s, said }
}

// An award, which no tally takes.
fn award_step(s: Stack, percent: u32) -> Step
    ensures { stepped result ≡ award_step s percent }
{
    let said = said_cell(percentages::award(percent));
    Step { stack: s, said }
}

// A call on a stack, or none where a line could not be read. That, and a stack that is too short or too full, end the run.
#[tactic(auto, unfolding(crate::specs::Stacks::step_of))]
pub fn make_call(s: Stack, call: Option<Call>) -> Step
    ensures { stepped result ≡ step_of s call }
{
    let Some(made) = call else {
        return stop(s);
    };
    match made {
        Call::Fresh(board) => fresh_step(s, board),
        Call::Add(given) => add_step(s, given),
        Call::Merge => merge_step(s),
        Call::Matchpoints(given) => matchpoints_step(s, given),
        Call::Cell(given) => cell_step(s, given),
        Call::Award(percent) => award_step(s, percent),
    }
}
