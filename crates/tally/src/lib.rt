// Tallies of one board: what they are, which are well formed, and fresh ones. `refusals` has the refusals of the calls on them, one by one.
#![tactic(auto)]

mod refusals;

ghost use Rattle.std.specs.Prelude.{◌≡◌, [], ◌≤◌, length, drop};
ghost use Rattle.tally.specs.Tallies.{tally_for, all_zero, in_places, carries, well_formed, tallied_of, fresh_of};
ghost use Rattle.tally.specs.Steps.{sized, check_of};

use deal::take_places;
use laws::{Refusal, Refused};
use refusals::same_deal;
pub use refusals::{
    boards_refusal, dealt_refusal, fouled_refusal, given_refusal, kept_deal, room_refusal,
};
use score::valid;

// A board with the deal of its results, the holders of the 52 cards, and with its distinct scores, highest first, and the number of results of each; unused
// places are zero, and those of the deal where there is no result. Scores and counts are two arrays of fixed length: a rule of the project (no heap, fixed
// memory), and `Shape`, `count_in` and the 398 bytes speak of them. Loops over entries go by the place, which reads both arrays. That a tally is well formed
// is no ghost field: nobody's tally is trusted, and 17 is answered for one that is not.
#[derive(Clone, Copy, Debug, PartialEq, Eq)]
pub struct Tally {
    pub board: u8,
    pub deal: [u8; 52],
    pub scores: [i16; 128],
    pub counts: [u8; 128],
}

// A score with its number of results.
#[derive(Clone, Copy, Debug, PartialEq, Eq)]
pub struct Entry {
    pub score: i16,
    pub count: u8,
}

// How many places of a tally are used, and how many results it has.
#[derive(Clone, Copy, Debug, PartialEq, Eq)]
pub struct Size {
    pub used: usize,
    pub results: u8,
}

// Whether nothing but zeros stands from a place on. What is not zero is counted, and no place ends the pass, so that the compiler takes many at once.
fn zeros_from(scores: &[i16; 128], counts: &[u8; 128], at: usize) -> bool
    requires { (at ≤ 128) × (length scores.now ≡ 128) × (length counts.now ≡ 128) }
    ensures { result ≡ all_zero (drop at scores.now) (drop at counts.now) }
{
    let mut others: u16 = 0;
    for i in at..128 {
        others += u16::from(scores[i] != 0) + u16::from(counts[i] != 0);
    }
    others == 0
}

// The size where board and places are as described, a board from 1 to 127, valid scores that fall, at most 128 results, and zeros after them; in one pass.
fn check_places(t: Tally) -> Option<Size>
    ensures { result ≡ sized (in_places t) t }
{
    if t.board == 0 {
        return None;
    }
    if 127 < t.board {
        return None;
    }
    let mut top: i16 = 7601;
    let mut room: u8 = 128;
    for i in 0..128 {
        let c = t.counts[i];
        if c == 0 {
            if !zeros_from(&t.scores, &t.counts, i) {
                return None;
            }
            return Some(Size {
                used: i,
                results: 128 - room,
            });
        }
        let s = t.scores[i];
        if !valid(s) {
            return None;
        }
        if top <= s {
            return None;
        }
        if room < c {
            return None;
        }
        room -= c;
        top = s;
    }
    Some(Size {
        used: 128,
        results: 128 - room,
    })
}

// Whether a tally with so many results carries what it has to: a deal with thirteen cards a seat, or none.
fn carries_deal(holders: [u8; 52], results: u8) -> bool
    ensures { result ≡ carries holders results }
{
    if results == 0 {
        return same_deal(holders, [0u8; 52]);
    }
    take_places(holders).is_ok()
}

// The size of a tally that is as described, its deal too; else 17.
pub fn check(t: Tally) -> Result<Size, Refused>
    ensures { result ≡ check_of t }
{
    let Some(size) = check_places(t) else {
        return Err(Refusal::MalformedTally.at(0));
    };
    if !carries_deal(t.deal, size.results) {
        return Err(Refusal::MalformedTally.at(0));
    }
    Ok(size)
}

// Whether a tally is as described.
pub fn well_formed(t: Tally) -> bool
    ensures { result ≡ well_formed t }
{
    check(t).is_ok()
}

// The tally of a board and a deal without a result.
pub fn empty(board: u8, holders: [u8; 52]) -> Tally
    ensures { result ≡ tally_for board holders [] }
{
    Tally {
        board,
        deal: holders,
        scores: [0i16; 128],
        counts: [0u8; 128],
    }
}

// A fresh tally of a board; 3 for a board outside 1 to 127.
pub fn fresh(board: u8) -> Result<Tally, Refused>
    ensures { tallied_of result ≡ fresh_of board }
{
    match board {
        1..=127 => Ok(empty(board, [0u8; 52])),
        _ => Err(Refusal::NoBoardOrTable.at(0)),
    }
}
