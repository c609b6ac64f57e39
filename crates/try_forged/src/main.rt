// Tries a tally of each forged kind through every call, on either side of a merge. A line has the kind, whether the tally is well formed (1 or 0),
// and the refusals of: a score added, merged as the first, merged as the second, merged with itself, matchpoints asked.
#![tactic(auto)]

use deal::SUITS;
use laws::Refused;
use std::io;
use std::io::Write;
use tally::Tally;

// A tally as described: board 7, one deal, with 450 once, 420 twice and -50 once.
fn described() -> Tally {
    let mut t = Tally {
        board: 7,
        deal: SUITS,
        scores: [0i16; 128],
        counts: [0u8; 128],
    };
    t.scores[0] = 450;
    t.counts[0] = 1;
    t.scores[1] = 420;
    t.counts[1] = 2;
    t.scores[2] = -50;
    t.counts[2] = 1;
    t
}

// The tally with another board.
fn with_board(board: u8) -> Tally {
    let mut t = described();
    t.board = board;
    t
}

// The tally with another score and count at a place.
fn with_entry(place: usize, score: i16, count: u8) -> Tally {
    let mut t = described();
    if place < 128 {
        t.scores[place] = score;
        t.counts[place] = count;
    }
    t
}

// The tally with other holders of two cards.
fn with_holders(card: usize, holder: u8, card2: usize, holder2: u8) -> Tally {
    let mut t = described();
    if card < 52 {
        t.deal[card] = holder;
    }
    if card2 < 52 {
        t.deal[card2] = holder2;
    }
    t
}

// A tally of the board without a result, and with a holder of a card.
fn without_result(card: usize, holder: u8) -> Tally {
    let mut t = Tally {
        board: 7,
        deal: [0u8; 52],
        scores: [0i16; 128],
        counts: [0u8; 128],
    };
    if card < 52 {
        t.deal[card] = holder;
    }
    t
}

// A tally with results and no deal, and one with a deal and no result.
fn without_deal() -> Tally {
    let mut t = described();
    t.deal = [0u8; 52];
    t
}

fn deal_alone() -> Tally {
    let mut t = without_result(0, 0);
    t.deal = SUITS;
    t
}

// The tally that stands beside a refusal where a buffer has one: all zero.
fn zeros() -> Tally {
    tally::empty(0, [0u8; 52])
}

// The number of a refusal, 0 for none. `try_team` has its like, of refusals without a place: one for both would be a crate of its own for one line.
fn refusal_of<T: Copy>(answer: Result<T, Refused>) -> u8 {
    answer.map_or_else(|refused| refused.refusal.number(), |_| 0)
}

// Writes a kind of tally, and what each call answers to one of that kind.
fn line<W: Write>(out: &mut W, kind: &str, t: Tally) -> io::Result<()> {
    let good = described();
    let formed = u8::from(tally::well_formed(t));
    let added = refusal_of(merging::add(t, 100, &SUITS));
    let first = refusal_of(merging::merge(t, good));
    let second = refusal_of(merging::merge(good, t));
    let both = refusal_of(merging::merge(t, t));
    let asked = refusal_of(matchpoints::matchpoints(t, 420, &SUITS));
    writeln!(
        out,
        "{kind} {formed} {added} {first} {second} {both} {asked}"
    )
}

fn main(rt: HostRuntime) -> io::Result<()> {
    let mut out = rt.stdout();
    line(&mut out, "as described:", described())?;
    line(&mut out, "unsorted:", with_entry(1, 460, 2))?;
    line(&mut out, "repeated score:", with_entry(1, 450, 2))?;
    line(
        &mut out,
        "score not a multiple of 10:",
        with_entry(1, 425, 2),
    )?;
    line(&mut out, "score above 7600:", with_entry(0, 7610, 1))?;
    line(&mut out, "score below -7600:", with_entry(2, -7610, 1))?;
    line(
        &mut out,
        "count 0 before a used place:",
        with_entry(1, 420, 0),
    )?;
    line(
        &mut out,
        "count 0 at the first place:",
        with_entry(0, 450, 0),
    )?;
    line(
        &mut out,
        "no entry before a used place:",
        with_entry(1, 0, 0),
    )?;
    line(&mut out, "score in an unused place:", with_entry(3, -60, 0))?;
    line(
        &mut out,
        "score in the last place:",
        with_entry(127, -60, 0),
    )?;
    line(&mut out, "count in an unused place:", with_entry(64, 0, 1))?;
    line(&mut out, "count in the last place:", with_entry(127, 0, 1))?;
    line(&mut out, "129 results:", with_entry(2, -50, 126))?;
    line(&mut out, "257 results:", with_entry(1, 420, 255))?;
    line(&mut out, "board 0:", with_board(0))?;
    line(&mut out, "board 128:", with_board(128))?;
    line(&mut out, "board 255:", with_board(255))?;
    line(&mut out, "beside a refusal:", zeros())?;
    line(&mut out, "another deal:", with_holders(0, 1, 13, 0))?;
    line(
        &mut out,
        "another deal in the last cards:",
        with_holders(26, 3, 39, 2),
    )?;
    line(
        &mut out,
        "a holder that is no seat:",
        with_holders(51, 4, 51, 4),
    )?;
    line(
        &mut out,
        "a seat with twelve cards:",
        with_holders(13, 2, 13, 2),
    )?;
    line(&mut out, "results and no deal:", without_deal())?;
    line(&mut out, "a deal and no result:", deal_alone())?;
    line(
        &mut out,
        "no result, and one holder:",
        without_result(51, 1),
    )?;
    line(&mut out, "no result:", without_result(0, 0))
}
