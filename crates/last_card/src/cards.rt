// The cards, read in order and judged each on those before it, as the Laws' section of that name is; from the first code on, with the codes among them.
ghost use Rattle.std.specs.Prelude.{◌≡◌, [], ◌+◌, ◌*◌, ◌<◌, ◌≤◌, if◌then◌else◌};
ghost use Rattle.laws.specs.CodeRefusal.{most_codes};
ghost use Rattle.laws.specs.Plays.{read_plays};
ghost use Rattle.laws.specs.Refused.{placed_of};
ghost use Rattle.last_card.specs.Sections.{cards_of, cards_by, Stopping};

use crate::codes::whole_codes;
use crate::plays::{CardCount, read_plays};
use crate::reading::Read;
use crate::runs::{NotPlayed, Run, read_run};
use laws::{Refusal, Refused};
use penalty::begins_code;
use position::{Start, Table};

// The cards from where the run stopped on, up to so many.
fn read_stopped(
    bytes: &[u8],
    run: Run,
    at: NotPlayed,
    opening: u8,
    count: CardCount,
) -> Result<Read<Table>, Refused>
    requires to { run.next < 32768 }
    requires place { run.place ≤ count.cards }
    ensures { Stopping bytes.now run at opening count.cards (placed_of result) }
{
    if begins_code(at.code) {
        let table = Table::after_cards(run.play, opening);
        return read_plays(bytes, table, run.next, run.place, count);
    }
    Err(at.refusal.at(run.place))
}

// So many cards from a bit on, each judged on those before it.
fn read_each_card(
    bytes: &[u8],
    start: Start,
    at: usize,
    count: CardCount,
) -> Result<Read<Table>, Refused>
    requires to { at < 32000 }
    ensures { placed_of result ≡ cards_of start.holders start.trump start.opening
        (read_plays start.trump start.opening start.holders count.cards most_codes [] bytes.now at) }
{
    let whole = whole_codes(bytes, at, count.cards);
    let run = read_run(bytes, start.play(), at, whole);
    if let Some(stop) = run.stopped {
        return read_stopped(bytes, run, stop, start.opening, count);
    }
    if whole < count.cards {
        return Err(Refusal::RecordEnds.at(0));
    }
    Ok(Read {
        value: Table::after_cards(run.play, start.opening),
        next: run.next,
    })
}

// The most cards that may be played: none on a board that was passed out.
fn most_cards(out: bool) -> u16
    ensures { result ≡ (if out then 0 else 52) }
{
    if out { 0 } else { 52 }
}

// The cards, from their count on; `out` says that the board was passed out.
pub(crate) fn read_cards(
    bytes: &[u8],
    start: Start,
    out: bool,
    at: usize,
) -> Result<Read<Table>, Refused>
    requires to { at < 16384 }
    ensures { placed_of result ≡ cards_of start.holders start.trump start.opening
        (cards_by out start.trump start.opening start.holders bytes.now at) }
{
    let count = field::read(bytes, at, 6)?;
    if most_cards(out) < count {
        return Err(Refusal::TooManyCards.at(count));
    }
    read_each_card(bytes, start, at + 6, CardCount { cards: count })
}
