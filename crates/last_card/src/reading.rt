// The record up to the last call, read in order: board and table, deal, calls. Each section is read as the Laws' section of that name is.
ghost use Rattle.std.specs.Prelude.{◌≡◌, [], ◌+◌, ◌*◌, ◌<◌, ◌≤◌, length};
ghost use Rattle.laws.specs.CallRefusal.{call_refusal, call_place};
ghost use Rattle.laws.specs.Reading.{read_each};
ghost use Rattle.laws.specs.Judge.{read_heading, read_deal, read_calls};
ghost use Rattle.laws.specs.Refused.{placed_of, placed_in};
ghost use Rattle.last_card.specs.Sections.{heading_of, calls_of, deal_of, row_at, fours_of};

use crate::codes::{code_ending, whole_codes};
use auction::Auction;
use deal::Dealt;
use laws::{Refusal, Refused};

// What was read, and the bit behind it. How far that bit may lie is asked for where bits are added to it: each step leaves another bound, so that a type with
// one bound would ask for as much at each step.
#[derive(Clone, Copy)]
pub struct Read<T> {
    pub value: T,
    pub next: usize,
}

// Board and table.
#[derive(Clone, Copy, Debug, PartialEq, Eq)]
pub struct Heading {
    pub board: u8,
    pub table: u16,
}

// Board and table, from the first bit on.
pub(crate) fn read_heading(bytes: &[u8]) -> Result<Heading, Refused>
    ensures { placed_of result ≡ placed_in heading_of (read_heading bytes.now 0) }
{
    let board = field::read(bytes, 0, 7)?;
    let table = field::read(bytes, 7, 9)?;
    if board == 0 {
        return Err(Refusal::NoBoardOrTable.at(0));
    }
    if table == 0 {
        return Err(Refusal::NoBoardOrTable.at(1));
    }
    Ok(Heading {
        board: board as u8,
        table,
    })
}

// So many calls from a bit on, each judged on those before it.
fn read_each_call(bytes: &[u8], dealer: u8, at: usize, count: u16) -> Result<Read<Auction>, Refused>
    requires to { at < 65536 }
    requires count { count < 512 }
    ensures { placed_of result ≡ calls_of dealer (read_each 6 (call_place dealer) (call_refusal dealer) count [] bytes.now at) }
{
    let whole = whole_codes(bytes, at, count);
    let mut auction = Auction::new(dealer);
    let mut next = at;
    for i in 0..whole {
        auction = auction.take(code_ending(bytes, next + 5), i)?;
        next += 6;
    }
    if whole < count {
        return Err(Refusal::RecordEnds.at(0));
    }
    Ok(Read {
        value: auction,
        next,
    })
}

// The calls, from their count on.
pub(crate) fn read_calls(bytes: &[u8], dealer: u8, at: usize) -> Result<Read<Auction>, Refused>
    requires { at < 32768 }
    ensures { placed_of result ≡ calls_of dealer (read_calls dealer bytes.now at) }
{
    let count = field::read(bytes, at, 9)?;
    let calls = read_each_call(bytes, dealer, at + 9, count)?;
    let after = calls.value;
    if !after.is_over() {
        return Err(Refusal::AuctionUnfinished.at(count));
    }
    Ok(calls)
}

// For each card the byte that has its holder; four cards share one, from the third byte on.
fn bytes_of_cards(bytes: &[u8]) -> [u8; 52]
    requires { 15 ≤ length bytes.now }
    ensures { result ≡ fours_of bytes.now 52 }
{
    let mut row = [0u8; 52];
    for i in 0..52 {
        row[i] = bytes[2 + i / 4];
    }
    row
}

// The holders of the 52 cards: two bits each of the byte that has four of them.
fn holders(bytes: &[u8]) -> [u8; 52]
    requires { 15 ≤ length bytes.now }
    ensures { result ≡ row_at bytes.now 16 2 52 }
{
    let fours = bytes_of_cards(bytes);
    let mut row = [0u8; 52];
    for i in 0..52 {
        row[i] = (fours[i] >> (6 - 2 * (i % 4))) % 4;
    }
    row
}

// The deal, which stands behind board and table. `deal::take_places` asks besides whether each holder is a seat, which two bits always are.
pub(crate) fn read_deal(bytes: &[u8]) -> Result<Dealt, Refused>
    ensures { placed_of result ≡ deal_of (read_deal bytes.now 16) }
{
    if bytes.len() < 15 {
        return Err(Refusal::RecordEnds.at(0));
    }
    let row = holders(bytes);
    let hands = deal::hands(row);
    match deal::seat_without_thirteen(hands) {
        Some(seat) => Err(Refusal::NotThirteen.at(seat as u16)),
        None => Ok(Dealt {
            holders: row,
            hands,
        }),
    }
}
