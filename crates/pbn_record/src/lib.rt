// A table record from a text of Portable Bridge Notation, for C.
#![tactic(auto)]

mod tags;

ghost use Rattle.std.specs.Prelude.{◌≡◌, ◌<◌, ◌≤◌, reverse, length, Ok};
ghost use Rattle.std.specs.Result.{IfOk};
ghost use Rattle.laws.specs.Auction.{trump_after};
ghost use Rattle.laws.specs.PbnText.{Sayable};
ghost use Rattle.laws.specs.PbnText as Text;
ghost use Rattle.laws.specs.PbnReading.{game};
ghost use Rattle.laws.specs.Writing.{write_of, number_of, record_left};
ghost use Rattle.laws.specs.Pbn.{read_pbn, contents_in};
ghost use Rattle.laws.specs.Refused.{placed_of};
ghost use Rattle.pbn_text.specs.GameIn.{game_in};
ghost use Rattle.pbn_record.specs.Tags.{cards_in};
ghost use Rattle.writer.specs.Answer.{written_by};

use crate::tags::take_tags;
use contents::Given;
use laws::{Refusal, Refused};
use pbn_order::order_of_play;
use pbn_text::{Game, read_game};
use writer::write_record;

// How many cards Play lists.
fn cards_listed(seat: Option<u8>) -> usize
    ensures { (result ≡ cards_in seat) × (result ≤ 52) }
{
    match seat {
        Some(_) => 52,
        None => 0,
    }
}

// Writes the record of what stands in a text, the cards in order of play, with no claim.
fn write_game(g: Game, table: u32, trump: u8, out: &mut [u8]) -> Result<usize, Refused>
    requires { g.calls.count ≤ 511 }
    ensures answer { (x : Text.Game) → Sayable x → Ok g ≡ game_in (game x) → trump ≡ trump_after (reverse x.calls)
        → placed_of result ≡ written_by (write_of (contents_in x table) (length out.old)) }
    ensures most { IfOk result (λ size. size < 1024) }
    ensures left { (x : Text.Game) → Sayable x → Ok g ≡ game_in (game x) → trump ≡ trump_after (reverse x.calls)
        → out.new ≡ record_left (write_of (contents_in x table) (length out.old)) out.old }
{
    let holders = g.holders;
    let kept = g.calls;
    let numbers = kept.numbers;
    let count = kept.count;
    let columns = g.cards;
    let cards = order_of_play(columns, trump, g.seat.unwrap_or(0));
    let n = cards_listed(g.seat);
    let given = Given {
        board: g.board,
        table,
        holders: &holders,
        calls: &numbers[..count],
        plays: &cards[..n],
        claim: None,
    };
    write_record(given, out)
}

// Reads a text of Portable Bridge Notation and writes its record at a table over the front of a buffer. The answer is how many bytes were written; or a refusal
// with its place, with the buffer as it was: 32 and the line where the text leaves the subset, and then what the writer refuses its contents with, 32 for the
// seat of a tag among it.
pub fn read_pbn(text: &[u8], table: u32, out: &mut [u8]) -> Result<usize, Refused>
    ensures answer { placed_of result ≡ written_by (read_pbn text.now table (length out.old)) }
    ensures most { IfOk result (λ size. size < 1024) }
    ensures left { out.new ≡ record_left (read_pbn text.now table (length out.old)) out.old }
{
    match read_game(text) {
        Ok(g) => {
            let trump = take_tags(g, table)?;
            write_game(g, table, trump, out)
        }
        Err(line) => Err(Refusal::OutsideSubset.at(line as u16)),
    }
}

// Says it by a number: how many bytes were written, which is below 1024, or the refusal × 1024 + its place.
pub fn judge_read_pbn(text: &[u8], table: u32, out: &mut [u8]) -> u32
    ensures number { result ≡ number_of (read_pbn text.now table (length out.old)) }
    ensures left { out.new ≡ record_left (read_pbn text.now table (length out.old)) out.old }
{
    match read_pbn(text, table, out) {
        Ok(size) => size as u32,
        Err(refused) => u32::from(refused),
    }
}
