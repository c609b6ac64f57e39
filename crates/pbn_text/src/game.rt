// What stands in a text, for those who ask for it.
ghost use Rattle.std.specs.Prelude.{◌≡◌, take};
ghost use Rattle.laws.specs.PbnReading.{parse};
ghost use Rattle.laws.specs.Sheet.{newline};
ghost use Rattle.parts.specs.Parts.{part_length};
ghost use Rattle.pbn_text.specs.GameIn.{game_in};

use crate::numbers::Numbers;
use crate::text::read_text;
use parts::part_end;

// No seat where there is no Play. `calls` are kept as far as a record can count them.
#[derive(Clone, Copy)]
pub struct Game {
    pub board: u32,
    pub caller: u8,
    pub seat: Option<u8>,
    pub holders: [u8; 52],
    pub calls: Numbers,
    pub cards: [u8; 52],
}

// The first 52 numbers that are kept.
fn first_cards(kept: Numbers) -> [u8; 52]
    ensures { result ≡ take 52 kept.numbers }
{
    let mut cards = [0u8; 52];
    cards.copy_from_slice(&kept.numbers[..52]);
    cards
}

// Where the first line ends: at its newline, or at the end where there is none.
pub fn line_end(text: &[u8]) -> usize
    ensures { result ≡ part_length newline text.now }
{
    part_end(text, 0, b'\n')
}

// What stands in a text of Portable Bridge Notation; or the line up to which no text of the subset agrees, at most 1023, and nothing else is told.
pub fn read_game(text: &[u8]) -> Result<Game, u32>
    ensures { result ≡ game_in (parse text.now) }
{
    let t = read_text(text)?;
    let holders = t.holders;
    let cards = first_cards(t.cards);
    Ok(Game {
        board: t.board,
        caller: t.caller,
        seat: t.seat,
        holders,
        calls: t.calls,
        cards,
    })
}
