// What was read of a text, line by line. A line where the reading stops leaves nothing.
ghost use Rattle.std.specs.Prelude.{◌≡◌, List, ℕ};
ghost use Rattle.laws.specs.PbnText.{columns, Game};
ghost use Rattle.laws.specs.PbnReading.{board, deal, auction, cards, calls_in, play_in, line_in};
ghost use Rattle.laws.specs.PbnReading as Law;
ghost use Rattle.pbn_text.specs.TextOf.{text_of, kept_after};

use crate::numbers::{Numbers, with_row};
use pbn_deal::deal_in;
use pbn_words::{board_in, row_in, seat_in};

// What the next line is: Board, Deal or Auction; the first line of calls, one after full lines of them, or what follows a last one of fewer; or a line of
// cards, of which so many are left.
#[derive(Clone, Copy, Debug, PartialEq, Eq)]
pub(crate) enum Stage {
    Board,
    Deal,
    Auction,
    FirstCalls,
    Calls,
    CallsOver,
    Cards { rows: usize },
}

// What was read so far; no seat where there is no Play.
#[derive(Clone, Copy)]
pub(crate) struct Text {
    pub stage: Stage,
    pub board: u32,
    pub caller: u8,
    pub seat: Option<u8>,
    pub holders: [u8; 52],
    pub calls: Numbers,
    pub cards: Numbers,
}

// The Board line.
pub(crate) fn board_line(t: Text, line: &[u8]) -> Option<Text>
    ensures { (x : Game) → t ≡ text_of (record { stage = board; game = x }) → result ≡ kept_after (line_in board x line.now) }
{
    let board = board_in(line)?;
    Some(Text {
        stage: Stage::Deal,
        board,
        ..t
    })
}

// The Deal line.
pub(crate) fn deal_line(t: Text, line: &[u8]) -> Option<Text>
    ensures { (x : Game) → t ≡ text_of (record { stage = deal; game = x }) → result ≡ kept_after (line_in deal x line.now) }
{
    let dealt = deal_in(line)?;
    let holders = dealt.holders;
    Some(Text {
        stage: Stage::Auction,
        holders,
        ..t
    })
}

// The Auction tag.
pub(crate) fn auction_line(t: Text, line: &[u8]) -> Option<Text>
    ensures { (x : Game) → t ≡ text_of (record { stage = auction; game = x }) → result ≡ kept_after (line_in auction x line.now) }
{
    let caller = seat_in(line, b"[Auction \"")?;
    Some(Text {
        stage: Stage::FirstCalls,
        caller,
        ..t
    })
}

// The Play tag.
pub(crate) fn play_line(t: Text, line: &[u8]) -> Option<Text>
    ensures { (stage : Law.Stage) (x : Game) → t ≡ text_of (record { stage = stage; game = x }) → result ≡ kept_after (play_in x line.now) }
{
    let seat = seat_in(line, b"[Play \"")?;
    Some(Text {
        stage: Stage::Cards { rows: 13 },
        seat: Some(seat),
        cards: Numbers::default(),
        ..t
    })
}

// A line of calls.
pub(crate) fn calls_line(t: Text, line: &[u8]) -> Option<Text>
    ensures { (stage : Law.Stage) (x : Game) → t ≡ text_of (record { stage = stage; game = x }) → result ≡ kept_after (calls_in x line.now) }
{
    let row = row_in(line, false)?;
    let calls = with_row(t.calls, row);
    if row.count == 4 {
        return Some(Text {
            stage: Stage::Calls,
            calls,
            ..t
        });
    }
    Some(Text {
        stage: Stage::CallsOver,
        calls,
        ..t
    })
}

// A line of cards, of which so many are left.
pub(crate) fn cards_line(t: Text, rows: usize, line: &[u8]) -> Option<Text>
    ensures { (x : Game) (seat : ℕ) (l : List ℕ) → t ≡ text_of (record { stage = cards rows; game = x }) → x.play ≡ columns seat l
        → result ≡ kept_after (line_in (cards rows) x line.now) }
{
    if rows == 0 {
        return None;
    }
    let row = row_in(line, true)?;
    if row.count != 4 {
        return None;
    }
    Some(Text {
        stage: Stage::Cards { rows: rows - 1 },
        cards: with_row(t.cards, row),
        ..t
    })
}
