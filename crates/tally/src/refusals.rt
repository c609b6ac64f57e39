// The refusals of tally calls, one by one and in their order.
ghost use Rattle.std.specs.Prelude.{◌≡◌};
ghost use Rattle.laws.specs.Refusals.{fouled_board};
ghost use Rattle.laws.specs.Refused.{placed_of, placed_by};
ghost use Rattle.laws.specs.Tally.{same_deal, refusal_if, boards_refusal, room_refusal};
ghost use Rattle.tally.specs.Steps.{apart, kept_deal, held, given_by, dealt_by};

use deal::{Dealt, take};
use laws::{Refusal, Refused};
use score::valid;

// 18 for two boards.
pub fn boards_refusal(board: u8, board2: u8) -> Result<(), Refused>
    ensures { held result ≡ boards_refusal board board2 }
{
    if board == board2 {
        return Ok(());
    }
    Err(Refusal::TwoBoards.at(0))
}

// 19 where so many results and so many more are over 128.
pub fn room_refusal(results: u8, more: u8) -> Result<(), Refused>
    ensures { held result ≡ room_refusal results more }
{
    if 128 < u16::from(results) + u16::from(more) {
        return Err(Refusal::TooManyResults.at(0));
    }
    Ok(())
}

// Whether two deals are the same, bit for bit. The cards whose holders differ are counted, and no card ends the pass, so that the compiler takes many at
// once.
pub(crate) fn same_deal(holders: [u8; 52], holders2: [u8; 52]) -> bool
    ensures { result ≡ same_deal holders holders2 }
{
    let mut others: u8 = 0;
    for i in 0..52 {
        others += u8::from(holders[i] != holders2[i]);
    }
    others == 0
}

// 28 where there are results of both deals and the deals differ.
pub fn fouled_refusal(
    holders: [u8; 52],
    results: u8,
    holders2: [u8; 52],
    others: u8,
) -> Result<(), Refused>
    ensures { held result ≡ refusal_if (apart results others holders holders2) fouled_board }
{
    if results == 0 || others == 0 || same_deal(holders, holders2) {
        return Ok(());
    }
    Err(Refusal::FouledBoard.at(0))
}

// The deal of the first of two tallies, by its number of results; of the second where the first has none.
pub fn kept_deal(results: u8, holders: [u8; 52], holders2: [u8; 52]) -> [u8; 52]
    ensures { result ≡ kept_deal results holders holders2 }
{
    if results == 0 { holders2 } else { holders }
}

// The holders of a score's deal as it was taken; or 20 for the score, the refusal of the deal, or 28, beside so many results of the deal that a tally carries.
pub fn dealt_refusal(
    carried: [u8; 52],
    results: u8,
    score: i16,
    dealt: Result<Dealt, Refused>,
) -> Result<[u8; 52], Refused>
    ensures { placed_of result ≡ dealt_by carried results score dealt }
{
    if !valid(score) {
        return Err(Refusal::InvalidScore.at(0));
    }
    let taken = dealt?;
    fouled_refusal(carried, results, taken.holders, 1)?;
    Ok(taken.holders)
}

// The holders of a score's deal; or 20, 4 or 28 for the score with them, beside so many results of the deal that a tally carries.
pub fn given_refusal(
    carried: [u8; 52],
    results: u8,
    score: i16,
    holders: &[u8],
) -> Result<[u8; 52], Refused>
    ensures { placed_of result
        ≡ placed_by (given_by carried results score holders.now).number (given_by carried results score holders.now).place holders.now }
{
    dealt_refusal(carried, results, score, take(holders))
}
