// A result added to a tally, and two tallies merged: their refusals in order, and the tally made.
ghost use Rattle.std.specs.Prelude.{◌≡◌, [], ◌∷◌};
ghost use Rattle.tally.specs.Tallies.{tally_for, tallied_of, add_of, merge_of};

use super::joined;
use laws::Refused;
use tally::{
    Tally, boards_refusal, check, empty, fouled_refusal, given_refusal, kept_deal, room_refusal,
};

// One score in a tally without a result.
fn single(none: Tally, score: i16) -> Tally
    requires { none ≡ tally_for none.board none.deal [] }
    ensures { result ≡ tally_for none.board none.deal (score ∷ []) }
{
    let mut u = none;
    u.scores[0] = score;
    u.counts[0] = 1;
    u
}

// One more result: a score with the holders of the cards that were played; 17, 20, 4, 28 or 19.
pub fn add(t: Tally, score: i16, holders: &[u8]) -> Result<Tally, Refused>
    ensures { tallied_of result ≡ add_of t (record { score = score; deal = holders.now }) }
{
    let x = check(t)?;
    let row = given_refusal(t.deal, x.results, score, holders)?;
    room_refusal(x.results, 1)?;
    let none = empty(t.board, row);
    let one = single(none, score);
    let grown = joined(none, t, x.used, one, 1);
    Ok(grown)
}

// The results of two tallies of one board and one deal; 17, 18, 28 or 19.
pub fn merge(a: Tally, b: Tally) -> Result<Tally, Refused>
    ensures { tallied_of result ≡ merge_of a b }
{
    let x = check(a)?;
    let y = check(b)?;
    boards_refusal(a.board, b.board)?;
    fouled_refusal(a.deal, x.results, b.deal, y.results)?;
    room_refusal(x.results, y.results)?;
    let kept = kept_deal(x.results, a.deal, b.deal);
    let none = empty(a.board, kept);
    let both = joined(none, a, x.used, b, y.used);
    Ok(both)
}
