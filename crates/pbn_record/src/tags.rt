// What stands in a text checked up to Play's tag: board and table, deal and calls as a record's contents are, and the seats of the tags among them.
ghost use Rattle.std.specs.Prelude.{◌≡◌, Ok, List, [], ℕ, ◌+◌, ◌/◌, ◌≤◌, ◌<◌};
ghost use Rattle.laws.specs.PbnText.{Listed, Listable, Sayable};
ghost use Rattle.laws.specs.PbnText as Text;
ghost use Rattle.laws.specs.PbnReading.{game};
ghost use Rattle.laws.specs.Pbn.{play_stands};
ghost use Rattle.laws.specs.Refused.{placed_of};
ghost use Rattle.auction.specs.Position.{position_of};
ghost use Rattle.pbn_text.specs.Kept.{kept_of};
ghost use Rattle.pbn_text.specs.TextOf.{seat_of};
ghost use Rattle.pbn_text.specs.GameIn.{game_in};
ghost use Rattle.pbn_record.specs.Tags.{trump_by, take_auction, take_tags};

use auction::Auction;
use contents::{check_heading, take_calls};
use laws::{Refusal, Refused};
use pbn_text::{Game, Numbers};

// Whether Play is there where there is a contract, with the opening leader's seat, and not on a board that was passed out.
fn play_stands(a: Auction, seat: Option<u8>) -> bool
    ensures { (d : ℕ) (h : List ℕ) (listed : Listed) → a ≡ position_of d h → seat ≡ seat_of listed → Listable listed
        → result ≡ play_stands d h listed }
{
    let out = a.is_passed_out();
    let Some(leader) = seat else {
        return out;
    };
    if out {
        return false;
    }
    let k = a.contract();
    leader == k.opening_leader()
}

// The line after the last line of so many calls.
fn play_line(calls: usize) -> u16
    requires { calls ≤ 511 }
    ensures { result ≡ 4 + (calls + 3) / 4 }
{
    (4 + (calls + 3) / 4) as u16
}

// The calls, and Play's tag: the trump after the calls, or the first refusal with its place.
fn take_auction(calls: Numbers, dealer: u8, seat: Option<u8>) -> Result<u8, Refused>
    ensures { (l : List ℕ) (listed : Listed) → calls ≡ kept_of l → seat ≡ seat_of listed → Listable listed
        → placed_of result ≡ trump_by (take_auction dealer l listed [] 0) }
{
    let count = calls.count;
    if 511 < count {
        return Err(Refusal::TooManyCalls.at(511));
    }
    let numbers = calls.numbers;
    let after = take_calls(&numbers[..count], dealer)?;
    if !play_stands(after, seat) {
        return Err(Refusal::OutsideSubset.at(play_line(count)));
    }
    Ok(after.contract().strain)
}

// The checks of a game up to Play's tag: the trump after the calls, or the first refusal with its place.
pub(crate) fn take_tags(g: Game, table: u32) -> Result<u8, Refused>
    ensures { (x : Text.Game) → Sayable x → Ok g ≡ game_in (game x) → placed_of result ≡ trump_by (take_tags x table [] 0) }
{
    check_heading(g.board, table)?;
    let dealer = deal::dealer(g.board as u8);
    if g.caller != dealer {
        return Err(Refusal::OutsideSubset.at(3));
    }
    let holders = g.holders;
    deal::take(&holders)?;
    take_auction(g.calls, dealer, g.seat)
}
