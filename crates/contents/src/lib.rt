// A record's contents, given as plain numbers, checked in the judge's order.
#![tactic(auto)]

mod calls;
mod plays;
mod runs;
mod sections;

ghost use Rattle.std.specs.Prelude.{◌≡◌, List, ℕ};
ghost use Rattle.laws.specs.Contents.{contents_of};
ghost use Rattle.laws.specs.Refused.{placed_of};
ghost use Rattle.deal.specs.Hands.{words_of};
ghost use Rattle.auction.specs.Position.{position_of};
ghost use Rattle.position.specs.History.{ThirteenEach};
ghost use Rattle.contents.specs.Checked.{after_calls, checked};
ghost use Rattle.contents.specs.Given.{claimed, given_with};

use crate::plays::check_plays;
use crate::sections::check_claim;
use auction::Auction;
pub use calls::take_calls;
use deal::Dealt;
use laws::Refused;
pub use plays::{count_cards, has_code};
use position::Start;
pub use sections::check_heading;

// The numbers that are given of a record, whatever they are.
#[derive(Clone, Copy, Debug)]
pub struct Given<'a> {
    pub board: u32,
    pub table: u32,
    pub holders: &'a [u8],
    pub calls: &'a [u8],
    // The cards and the codes among them, a flat list.
    pub plays: &'a [u8],
    // How many tricks are claimed, where there is a claim.
    pub claim: Option<u32>,
}

// What follows the calls: the plays and the claim.
fn check_play(dealt: Dealt, a: Auction, plays: &[u8], claim: Option<u32>) -> Result<(), Refused>
    requires hands { dealt.hands ≡ words_of dealt.holders }
    requires thirteen { ThirteenEach dealt.holders }
    ensures { (d : ℕ) (h : List ℕ) → a ≡ position_of d h → placed_of result ≡ after_calls d dealt.holders h plays.now (claimed claim) }
{
    let out = a.is_passed_out();
    let k = a.contract();
    let cards = count_cards(plays);
    let holders = dealt.holders;
    let hands = dealt.hands;
    let start = Start {
        holders,
        hands,
        trump: k.strain,
        opening: k.opening_leader(),
    };
    check_plays(plays, start, out, cards)?;
    check_claim(out, cards as u8, claim)
}

// The contents.
pub fn check_contents(given: Given) -> Result<(), Refused>
    ensures { placed_of result ≡ checked (contents_of (given_with given.entry.board given.entry.table
        given.entry.holders.now given.entry.calls.now given.entry.plays.now given.entry.claim)) }
{
    check_heading(given.board, given.table)?;
    let dealt = deal::take(given.holders)?;
    let after = take_calls(given.calls, deal::dealer(given.board as u8))?;
    check_play(dealt, after, given.plays, given.claim)
}
