// The record up to its last card: its sections read in order.
ghost use Rattle.std.specs.Prelude.{◌≡◌, List, ℕ, ◌<◌, ◌≤◌};
ghost use Rattle.laws.specs.LastCard.{read_to_last_card};
ghost use Rattle.laws.specs.Refused.{placed_of};
ghost use Rattle.deal.specs.Hands.{words_of};
ghost use Rattle.position.specs.History.{ThirteenEach};
ghost use Rattle.last_card.specs.Reached.{reached_of, OfCalls, after_calls};

use crate::cards::read_cards;
use crate::reading::{Heading, Read, read_calls, read_deal, read_heading};
use auction::{Auction, Contract};
use deal::Dealt;
use laws::Refused;
use position::{Start, Table};

// Board and table, whether the board was passed out, the contract, and the position after the last card.
#[derive(Clone, Copy, Debug, PartialEq, Eq)]
pub struct Reached {
    pub board: u8,
    pub table: u16,
    pub out: bool,
    pub contract: Contract,
    pub after: Table,
}

// The cards, behind the calls.
fn read_play(
    bytes: &[u8],
    top: Heading,
    dealt: Dealt,
    a: Auction,
    at: usize,
) -> Result<Read<Reached>, Refused>
    requires to { at < 16384 }
    requires hands { dealt.hands ≡ words_of dealt.holders }
    requires thirteen { ThirteenEach dealt.holders }
    ensures { (h : List ℕ) → OfCalls top.board a dealt.holders h
        → placed_of result ≡ reached_of (after_calls top.board top.table dealt.holders h bytes.now at) }
{
    let out = a.is_passed_out();
    let contract = a.contract();
    let holders = dealt.holders;
    let hands = dealt.hands;
    let start = Start {
        holders,
        hands,
        trump: contract.strain,
        opening: contract.opening_leader(),
    };
    let cards = read_cards(bytes, start, out, at)?;
    Ok(Read {
        value: Reached {
            board: top.board,
            table: top.table,
            out,
            contract,
            after: cards.value,
        },
        next: cards.next,
    })
}

// The record up to its last card.
pub fn read_to_last_card(bytes: &[u8]) -> Result<Read<Reached>, Refused>
    ensures { placed_of result ≡ reached_of (read_to_last_card bytes.now 0) }
{
    let top = read_heading(bytes)?;
    let dealt = read_deal(bytes)?;
    let calls = read_calls(bytes, deal::dealer(top.board), 120)?;
    read_play(bytes, top, dealt, calls.value, calls.next)
}
