// The deal: the hands of the four seats as 52-bit words of the holders, thirteen cards each, suits still held, and Law 2. `given` takes holders as they
// are given. The holder of a card is any number: seats are 0 to 3, and a card with another holder is in nobody's hand.
#![tactic(auto)]

mod given;

ghost use Rattle.std.specs.Prelude.{◌≡◌, ◌^◌, ◌%◌, ◌<◌, unwrap_or, IfSome};
ghost use Rattle.laws.specs.Law2;
ghost use Rattle.deal.specs.Sides.{law_of};
ghost use Rattle.deal.specs.Hands.{words_of, suit_bits, has_suit, not_thirteen_from};

pub use given::{Dealt, SUITS, are_seats, take, take_places};

// The bit of a card.
pub fn card_bit(card: usize) -> u64
    ensures { result ≡ 2 ^ (card % 64) }
{
    1u64 << (card % 64)
}

// How many cards of a suit a hand has.
pub fn suit_held(hand: u64, suit: u8) -> u32
    ensures { result ≡ suit_bits hand suit }
{
    if 3 < suit {
        return 0;
    }
    let first = 13 * (suit as usize);
    u64::count_ones(hand / card_bit(first) % 8192)
}

// Whether a hand has a card of a suit.
pub fn holds_suit(hand: u64, suit: u8) -> bool
    ensures { result ≡ has_suit hand suit }
{
    suit_held(hand, suit) != 0
}

// The hands of the four seats, in one pass over the cards.
pub fn hands(holders: [u8; 52]) -> [u64; 4]
    ensures { result ≡ words_of holders }
{
    let mut words = [0u64; 4];
    for (i, holder) in holders.iter().enumerate() {
        if *holder < 4 {
            words[*holder as usize] += card_bit(i);
        }
    }
    words
}

// The first of four hands, in the order North, East, South, West, that has not thirteen cards.
pub fn seat_without_thirteen(hands: [u64; 4]) -> Option<usize>
    ensures first { unwrap_or result 4 ≡ not_thirteen_from 0 hands }
    ensures seat { IfSome result (λ seat. seat < 4) }
{
    hands.iter().position(|hand| hand.count_ones() != 13)
}

// The vulnerable sides of a board.
#[derive(Clone, Copy, Debug, PartialEq, Eq)]
pub enum Vulnerability {
    Neither,
    NorthSouth,
    EastWest,
    Both,
}

use Vulnerability::{Both, EastWest, Neither, NorthSouth};

// Those of boards 1 to 16.
const SIDES: [Vulnerability; 16] = [
    Neither, NorthSouth, EastWest, Both, NorthSouth, EastWest, Both, Neither, EastWest, Both,
    Neither, NorthSouth, Both, Neither, NorthSouth, EastWest,
];

// The dealer of a board.
pub fn dealer(board: u8) -> u8
    ensures { result ≡ Law2.dealer board }
{
    board.saturating_sub(1) % 4
}

// The vulnerable sides of a board.
pub fn vulnerable_sides(board: u8) -> Vulnerability
    ensures { law_of result ≡ Law2.vulnerability board }
{
    SIDES[(board.saturating_sub(1) % 16) as usize]
}

// Whether the side of a seat is vulnerable on a board.
pub fn vulnerable(board: u8, seat: u8) -> bool
    ensures { result ≡ Law2.vulnerable board seat }
{
    match vulnerable_sides(board) {
        Neither => false,
        NorthSouth => seat % 2 == 0,
        EastWest => seat % 2 == 1,
        Both => true,
    }
}
