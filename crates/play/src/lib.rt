// The play, a card at a time: a position by value that steps and returns itself.
// A holder is a seat, 0 to 3, or 4 + the seat that played the card. Numbers from 52 on are no cards and change nothing;
// `verdict` and `play` test that once, and what stands behind them asks for a card.
#![tactic(auto)]

mod told;
mod words;

ghost use Rattle.std.specs.Prelude.{◌≡◌, List, ◌∷◌, ℕ, ◌<◌};
ghost use Rattle.laws.specs.Law44.{winning_card, won_by};
ghost use Rattle.play.specs.Words.{bit_of};
ghost use Rattle.play.specs.Position.{
  put_played,
  start_of,
  turn_of,
  hand_of,
  could_follow,
  was_dealt,
  worth_of,
  revokes_with,
  won_in,
  verdict_of,
  taken_of,
  with_lead,
  with_card,
  with_trick,
  step,
};
ghost use Rattle.play.specs.History.{best_worth, told_of};

pub use crate::told::byte_after;
pub use crate::words::with_bit;
use crate::words::{CARDS, entered, with_four};
use deal::card_bit;
use laws::Refusal;

// What the code keeps of the play. A word of entries has the last entry lowest.
#[derive(Clone, Copy, Debug, PartialEq, Eq)]
pub struct Play {
    // The hands as they were dealt, a bit for each card, and the cards that nobody has played.
    pub dealt: [u64; 4],
    pub left: u64,
    pub trump: u64,
    // How many cards were played; who led to the trick under way, or leads to the next.
    pub played: u64,
    pub leader: u64,
    // Of the trick under way: the suit led, and the greatest worth of a card, 0 before the first.
    pub led: u64,
    pub best: u64,
    // Four bits for each complete trick: its winner 2, and the suit led 2. Above them stands who led first.
    pub tricks: u64,
    // Four bits for each complete trick, of the card that won: its lowest four, and its two above them.
    pub low: u64,
    pub high: u64,
    // A bit for each card played: 1 for a revoke.
    pub revoked: u64,
    // Who holds each card.
    pub holders: [u8; 52],
}

// A trick's answer: the seat that won it, and the card that won. Numbers: `won`'s clause says them of every worth, with cards up to 63.
#[derive(Clone, Copy, Debug, PartialEq, Eq)]
pub struct Won {
    pub seat: u8,
    pub card: u8,
}

// The complete tricks: how many, those of each side, and their answers. A count beside an array: there is no heap, and `tricks_in` says what stands at all
// thirteen places.
#[derive(Clone, Copy, Debug, PartialEq, Eq)]
pub struct Tricks {
    pub count: u8,
    pub won: [u8; 2],
    pub answers: [Won; 13],
}

// The holders with one place changed: who held the card has played it. Every place is compared, and none is stored to apart.
// By an index: after `holders.iter_mut().zip(&CARDS)` no proof knows what was written, and this one does not close.
pub fn with_played(mut holders: [u8; 52], card: u8) -> [u8; 52]
    ensures { result ≡ put_played holders card }
{
    for i in 0..52 {
        holders[i] |= if CARDS[i] == card { 4 } else { 0 };
    }
    holders
}

impl Play {
    // The position before the first card, which `opening` leads; `dealt` has the hands of the holders.
    #[tactic(auto, unfolding(crate::specs::Position::start_of))]
    pub fn new(holders: [u8; 52], dealt: [u64; 4], trump: u8, opening: u8) -> Self
        ensures { result ≡ start_of holders dealt trump opening }
    {
        let first = (opening % 4) as u64;
        Play {
            holders,
            dealt,
            left: 4503599627370495,
            trump: trump as u64,
            played: 0,
            leader: first,
            led: 0,
            best: 0,
            tricks: first * 4,
            low: 0,
            high: 0,
            revoked: 0,
        }
    }

    // The seat at turn.
    #[tactic(auto, unfolding(crate::specs::Position::turn_of, laws::specs::Cards::clockwise))]
    pub fn turn(self) -> u64
        ensures { result ≡ turn_of self }
    {
        (self.leader % 4 + self.played % 4) % 4
    }

    // The hand of the seat at turn.
    pub fn hand(self) -> u64
        ensures { result ≡ hand_of self }
    {
        let dealt = self.dealt;
        let own = self.turn() as usize;
        dealt[own] & self.left
    }

    // Whether the seat at turn holds a card of the suit led.
    #[tactic(auto, unfolding(crate::specs::Position::could_follow))]
    fn could_follow(self) -> bool
        ensures { result ≡ could_follow self }
    {
        deal::holds_suit(self.hand(), (self.led % 4) as u8)
    }

    // Whether the seat at turn was dealt the card.
    fn was_dealt(self, card: u8) -> bool
        requires { card < 52 }
        ensures { result ≡ was_dealt self card }
    {
        let dealt = self.dealt;
        let own = self.turn() as usize;
        (dealt[own] >> card) % 2 == 1
    }

    // Whether a card may be played by the seat at turn; a card of its own that it does not hold it has played.
    pub fn verdict(self, card: u8) -> Result<(), Refusal>
        ensures { result ≡ verdict_of self card }
    {
        if 52 <= card {
            return Err(Refusal::NoCard);
        }
        let at = card as usize;
        let seat = self.turn();
        if self.holders[at] as u64 == seat {
            return Ok(());
        }
        if self.was_dealt(card) {
            return Err(Refusal::CardAlreadyPlayed);
        }
        Err(Refusal::CardNotHeld)
    }

    // The position after a card that may be played, or its refusal.
    pub fn take(self, card: u8) -> Result<Self, Refusal>
        ensures { result ≡ taken_of self card }
    {
        self.verdict(card)?;
        Ok(self.play(card))
    }

    // The position with the suit led, where the card is the first of its trick.
    #[tactic(auto, unfolding(crate::specs::Position::with_lead))]
    fn with_lead(mut self, card: u8) -> Self
        ensures { result ≡ with_lead self card }
    {
        if self.played % 4 == 0 {
            self.led = (card / 13) as u64;
        }
        self
    }

    // The worth of a card in the trick: a trump is above the suit led, that above any other, then the higher card; the seat stands lowest.
    fn worth(self, card: u8) -> u64
        ensures { result ≡ worth_of self card }
    {
        let suit = (card / 13) as u64;
        let trump = u64::from(suit == self.trump);
        let on = u64::from(suit == self.led);
        trump * 512 + on * 256 + card as u64 * 4 + self.turn()
    }

    // 1 for a card that is a revoke, else 0.
    fn revoke_bit(self, card: u8) -> u64
        ensures { result ≡ bit_of (revokes_with self card) }
    {
        let off = u64::from((card / 13) as u64 != self.led);
        off * u64::from(self.could_follow())
    }

    // The position with the card on the table: out of its hand, a revoke or none, the best of the trick or not.
    fn with_card(mut self, card: u8) -> Self
        requires { card < 52 }
        ensures { result ≡ with_card self card }
    {
        let worth = self.worth(card);
        let revoke = self.revoke_bit(card);
        let held = self.holders;
        let after = with_played(held, card);
        self.holders = after;
        self.left = self.left ^ card_bit(card as usize);
        self.revoked = with_bit(self.revoked, revoke);
        self.best = self.best.max(worth);
        self.played = self.played % 64 + 1;
        self
    }

    // The answer of the trick under way, by its best worth: Law 44's of every trick that has this worth.
    fn won(self) -> Won
        ensures value { result ≡ won_in self }
        ensures law { (trump leader card : ℕ) (trick : List ℕ) → self.best ≡ best_worth trump leader (card ∷ trick)
            → winning_card trump (card ∷ trick) < 52 → result ≡ told_of (won_by trump leader (card ∷ trick)) }
    {
        Won {
            seat: (self.best % 4) as u8,
            card: (self.best / 4 % 64) as u8,
        }
    }

    // The position with the trick counted, where it is complete: its answer is kept, and its winner leads to the next.
    #[tactic(auto, unfolding(crate::specs::Position::with_trick))]
    fn with_trick(mut self) -> Self
        ensures { result ≡ with_trick self }
    {
        if self.played % 4 == 0 {
            let won = self.won();
            let seat = won.seat as u64;
            let card = won.card as u64;
            self.leader = seat;
            self.tricks = entered(self.tricks, seat, self.led);
            self.low = with_four(self.low, card);
            self.high = with_four(self.high, card / 16);
            self.best = 0;
        }
        self
    }

    // The position with one card more, played by the seat at turn.
    #[tactic(auto, unfolding(crate::specs::Position::step))]
    #[inline(always)]
    pub fn play(mut self, card: u8) -> Self
        ensures { result ≡ step self card }
    {
        if 52 <= card {
            return self;
        }
        self = self.with_lead(card);
        self = self.with_card(card);
        self.with_trick()
    }
}
