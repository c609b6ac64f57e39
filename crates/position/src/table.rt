// The position of the play with its penalty cards: it steps with a card, an exposure and a choice, and returns itself.
ghost use Rattle.std.specs.Prelude.{◌≡◌};
ghost use Rattle.position.specs.Table.{
  table_of,
  table_with,
  turn_in,
  entry_in,
  found_after,
  with_play,
  after_play,
  full_in,
  owner_word,
  partner_word,
  exposure_in,
  defender_leads,
  choice_in,
  after_exposed,
  after_choice,
  exposed_by,
  chosen_by,
};
ghost use Rattle.laws.specs.Refused.{answer_of, number_or_none};

use found::Found;
use laws::Refusal;
use penalty::{Penalty, Turn};
use play::Play;

#[derive(Clone, Copy, Debug, PartialEq, Eq)]
pub struct Table {
    pub play: Play,
    // The side of the defenders: 0 North-South, 1 East-West. A number: `exposable_in` and `defender_leads` take it % 2, whatever it is.
    pub side: u64,
    pub penalty: Penalty,
    pub found: Found,
}

impl Table {
    // The position before the first event; `opening` leads, and is a defender.
    #[tactic(auto, unfolding(crate::specs::Table::table_of))]
    pub fn new(holders: [u8; 52], dealt: [u64; 4], trump: u8, opening: u8) -> Self
        ensures { result ≡ table_of holders dealt trump opening }
    {
        let play = Play::new(holders, dealt, trump, opening);
        Table::after_cards(play, opening)
    }

    // The position of a play of cards alone.
    pub fn after_cards(play: Play, opening: u8) -> Self
        ensures { result ≡ table_with play opening }
    {
        let penalty = Penalty::new();
        let found = Found::new();
        Table {
            play,
            side: (opening % 2) as u64,
            penalty,
            found,
        }
    }

    // What the seat at turn has before it plays.
    #[tactic(auto, unfolding(crate::specs::Table::turn_in))]
    fn turn_now(self) -> Turn
        ensures { result ≡ turn_in self }
    {
        let p = self.play;
        let led = if p.played % 4 == 0 { None } else { Some(p.led) };
        Turn {
            hand: p.hand(),
            led,
        }
    }

    // A play against Law 50 as twelve bits: trick 4, seat 2, card 6.
    #[tactic(auto, unfolding(crate::specs::Table::entry_in))]
    fn entry(self, card: u8) -> u64
        ensures { result ≡ entry_in self card }
    {
        let p = self.play;
        (p.played / 4 % 16 + 1) % 16 * 256 + p.turn() % 4 * 64 + (card % 64) as u64
    }

    // What is found of the card.
    fn found_after(self, card: u8) -> Found
        ensures { result ≡ found_after self card }
    {
        let t = self.turn_now();
        let pen = self.penalty;
        let revoke = !pen.obeys(t, card);
        let free = pen.excused(t);
        let leads = t.led.is_none();
        let mut found = self.found;
        found = found.with_revoke(leads, revoke, free);
        found = found.with_lead(leads, revoke, pen.required);
        if pen.fails(t, card) {
            return found.with_failure(self.entry(card));
        }
        found
    }

    // The position with one card more, after which the play is `after`. Where no code was given, the penalty cards need no step.
    pub fn with_play(mut self, after: Play, card: u8) -> Self
        ensures { result ≡ with_play self after card }
    {
        let before = self.play;
        let pen = self.penalty;
        if pen.codes == 0 {
            self.play = after;
            return self;
        }
        if 52 <= card {
            return self;
        }
        let found = self.found_after(card);
        let next = pen.after_card(card, after.leader == before.leader);
        self.play = after;
        self.penalty = next;
        self.found = found;
        self
    }

    // The position with one card more, played by the seat at turn.
    pub fn play(self, card: u8) -> Self
        ensures { result ≡ after_play self card }
    {
        let before = self.play;
        self.with_play(before.play(card), card)
    }
}

// Codes: whether one is refused, and the step.
impl Table {
    // Whether there is no room for a code: forty went before.
    #[tactic(auto, unfolding(crate::specs::Table::full_in))]
    pub fn codes_full(self) -> bool
        ensures { result ≡ full_in self }
    {
        let pen = self.penalty;
        40 <= pen.codes
    }

    // The cards that the owner of a card was dealt.
    #[tactic(auto, unfolding(crate::specs::Table::owner_word))]
    fn owner_word(self, card: u8) -> u64
        ensures { result ≡ owner_word self card }
    {
        if 52 <= card {
            return 0;
        }
        let p = self.play;
        let at = card as usize;
        let own = (p.holders[at] % 4) as usize;
        let dealt = p.dealt;
        dealt[own]
    }

    // The cards that the leader's partner was dealt.
    fn partner_word(self) -> u64
        ensures { result ≡ partner_word self }
    {
        let p = self.play;
        let own = ((p.leader % 4 + 2) % 4) as usize;
        let dealt = p.dealt;
        dealt[own]
    }

    // Whether a card may be exposed.
    #[tactic(auto, unfolding(crate::specs::Table::exposure_in))]
    pub fn exposure_verdict(self, card: u8) -> Result<(), Refusal>
        ensures { number_or_none result ≡ exposure_in self card }
    {
        if 52 <= card {
            return Err(Refusal::NotExposable);
        }
        let p = self.play;
        let at = card as usize;
        let holder = p.holders[at] as u64;
        let pen = self.penalty;
        if pen.exposable(self.side, holder, card) {
            return Ok(());
        }
        Err(Refusal::NotExposable)
    }

    // Whether a defender is to lead.
    #[tactic(auto, unfolding(crate::specs::Table::defender_leads))]
    fn defender_leads(self) -> bool
        ensures { result ≡ defender_leads self }
    {
        let p = self.play;
        if p.played % 4 == 0 {
            return p.leader % 2 == self.side % 2;
        }
        false
    }

    // Whether a choice may be made.
    pub fn choice_verdict(self, kind: u8, suit: u8) -> Result<(), Refusal>
        ensures { number_or_none result ≡ choice_in self kind suit }
    {
        let partner = self.partner_word();
        if self.defender_leads() {
            let pen = self.penalty;
            if pen.is_open(partner, kind, suit) {
                return Ok(());
            }
            return Err(Refusal::ChoiceNotOpen);
        }
        Err(Refusal::ChoiceNotOpen)
    }

    // The position with a card exposed.
    #[tactic(auto, unfolding(crate::specs::Table::after_exposed))]
    pub fn expose(mut self, card: u8, deliberate: bool) -> Self
        ensures { result ≡ after_exposed self card deliberate }
    {
        let own = self.owner_word(card);
        let pen = self.penalty;
        let next = pen.with_exposed(own, card, deliberate);
        self.penalty = next;
        self
    }

    // The position with a choice made.
    #[tactic(auto, unfolding(crate::specs::Table::after_choice))]
    pub fn choose(mut self, kind: u8, suit: u8) -> Self
        ensures { result ≡ after_choice self kind suit }
    {
        let partner = self.partner_word();
        let pen = self.penalty;
        let next = pen.with_choice(partner, kind, suit);
        self.penalty = next;
        self
    }

    // The position with a card exposed that may be, or its refusal.
    pub fn take_exposure(self, card: u8, deliberate: bool) -> Result<Self, Refusal>
        ensures { answer_of result ≡ exposed_by self card deliberate }
    {
        self.exposure_verdict(card)?;
        Ok(self.expose(card, deliberate))
    }

    // The position with a choice made that may be, or its refusal.
    pub fn take_choice(self, kind: u8, suit: u8) -> Result<Self, Refusal>
        ensures { answer_of result ≡ chosen_by self kind suit }
    {
        self.choice_verdict(kind, suit)?;
        Ok(self.choose(kind, suit))
    }
}
