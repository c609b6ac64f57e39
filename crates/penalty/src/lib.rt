// Penalty cards and lead choices, an event of the play at a time: by value, stepping and returning itself.
// Cards, hands and suits are sets of cards: a word with a bit for each of the 52 cards.
#![tactic(auto)]

mod words;

ghost use Rattle.std.specs.Prelude.{◌≡◌};
ghost use Rattle.laws.specs.Events.{begins_code};
ghost use Rattle.penalty.specs.Position.{
  start_of,
  asked_of_lead,
  asked_in,
  obeying_in,
  obeys_in,
  excused_in,
  against_50c,
  against_50d1,
  fails_in,
  exposable_in,
  unbarred_in,
  open_in,
  after_card,
  major_with,
  with_exposed,
  with_kind,
  with_choice,
};

use crate::words::{card_word, meets, suit_word, without};

// Whether a number in a card's place begins a code: 52 an exposure, 53 a choice. A number, since the clause says it of every one, cards among them.
pub fn begins_code(number: u8) -> bool
    ensures { result ≡ begins_code number }
{
    number == 52 || number == 53
}

// The penalty cards, and what binds the next lead.
#[derive(Clone, Copy, Debug, PartialEq, Eq)]
pub struct Penalty {
    // The cards that are faced, and those of them that are major.
    pub faced: u64,
    pub major: u64,
    // The cards of the suits that are forbidden to the leader.
    pub forbidden: u64,
    // The suit required of the next lead; 4 where none is, as Law 51's own definition tells it.
    pub required: u64,
    // How many codes were given.
    pub codes: u64,
}

// What the seat at turn has before it plays.
#[derive(Clone, Copy, Debug, PartialEq, Eq)]
pub struct Turn {
    // Its hand.
    pub hand: u64,
    // The suit led, where its card is not the first of the trick.
    pub led: Option<u64>,
}

impl Penalty {
    // Before the first event.
    #[tactic(auto, unfolding(crate::specs::Position::start_of))]
    pub fn new() -> Self
        ensures { result ≡ start_of }
    {
        Penalty {
            faced: 0,
            major: 0,
            forbidden: 0,
            required: 4,
            codes: 0,
        }
    }

    // The cards that do what is asked of a lead: those of the suit required, or of no forbidden suit.
    #[tactic(auto, unfolding(crate::specs::Position::asked_of_lead))]
    fn asked_of_lead(self) -> u64
        ensures { result ≡ asked_of_lead self }
    {
        if self.required == 4 {
            return without(4503599627370495, self.forbidden);
        }
        suit_word(self.required)
    }

    // The cards that do what is asked of the seat at turn: those of the suit led, where its card does not lead.
    #[tactic(auto, unfolding(crate::specs::Position::asked_in, crate::specs::Position::asked_by))]
    fn asked(self, t: Turn) -> u64
        ensures { result ≡ asked_in self t }
    {
        match t.led {
            None => self.asked_of_lead(),
            Some(suit) => suit_word(suit),
        }
    }

    // The cards of the hand whose play is no revoke: those that do what is asked, or all where none does.
    #[tactic(auto, unfolding(crate::specs::Position::obeying_in))]
    fn obeying(self, t: Turn) -> u64
        ensures { result ≡ obeying_in self t }
    {
        let asked = self.asked(t);
        let hand = t.hand;
        if meets(asked, hand) {
            return asked & hand;
        }
        hand
    }

    // Whether the play of a card of the hand is no revoke.
    #[tactic(auto, unfolding(crate::specs::Position::obeys_in))]
    pub fn obeys(self, t: Turn, card: u8) -> bool
        ensures { result ≡ obeys_in self t card }
    {
        meets(self.obeying(t), card_word(card))
    }

    // Law 64B3: whether the seat at turn has a penalty card whose play is no revoke.
    pub fn excused(self, t: Turn) -> bool
        ensures { result ≡ excused_in self t }
    {
        let obeying = self.obeying(t);
        let own = self.faced & t.hand;
        meets(obeying, own)
    }

    // Law 50C: whether the card is below an honour and another one of its suit is a minor penalty card of the seat.
    fn against_50c(self, t: Turn, card: u8) -> bool
        ensures { result ≡ against_50c self t card }
    {
        if 8 <= card % 13 {
            return false;
        }
        let minor = without(self.faced, self.major) & t.hand;
        let suit = suit_word((card / 13) as u64);
        meets(without(minor, card_word(card)), suit)
    }

    // Law 50D1: whether a major penalty card of the seat was due, and the card is not such a one.
    fn against_50d1(self, t: Turn, card: u8) -> bool
        ensures { result ≡ against_50d1 self t card }
    {
        let obeying = self.obeying(t);
        let played = card_word(card);
        let major = self.major;
        if meets(obeying, major) {
            return !meets(obeying & major, played);
        }
        false
    }

    // Whether the play of the card is against Law 50C or 50D1.
    #[tactic(auto, unfolding(crate::specs::Position::fails_in))]
    pub fn fails(self, t: Turn, card: u8) -> bool
        ensures { result ≡ fails_in self t card }
    {
        if self.against_50c(t, card) {
            return true;
        }
        self.against_50d1(t, card)
    }

    // Whether a card can be exposed that stands at its place with this holder; `side` is the defenders'.
    #[tactic(auto, unfolding(crate::specs::Position::exposable_in))]
    pub fn exposable(self, side: u64, holder: u64, card: u8) -> bool
        ensures { result ≡ exposable_in self side holder card }
    {
        if 4 <= holder {
            return false;
        }
        if holder % 2 != side % 2 {
            return false;
        }
        !meets(self.faced, card_word(card))
    }

    // Whether the bans that run leave room for a choice: a suit may be required if there is none.
    #[tactic(auto, unfolding(crate::specs::Position::unbarred_in))]
    fn unbarred(self, kind: u8) -> bool
        ensures { result ≡ unbarred_in self kind }
    {
        if kind == 1 {
            return true;
        }
        self.forbidden == 0
    }

    // Whether a choice is open, where a defender is to lead whose partner was dealt these cards.
    // Kinds are numbers: of those over 1 the clause says that none is open.
    pub fn is_open(self, partner: u64, kind: u8, suit: u8) -> bool
        ensures { result ≡ open_in self partner kind suit }
    {
        if 1 < kind {
            return false;
        }
        if self.required != 4 {
            return false;
        }
        if self.unbarred(kind) {
            return meets(self.major & partner, suit_word(suit as u64));
        }
        false
    }

    // After a card: it is faced no more, the requirement has ended, and the bans where the leader has lost the lead.
    #[tactic(auto, unfolding(crate::specs::Position::after_card))]
    pub fn after_card(mut self, card: u8, keeps: bool) -> Self
        ensures { result ≡ after_card self card keeps }
    {
        let played = card_word(card);
        self.faced = without(self.faced, played);
        self.major = without(self.major, played);
        self.required = 4;
        if keeps {
            return self;
        }
        self.forbidden = 0;
        self
    }

    // The major cards once a card is exposed, whose owner was dealt the cards of `own`: all of an owner with two or more.
    fn major_with(self, own: u64, card: u8, deliberate: bool) -> u64
        ensures { result ≡ major_with self own card deliberate }
    {
        let shown = card_word(card);
        let faced = self.faced;
        if meets(faced, own) {
            return self.major | (faced & own) | shown;
        }
        if deliberate {
            return self.major | shown;
        }
        if 8 <= card % 13 {
            return self.major | shown;
        }
        self.major
    }

    // With a card exposed, whose owner was dealt the cards of `own`.
    #[tactic(auto, unfolding(crate::specs::Position::with_exposed))]
    pub fn with_exposed(mut self, own: u64, card: u8, deliberate: bool) -> Self
        ensures { result ≡ with_exposed self own card deliberate }
    {
        let major = self.major_with(own, card, deliberate);
        let faced = self.faced | card_word(card);
        self.major = major;
        self.faced = faced;
        self.codes = self.codes % 64 + 1;
        self
    }

    // With the suit required or forbidden.
    #[tactic(auto, unfolding(crate::specs::Position::with_kind))]
    fn with_kind(mut self, kind: u8, suit: u8) -> Self
        ensures { result ≡ with_kind self kind suit }
    {
        if kind == 0 {
            self.required = suit as u64;
            return self;
        }
        self.forbidden = self.forbidden | suit_word(suit as u64);
        self
    }

    // With a choice made, before a lead by a defender whose partner was dealt the cards of `partner`.
    #[tactic(auto, unfolding(crate::specs::Position::with_choice))]
    pub fn with_choice(mut self, partner: u64, kind: u8, suit: u8) -> Self
        ensures { result ≡ with_choice self partner kind suit }
    {
        let picked = partner & suit_word(suit as u64);
        self.faced = without(self.faced, picked);
        self.major = without(self.major, picked);
        self.codes = self.codes % 64 + 1;
        self.with_kind(kind, suit)
    }
}
