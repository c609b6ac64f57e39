// The auction, a code at a time: a position that steps and returns itself, and holds no history. A code is a call, or a mark: the next call is an
// insufficient bid that was accepted.
#![tactic(auto)]

mod place;

ghost use Rattle.std.specs.Prelude.{◌≡◌, [], ◌-◌, ◌<◌, ◌≤◌, eqb, if◌then◌else◌};
ghost use Rattle.laws.specs.Cards.{clockwise};
ghost use Rattle.laws.specs.CallRefusal.{place_of};
ghost use Rattle.auction.specs.Position.{passes_to_end, entry_at, entered, seat_at, after_call, position_of};
ghost use Rattle.auction.specs.Asked.{
  over_of,
  passed_out_of,
  may_double_of,
  may_redouble_of,
  contract_of,
  marked_verdict,
  verdict_of,
  taken_of,
};
ghost use Rattle.laws.specs.Refused.{placed_of};

use laws::{Refusal, Refused};
use place::Place;

// The seat that stands for nobody, in a contract too: its declarer without a bid, as `contract_of` has it.
const NOBODY: u8 = 4;

// The highest call, seven notrump.
const HIGHEST: u8 = 37;

// The mark.
const MARK: u8 = 38;

#[derive(Clone, Copy, Debug, PartialEq, Eq)]
pub struct Auction {
    // Whose turn it is.
    turn: u8,
    // The last bid, 0 before the first, and who made it.
    last: u8,
    bidder: u8,
    // The doubling of the last bid: 0, 1 doubled, 2 redoubled; and 4 more where only passes stand since the bid, or since a double of it
    // that had only passes before it. A number: `after_call` and `contract_of` reckon with it in every position.
    doubling: u8,
    // How many passes in a row are left until the auction is over.
    left: u8,
    // Three bits at each place 5 × side + strain: 0, or 1 + the first player of the side to have bid the strain.
    first: u64,
    // Whether the latest code is a mark.
    marked: bool,
}

// The last bid with its doubling, and its declarer. Without a bid it is level 1, strain 0, declarer nobody: `contract_of` says what it is of every position,
// and `reached_as` of `last_card` and `OfCards` of `judgement` name it beside whether the board was passed out. So it is no Option, and `out` goes beside it.
// Numbers: `opening_leader` answers every declarer, and `law77` every level, strain and doubling.
#[derive(Clone, Copy, Debug, PartialEq, Eq)]
pub struct Contract {
    pub level: u8,
    pub strain: u8,
    pub doubling: u8,
    pub declarer: u8,
}

impl Contract {
    // The seat that leads first: the one after declarer.
    pub fn opening_leader(self) -> u8
        ensures { result ≡ clockwise self.declarer 1 }
    {
        next_seat(self.declarer)
    }
}

// The place of a refusal at a code with so many codes before it: a wrong mark is the code before. The refusal comes as its number, since the clause speaks of
// every number, 0 and those of no refusal among them.
pub fn place_of(refusal: u8, codes: u16) -> u16
    ensures { result ≡ place_of refusal codes }
{
    if refusal != Refusal::WrongMark.number() {
        return codes;
    }
    codes.saturating_sub(1)
}

// The seat to the left.
#[tactic(auto, unfolding(laws::specs::Cards::clockwise))]
fn next_seat(seat: u8) -> u8
    ensures { result ≡ clockwise seat 1 }
{
    (seat % 4 + 1) % 4
}

// How many passes in a row end the auction after a last bid, 0 for none.
#[tactic(auto, unfolding(crate::specs::Position::passes_to_end))]
fn passes_to_end(last: u8) -> u8
    ensures { result ≡ passes_to_end last }
{
    if last == 0 { 4 } else { 3 }
}

// The doubling after a double, code 1, or a redouble, code 2: a bid that stood undoubled stands doubled, and none stands redoubled.
fn doubled(doubling: u8, code: u8) -> u8
    ensures { result ≡ (if eqb code 2 then 2 else if eqb doubling 4 then 5 else 1) }
{
    if code == 2 {
        return 2;
    }
    if doubling == 4 { 5 } else { 1 }
}

// 1 for an entry that is 0, else 0: by a division, since a test of what was bid before would be a branch that is hard to foresee.
fn is_free(entry: u64) -> u64
    requires { entry < 8 }
    ensures value { result ≡ (if eqb entry 0 then 1 else 0) }
    ensures bound { result < 2 }
{
    1 - (entry + 7) / 8
}

// The three bits at a place.
fn entry(word: u64, place: Place) -> u64
    ensures value { result ≡ entry_at word place.at }
    ensures bound { result < 8 }
{
    (word >> (3 * place.at)) % 8
}

// The word with a seat at a place, where nobody stands there.
fn entered(word: u64, place: Place, seat: u8) -> u64
    ensures { result ≡ entered word place.at seat }
{
    let free = is_free(entry(word, place));
    word % 1099511627776 + ((free * (seat % 4 + 1) as u64) << (3 * place.at))
}

// The seat at a place, or nobody.
#[tactic(auto, unfolding(crate::specs::Position::seat_at))]
fn seat_at(word: u64, place: Place) -> u8
    ensures { result ≡ seat_at word place.at }
{
    let e = entry(word, place);
    if e == 0 {
        return NOBODY;
    }
    ((e - 1) % 4) as u8
}

impl Auction {
    // The position before the first call.
    #[tactic(auto, unfolding(crate::specs::Position::before_calls, crate::specs::Position::position_of))]
    pub fn new(dealer: u8) -> Self
        ensures { result ≡ position_of dealer [] }
    {
        Auction {
            turn: dealer % 4,
            last: 0,
            bidder: NOBODY,
            doubling: 0,
            left: 4,
            first: 0,
            marked: false,
        }
    }

    // The position after a code. A mark takes no turn; what is neither a call nor a mark takes one, and no bid stands after it.
    pub fn call(mut self, code: u8) -> Self
        ensures { result ≡ after_call self code }
    {
        if code == MARK {
            self.marked = true;
            return self;
        }
        self.marked = false;
        let turn = self.turn;
        self.turn = next_seat(turn);
        if code == 0 {
            self.left = self.left.saturating_sub(1);
            return self;
        }
        if code < 3 {
            self.left = passes_to_end(self.last);
            self.doubling = doubled(self.doubling, code);
            return self;
        }
        if HIGHEST < code {
            self.left = passes_to_end(self.last);
            self.doubling = self.doubling % 4;
            return self;
        }
        self.last = code;
        self.bidder = turn;
        self.doubling = 4;
        self.left = 3;
        self.first = entered(self.first, Place::of(turn, code - 3), turn);
        self
    }

    // Whether the auction is over.
    #[tactic(auto, unfolding(crate::specs::Asked::over_of))]
    pub fn is_over(self) -> bool
        ensures { result ≡ over_of self }
    {
        self.left == 0
    }

    // Whether there is no bid: an auction that is over without one is passed out.
    #[tactic(auto, unfolding(crate::specs::Asked::passed_out_of))]
    pub fn is_passed_out(self) -> bool
        ensures { result ≡ passed_out_of self }
    {
        self.last == 0
    }

    // Whether the seat at turn may double, code 1, or redouble, code 2: a bid of the other side that stands undoubled, one of its own side that
    // stands doubled.
    fn may_double(self, code: u8) -> bool
        requires least { 1 ≤ code }
        requires most { code ≤ 2 }
        ensures { result ≡ (if eqb code 1 then may_double_of self else may_redouble_of self) }
    {
        if self.doubling == 3 + code {
            return (self.bidder % 2 + self.turn % 2) % 2 == code % 2;
        }
        false
    }

    // Whether a code may follow a mark: it is a bid at or below the last one, or the mark is wrong.
    fn marked_verdict(self, code: u8) -> Result<(), Refusal>
        ensures { result ≡ marked_verdict self code }
    {
        if code < 3 {
            return Err(Refusal::WrongMark);
        }
        if code > self.last {
            return Err(Refusal::WrongMark);
        }
        Ok(())
    }

    // Whether a code may follow, by the seat at turn. A mark is above every bid, and so taken.
    pub fn verdict(self, code: u8) -> Result<(), Refusal>
        ensures { result ≡ verdict_of self code }
    {
        if MARK < code {
            return Err(Refusal::NoCall);
        }
        if self.is_over() {
            return Err(Refusal::CallAfterEnd);
        }
        if self.marked {
            return self.marked_verdict(code);
        }
        if code == 0 {
            return Ok(());
        }
        if code < 3 {
            if self.may_double(code) {
                return Ok(());
            }
            return Err(Refusal::InadmissibleDouble);
        }
        if self.last < code {
            return Ok(());
        }
        Err(Refusal::InsufficientBid)
    }

    // The position after a code that may follow, with so many codes before it; or its refusal, with its place.
    pub fn take(self, code: u8, before: u16) -> Result<Self, Refused>
        ensures { placed_of result ≡ taken_of self code before }
    {
        // A `match` has its two ways in two lines; `map_err` and `?` would have the first in a closure and the second behind it, and be no shorter.
        match self.verdict(code) {
            Ok(()) => Ok(self.call(code)),
            Err(refusal) => Err(refusal.at(place_of(refusal.number(), before))),
        }
    }

    // The contract.
    pub fn contract(self) -> Contract
        ensures { result ≡ contract_of self }
    {
        let above = self.last.saturating_sub(3);
        let first = seat_at(self.first, Place::of(self.bidder, above));
        Contract {
            level: above / 5 + 1,
            strain: above % 5,
            doubling: self.doubling % 4,
            declarer: first,
        }
    }
}
