// The plays of a record's contents, a flat list of numbers: each card, and each code among the cards, checked on those before it.
ghost use Rattle.std.specs.Prelude.{◌≡◌, true, false, List, [], ℕ, ◌+◌, ◌<◌, ◌≤◌, length, drop, if◌then◌else◌};
ghost use Rattle.laws.specs.Choice.{some, how_many};
ghost use Rattle.laws.specs.Events.{Event, begins_code, exposure_code};
ghost use Rattle.laws.specs.CodeRefusal.{codes_full};
ghost use Rattle.laws.specs.FlatPlay.{Item, code_item, items_of, is_card, cards_in};
ghost use Rattle.laws.specs.Contents.{take_items};
ghost use Rattle.laws.specs.Refused.{answer_of, placed_of, checked_in};
ghost use Rattle.position.specs.History.{OfEvents};
ghost use Rattle.contents.specs.Checked.{coded_by, cards_by, Stopping};

use crate::runs::{Run, take_run};
use laws::{Refusal, Refused};
use penalty::begins_code;
use position::{Start, Table};

// Whether some number of the list begins a code. All are looked at, so that many can be at once.
pub fn has_code(plays: &[u8]) -> bool
    ensures { result ≡ some begins_code plays.now }
{
    let mut seen = false;
    for number in plays {
        seen |= begins_code(*number);
    }
    seen
}

// How many cards there are: codes and their numbers do not count.
pub fn count_cards(plays: &[u8]) -> usize
    ensures { result ≡ cards_in plays.now }
{
    if has_code(plays) {
        return count_beside_codes(plays);
    }
    plays.len()
}

// The same, number by number. A code takes three numbers and a card one, so that no iterator of the library steps through them.
fn count_beside_codes(plays: &[u8]) -> usize
    ensures { result ≡ cards_in plays.now }
{
    let mut cards: usize = 0;
    let mut i: usize = 0;
    while i < plays.len() {
        if begins_code(plays[i]) {
            i += 3;
        } else {
            cards += 1;
            i += 1;
        }
    }
    cards
}

// The position after the code of an exposure, with the card and its bit.
fn expose(t: Table, card: u8, bit: u8) -> Result<Table, Refusal>
    ensures { (deal : List ℕ) (trump opening : ℕ) (e : List Event) (place : ℕ) (rest : List Item) → OfEvents deal trump opening e t place
        → codes_full e ≡ false → some is_card rest ≡ true
        → answer_of result ≡ coded_by trump opening deal e (code_item exposure_code card bit) rest }
{
    if 1 < bit {
        return Err(Refusal::ChoiceNotOpen);
    }
    t.take_exposure(card, bit == 1)
}

// The position after a code with the two numbers that follow it, where there is room for it and a card comes after it.
fn take_code(t: Table, code: u8, first: u8, second: u8) -> Result<Table, Refusal>
    ensures { (deal : List ℕ) (trump opening : ℕ) (e : List Event) (place : ℕ) (rest : List Item) → OfEvents deal trump opening e t place
        → codes_full e ≡ false → some is_card rest ≡ true
        → answer_of result ≡ coded_by trump opening deal e (code_item code first second) rest }
{
    if code == 52 {
        return expose(t, first, second);
    }
    t.take_choice(first, second)
}

// The plays from a place of the list on, with so many cards before them and so many in all.
fn check_coded(plays: &[u8], first: Table, at: usize, place: u16, cards: u16) -> Result<(), Refused>
    requires count { place + how_many is_card (items_of (drop at plays.now)) ≡ cards }
    ensures { (deal : List ℕ) (trump opening : ℕ) (e : List Event) → OfEvents deal trump opening e first place
        → placed_of result ≡ checked_in (take_items trump opening deal (items_of (drop at plays.now)) e [] 0) }
{
    let mut t = first;
    let mut i = at;
    let mut n = place;
    // A code takes three numbers and a card one, as above.
    while i < plays.len() {
        let c = plays[i];
        if begins_code(c) {
            if t.codes_full() {
                return Err(Refusal::TooManyCodes.at(n));
            }
            if plays.len() - i < 3 {
                return Err(Refusal::ChoiceNotOpen.at(n));
            }
            if n == cards {
                return Err(Refusal::ChoiceNotOpen.at(n));
            }
            match take_code(t, c, plays[i + 1], plays[i + 2]) {
                Ok(after) => t = after,
                Err(refusal) => return Err(refusal.at(n)),
            }
            i += 3;
        } else {
            let p = t.play;
            match p.take(c) {
                Ok(after) => t = t.with_play(after, c),
                Err(refusal) => return Err(refusal.at(n)),
            }
            i += 1;
            n += 1;
        }
    }
    Ok(())
}

// The plays from where the cards stopped on.
fn check_stopped(
    plays: &[u8],
    run: Run,
    refusal: Refusal,
    opening: u8,
    cards: u16,
) -> Result<(), Refused>
    requires place { run.place < length plays.now }
    requires count { run.place + how_many is_card (items_of (drop run.place plays.now)) ≡ cards }
    ensures { Stopping plays.now run refusal opening (placed_of result) }
{
    let place = run.place as u16;
    if begins_code(plays[run.place]) {
        let table = Table::after_cards(run.play, opening);
        return check_coded(plays, table, run.place, place, cards);
    }
    Err(refusal.at(place))
}

// The plays, of which so many are cards.
fn check_each(plays: &[u8], start: Start, cards: u16) -> Result<(), Refused>
    requires count { cards ≡ cards_in plays.now }
    ensures { placed_of result ≡ checked_in (take_items start.trump start.opening start.holders (items_of plays.now) [] [] 0) }
{
    let run = take_run(plays, start.play());
    match run.stopped {
        Some(refusal) => check_stopped(plays, run, refusal, start.opening, cards),
        None => Ok(()),
    }
}

// The most cards that may be played: none on a board that was passed out. `last_card` has its like, which its refused edit `passed_out_cards` changes there.
fn most_cards(out: bool) -> usize
    ensures { result ≡ (if out then 0 else 52) }
{
    if out { 0 } else { 52 }
}

// The plays, and the number of their cards; `out` says that the board was passed out.
pub(crate) fn check_plays(
    plays: &[u8],
    start: Start,
    out: bool,
    cards: usize,
) -> Result<(), Refused>
    requires { cards ≡ cards_in plays.now }
    ensures { placed_of result ≡ checked_in (cards_by out start.trump start.opening start.holders plays.now [] 0) }
{
    if most_cards(out) < cards {
        return Err(Refusal::TooManyCards.at(cards.min(63) as u16));
    }
    check_each(plays, start, cards as u16)
}
