// Cards with codes among them: each event of the play read and judged on those before it.
ghost use Rattle.std.specs.Prelude.{◌≡◌, List, ℕ, ◌+◌, ◌%◌, ◌<◌, ◌≤◌, IfOk};
ghost use Rattle.laws.specs.Events.{Event};
ghost use Rattle.laws.specs.Plays.{read_exposed, read_choice};
ghost use Rattle.laws.specs.Refused.{placed_of};
ghost use Rattle.position.specs.History.{OfEvents};
ghost use Rattle.last_card.specs.Sections.{cards_of, code_by, plays_by, CodeTaken};

use crate::reading::Read;
use laws::{Refusal, Refused};
use penalty::begins_code;
use position::Table;

// How many cards a record says it has, where that is no refusal.
#[derive(Clone, Copy)]
pub(crate) struct CardCount {
    pub(crate) cards: u16,
    pub(crate) ghost few: { cards ≤ 52 },
}

// What follows the code of an exposure: the card and its bit, at the place of the next card.
fn read_exposed(bytes: &[u8], t: Table, at: usize, place: u16) -> Result<Read<Table>, Refused>
    requires { at < 65536 }
    ensures counted { IfOk result (λ read. CodeTaken t at (t.penalty.codes % 64 + 1) read) }
    ensures law { (deal : List ℕ) (trump opening : ℕ) (e : List Event) → OfEvents deal trump opening e t place
        → placed_of result ≡ cards_of deal trump opening (read_exposed trump opening deal e bytes.now at) }
{
    let card = field::read(bytes, at, 6)?;
    let bit = field::read(bytes, at + 6, 1)?;
    match t.take_exposure(card as u8, bit == 1) {
        Ok(after) => Ok(Read {
            value: after,
            next: at + 7,
        }),
        Err(refusal) => Err(refusal.at(place)),
    }
}

// What follows the code of a choice: its kind and its suit, at the place of the next card.
fn read_choice(bytes: &[u8], t: Table, at: usize, place: u16) -> Result<Read<Table>, Refused>
    requires { at < 65536 }
    ensures counted { IfOk result (λ read. CodeTaken t at (t.penalty.codes % 64 + 1) read) }
    ensures law { (deal : List ℕ) (trump opening : ℕ) (e : List Event) → OfEvents deal trump opening e t place
        → placed_of result ≡ cards_of deal trump opening (read_choice trump opening deal e bytes.now at) }
{
    let kind = field::read(bytes, at, 2)?;
    let suit = field::read(bytes, at + 2, 2)?;
    match t.take_choice(kind as u8, suit as u8) {
        Ok(after) => Ok(Read {
            value: after,
            next: at + 4,
        }),
        Err(refusal) => Err(refusal.at(place)),
    }
}

// What follows a code: there is no room for it where forty went before.
fn read_code(
    bytes: &[u8],
    t: Table,
    code: u8,
    at: usize,
    place: u16,
) -> Result<Read<Table>, Refused>
    requires { at < 65536 }
    ensures room { IfOk result (λ _. t.penalty.codes < 40) }
    ensures counted { IfOk result (λ read. CodeTaken t at (t.penalty.codes + 1) read) }
    ensures law { (deal : List ℕ) (trump opening : ℕ) (e : List Event) → OfEvents deal trump opening e t place
        → placed_of result ≡ cards_of deal trump opening (code_by trump opening deal code e bytes.now at) }
{
    if t.codes_full() {
        return Err(Refusal::TooManyCodes.at(place));
    }
    if code == 52 {
        return read_exposed(bytes, t, at, place);
    }
    read_choice(bytes, t, at, place)
}

// The cards from the one at a place on, up to so many, with the codes before them.
pub(crate) fn read_plays(
    bytes: &[u8],
    first: Table,
    at: usize,
    place: u16,
    count: CardCount,
) -> Result<Read<Table>, Refused>
    requires to { at < 32768 }
    requires place { place ≤ count.cards }
    ensures { (deal : List ℕ) (trump opening : ℕ) (e : List Event) → OfEvents deal trump opening e first place
        → placed_of result ≡ cards_of deal trump opening (plays_by trump opening deal count.cards e bytes.now at) }
{
    let mut t = first;
    let mut next = at;
    let mut i = place;
    // A code is no card: the place does not go on at every turn, so that no range of the library counts it.
    while i < count.cards {
        let c = field::read(bytes, next, 6)? as u8;
        if begins_code(c) {
            let coded = read_code(bytes, t, c, next + 6, i)?;
            t = coded.value;
            next = coded.next;
        } else {
            let p = t.play;
            match p.take(c) {
                Ok(after) => t = t.with_play(after, c),
                Err(refusal) => return Err(refusal.at(i)),
            }
            next += 6;
            i += 1;
        }
    }
    Ok(Read { value: t, next })
}
