// The Deal line: who holds each card by what it says, and whether it is the line of that.
ghost use Rattle.std.specs.Prelude.{◌≡◌, true, List, [], ◌∷◌, ◌++◌, ℕ, ◌-◌, ◌<◌, ◌≤◌, length, set, replicate};
ghost use Rattle.laws.specs.Cards.{no_seat, clockwise, spades};
ghost use Rattle.laws.specs.Contents.{are_seats};
ghost use Rattle.laws.specs.PbnText.{ranks_held, hand_and, hands_and, deal_line};
ghost use Rattle.laws.specs.PbnReading.{same_bytes, place_among, held_by};
ghost use Rattle.pbn_deal.specs.Walks.{follows, with_rank, with_byte};

// The place of a byte among letters; their number where it is none of them, as the Laws' `place_among` has it.
pub(crate) fn place_among(letters: &[u8], byte: u8) -> usize
    ensures { (result ≡ place_among letters.now byte) × (result ≤ length letters.now) }
{
    letters
        .iter()
        .position(|b| *b == byte)
        .unwrap_or(letters.len())
}

// Who holds each card so far, and the seat and the suit that come next.
#[derive(Clone, Copy, Debug, PartialEq, Eq)]
pub(crate) struct Held {
    pub seat: u8,
    pub suit: usize,
    pub holders: [u8; 52],
}

// The rank of a byte goes to the seat; a place past the last changes nothing.
fn with_rank(mut held: Held, b: u8) -> Held
    requires { held.suit ≤ 3 }
    ensures { result ≡ with_rank held b }
{
    let at = 13 * held.suit + place_among(b"23456789TJQKA", b);
    if at < 52 {
        held.holders[at] = held.seat;
    }
    held
}

// A space goes on to the next seat's spades, a dot to the next suit.
fn with_byte(held: Held, b: u8) -> Held
    requires { (held.seat ≤ 4) × (held.suit ≤ 3) }
    ensures { (result ≡ with_byte held b) × (result.seat ≤ 4) × (result.suit ≤ 3) }
{
    if b == b' ' {
        return Held {
            seat: (held.seat + 1) % 4,
            suit: 3,
            ..held
        };
    }
    if b == b'.' {
        return Held {
            suit: held.suit.saturating_sub(1),
            ..held
        };
    }
    with_rank(held, b)
}

// Who holds each card by hands that are written one after the other, the first that of a seat.
pub(crate) fn held_by(hands: &[u8], first: u8) -> Held
    requires { first ≤ 4 }
    ensures { result.holders ≡ held_by (replicate 52 no_seat) first spades hands.now }
{
    let mut held = Held {
        seat: first,
        suit: 3,
        holders: [4; 52],
    };
    for b in hands {
        held = with_byte(held, *b);
    }
    held
}
