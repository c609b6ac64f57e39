// A line followed from its front and compared with the Deal line of a seat and holders: the place up to where it was the same, none where it was another.
ghost use Rattle.std.specs.Prelude.{◌≡◌, List, ◌∷◌, ◌++◌, ℕ, ◌<◌};
ghost use Rattle.laws.specs.PbnText.{ranks_held, hand_and, hands_and};
ghost use Rattle.pbn_deal.specs.Walks.{follows};

use pbn_words::rank_letter;

// One byte more.
pub(crate) fn over_byte(line: &[u8], from: Option<usize>, byte: u8) -> Option<usize>
    ensures { (t : List ℕ) → follows line.now from (byte ∷ t) ≡ follows line.now result t }
{
    let at = from?;
    if at < line.len() && line[at] == byte {
        return Some(at + 1);
    }
    None
}

// The ranks that a seat holds in a suit.
fn over_suit(
    line: &[u8],
    from: Option<usize>,
    holders: [u8; 52],
    seat: u8,
    suit: usize,
) -> Option<usize>
    requires { suit < 4 }
    ensures { (t : List ℕ) → follows line.now from (ranks_held holders seat suit 13 ++ t) ≡ follows line.now result t }
{
    let mut at = from;
    for rank in (0..13).rev() {
        if holders[13 * suit + rank] == seat {
            at = over_byte(line, at, rank_letter(rank));
        }
    }
    at
}

// A hand.
fn over_hand(line: &[u8], from: Option<usize>, holders: [u8; 52], seat: u8) -> Option<usize>
    ensures { (t : List ℕ) → follows line.now from (hand_and holders seat t) ≡ follows line.now result t }
{
    let spades = over_byte(line, over_suit(line, from, holders, seat, 3), b'.');
    let hearts = over_byte(line, over_suit(line, spades, holders, seat, 2), b'.');
    let diamonds = over_byte(line, over_suit(line, hearts, holders, seat, 1), b'.');
    over_suit(line, diamonds, holders, seat, 0)
}

// The four hands from a seat on.
pub(crate) fn over_hands(
    line: &[u8],
    from: Option<usize>,
    holders: [u8; 52],
    first: u8,
) -> Option<usize>
    requires { first < 4 }
    ensures { (t : List ℕ) → follows line.now from (hands_and first holders t) ≡ follows line.now result t }
{
    let a = over_byte(line, over_hand(line, from, holders, first), b' ');
    let b = over_byte(line, over_hand(line, a, holders, (first + 1) % 4), b' ');
    let c = over_byte(line, over_hand(line, b, holders, (first + 2) % 4), b' ');
    over_hand(line, c, holders, (first + 3) % 4)
}
