// A deal as it is given: its refusal, as where a record is written from its contents, or its holders and hands.
ghost use Rattle.std.specs.Prelude.{◌≡◌, [], true};
ghost use Rattle.laws.specs.Contents.{are_seats, take_deal};
ghost use Rattle.laws.specs.Refused.{placed_of};
ghost use Rattle.deal.specs.Taking.{taken_by};

use super::{hands, seat_without_thirteen};
use laws::{Refusal, Refused};

// The holders of the cards, and the hands of the four seats. That the hands are those of the holders is no ghost field: `taken_by`, which stands in clauses,
// builds a value of any holders. `position::Start` keeps it, for a deal with thirteen cards a seat.
#[derive(Clone, Copy, Debug, PartialEq, Eq)]
pub struct Dealt {
    pub holders: [u8; 52],
    pub hands: [u64; 4],
}

// A deal to try calls with: North has the clubs, East the diamonds, South the hearts and West the spades.
pub const SUITS: [u8; 52] = [
    0, 0, 0, 0, 0, 0, 0, 0, 0, 0, 0, 0, 0, 1, 1, 1, 1, 1, 1, 1, 1, 1, 1, 1, 1, 1, 2, 2, 2, 2, 2, 2,
    2, 2, 2, 2, 2, 2, 2, 3, 3, 3, 3, 3, 3, 3, 3, 3, 3, 3, 3, 3,
];

// Whether there are 52 holders, and each is a seat.
pub fn are_seats(holders: &[u8]) -> bool
    ensures { result ≡ are_seats holders.now }
{
    holders.len() == 52 && holders.iter().all(|holder| *holder <= 3)
}

// A deal of any number of holders.
pub fn take(holders: &[u8]) -> Result<Dealt, Refused>
    ensures { placed_of result ≡ taken_by holders.now (take_deal holders.now [] 0) }
{
    if !are_seats(holders) {
        return Err(Refusal::NotThirteen.at(4));
    }
    let mut row = [0u8; 52];
    row.copy_from_slice(holders);
    take_seats(row)
}

// A deal of 52 holders, each a seat.
fn take_seats(holders: [u8; 52]) -> Result<Dealt, Refused>
    requires { are_seats holders ≡ true }
    ensures { placed_of result ≡ taken_by holders (take_deal holders [] 0) }
{
    let hands = hands(holders);
    match seat_without_thirteen(hands) {
        Some(seat) => Err(Refusal::NotThirteen.at(seat as u16)),
        None => Ok(Dealt { holders, hands }),
    }
}

// A deal of 52 holders.
pub fn take_places(holders: [u8; 52]) -> Result<Dealt, Refused>
    ensures { placed_of result ≡ taken_by holders (take_deal holders [] 0) }
{
    take(&holders)
}
