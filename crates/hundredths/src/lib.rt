// The shares of both sides in a result: hundredths of a per cent of the matchpoints that it can have, rounded half up from the exact fraction.
#![tactic(auto)]

ghost use Rattle.std.specs.Prelude.{◌≡◌};
ghost use Rattle.laws.specs.Refusals.{given};
ghost use Rattle.hundredths.specs.Shares.{share_of, shares, shares_by, share_answer, shares_of_tally};

use laws::Refused;
use tally::Tally;

// What stands for a result that is alone on its board, for C too: no share is so great, and no second value has to say so.
pub const ALONE: u32 = 65535;

// The shares of both sides.
#[derive(Clone, Copy, Debug, PartialEq, Eq)]
pub struct Shares {
    pub ns: u32,
    pub ew: u32,
}

// So many points of so many, in hundredths of a per cent; `ALONE` where there are none to be had.
pub fn share(points: u8, most: u16) -> u32
    ensures { result ≡ share_of points most }
{
    if most == 0 {
        return ALONE;
    }
    (20000 * u32::from(points) + u32::from(most)) / (2 * u32::from(most))
}

// The shares of both sides, by their matchpoints: together those that can be had.
fn shares_by(ns: u8, ew: u8) -> Shares
    ensures { given (shares result) ≡ shares_by ns ew }
{
    let most = u16::from(ns) + u16::from(ew);
    Shares {
        ns: share(ns, most),
        ew: share(ew, most),
    }
}

// The shares of one result: a score with the holders of the cards that were played; 17, 20, 4, 28 or 21.
pub fn shares_of(t: Tally, score: i16, holders: &[u8]) -> Result<Shares, Refused>
    ensures { share_answer result ≡ shares_of_tally t (record { score = score; deal = holders.now }) }
{
    let points = matchpoints::matchpoints(t, score, holders)?;
    Ok(shares_by(points.ns.0 as u8, points.ew.0 as u8))
}
