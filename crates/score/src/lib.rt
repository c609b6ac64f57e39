// Valid scores, IMPs by the scale of Law 78B, and the two scoring units with their sums.
#![tactic(auto)]

ghost use Rattle.std.specs.Prelude.{◌≡◌, nat_abs, nat_le, count_by};
ghost use Rattle.laws.specs.Law77.{valid_score};
ghost use Rattle.laws.specs.Law78.{imps};
ghost use Rattle.score.specs.Units.{imp_answer, imp_sum, matchpoint_sum, imps_added, matchpoints_added};

use laws::Refusal;

// A number of matchpoints. No sum takes one of each unit.
#[derive(Clone, Copy, Debug, PartialEq, Eq)]
pub struct Matchpoints(pub u32);

// A number of IMPs, positive for the first of two scores.
#[derive(Clone, Copy, Debug, PartialEq, Eq)]
pub struct Imps(pub i32);

// Law 78B: the least difference in points worth 1, 2, .. 24 IMPs.
const LOWER_ENDS: [u16; 24] = [
    20, 50, 90, 130, 170, 220, 270, 320, 370, 430, 500, 600, 750, 900, 1100, 1300, 1500, 1750,
    2000, 2250, 2500, 3000, 3500, 4000,
];

// Whether a score is a multiple of 10 from -7600 to 7600.
pub fn valid(score: i16) -> bool
    ensures { result ≡ valid_score score }
{
    let size = score.unsigned_abs();
    size <= 7600 && size % 10 == 0
}

// How many of some lower ends a difference reaches.
fn ends_reached(ends: &[u16], size: u16) -> usize
    ensures { result ≡ count_by (λ end. nat_le end size) ends.now }
{
    ends.iter().filter(|end| **end <= size).count()
}

// The IMPs of two scores, first less second; 20 where either is not valid.
pub fn imps_of(first: i16, second: i16) -> Result<Imps, Refusal>
    ensures { imp_answer result ≡ imps first second }
{
    if !valid(first) || !valid(second) {
        return Err(Refusal::InvalidScore);
    }
    let size = ends_reached(&LOWER_ENDS, first.abs_diff(second)) as i32;
    Ok(Imps(if second <= first { size } else { -size }))
}

// The sum of two numbers of IMPs, exact, or that it does not fit.
pub fn add_imps(a: Imps, b: Imps) -> Option<Imps>
    ensures { imp_sum result ≡ imps_added a.0 b.0 }
{
    Some(Imps(a.0.checked_add(b.0)?))
}

// How many IMPs, gained or lost.
pub fn imps_size(imps: Imps) -> u64
    ensures { result ≡ nat_abs imps.0 }
{
    u64::from(imps.0.unsigned_abs())
}

// The sum of two numbers of matchpoints, exact, or that it does not fit.
pub fn add_matchpoints(a: Matchpoints, b: Matchpoints) -> Option<Matchpoints>
    ensures { matchpoint_sum result ≡ matchpoints_added a.0 b.0 }
{
    Some(Matchpoints(a.0.checked_add(b.0)?))
}
