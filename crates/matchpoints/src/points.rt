// The matchpoints of a result in a tally.
ghost use Rattle.std.specs.Prelude.{◌≡◌, true};
ghost use Rattle.laws.specs.Law77.{valid_score};
ghost use Rattle.laws.specs.Law78 as Law78;
ghost use Rattle.laws.specs.Refusals.{placed};
ghost use Rattle.tally.specs.Tallies.{scores_in, well_formed};
ghost use Rattle.tally.specs.Points.{matchpoints_of};
ghost use Rattle.matchpoints.specs.Points.{points_answer, below_of, equal_of, standing_of};

use laws::{Refusal, Refused};
use score::Matchpoints;
use tally::{Tally, check, given_refusal};

// The matchpoints of both sides for one result.
#[derive(Clone, Copy, Debug, PartialEq, Eq)]
pub struct BothSides {
    pub ns: Matchpoints,
    pub ew: Matchpoints,
}

// How many results of a tally are below a score, how many are equal to it, and how many there are.
#[derive(Clone, Copy)]
struct Standing {
    below: u8,
    equal: u8,
    results: u8,
}

// The results of an entry that are below a score.
fn below(score: i16, other: i16, count: u8) -> u8
    ensures { result ≡ below_of score other count }
{
    if other < score { count } else { 0 }
}

// The results of an entry that are equal to a score.
fn equal(score: i16, other: i16, count: u8) -> u8
    ensures { result ≡ equal_of score other count }
{
    if score == other { count } else { 0 }
}

// How the results of a tally that is well formed stand to a score.
fn standing_of(t: Tally, score: i16) -> Standing
    requires { well_formed t ≡ true }
    ensures { result ≡ standing_of t score }
{
    let mut lower: u8 = 0;
    let mut same: u8 = 0;
    let mut results: u8 = 0;
    for i in 0..128 {
        let c = t.counts[i];
        if c == 0 {
            return Standing {
                below: lower,
                equal: same,
                results,
            };
        }
        let s = t.scores[i];
        lower += below(score, s, c);
        same += equal(score, s, c);
        results += c;
    }
    Standing {
        below: lower,
        equal: same,
        results,
    }
}

// Law 78A's matchpoints of both sides for one result of a valid score; 21.
fn points_in(t: Tally, score: i16) -> Result<BothSides, Refused>
    requires { (well_formed t ≡ true) × (valid_score score ≡ true) }
    ensures { points_answer result ≡ placed (Law78.matchpoints (scores_in t) score) }
{
    let s = standing_of(t, score);
    if s.equal == 0 {
        return Err(Refusal::ScoreNotInTally.at(0));
    }
    let ns = 2 * u32::from(s.below) + u32::from(s.equal) - 1;
    let ew = 2 * (u32::from(s.results) - 1) - ns;
    Ok(BothSides {
        ns: Matchpoints(ns),
        ew: Matchpoints(ew),
    })
}

// Law 78A's matchpoints of both sides for one result: a score with the holders of the cards that were played; 17, 20, 4, 28 or 21.
pub fn matchpoints(t: Tally, score: i16, holders: &[u8]) -> Result<BothSides, Refused>
    ensures { points_answer result ≡ matchpoints_of t (record { score = score; deal = holders.now }) }
{
    let x = check(t)?;
    given_refusal(t.deal, x.results, score, holders)?;
    points_in(t, score)
}
