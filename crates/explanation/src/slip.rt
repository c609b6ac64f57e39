// The items of Law 77 that make a record's score, from its judgement.
ghost use Rattle.std.specs.Prelude.{◌≡◌, ◌≤◌, ◌<◌, ◌/◌, ◌%◌, pos, neg_ℤ, nat_abs, true, false};
ghost use Rattle.laws.specs.Judge.{least_rooms, judge_of};
ghost use Rattle.laws.specs.Law77.{declarer_score, is_made, ns_score};
ghost use Rattle.laws.specs.Refused.{placed_of};
ghost use Rattle.law77.specs.Scoring.{stake_of};
ghost use Rattle.explanation.specs.Explained.{Possible, no_items, items_for, level_in, stake_in, tricks_in, items_at, explained_of};

use super::played::Played;
use judgement::judge;
use law77::{
    Stake, declarer_score, doubling_points, game_points, overtricks, part_score_points,
    slam_points, trick_points, undertricks,
};
use laws::Refused;

// Points from North-South under each name, 0 for nothing, and their sum.
#[derive(Clone, Copy, Default)]
pub struct Items {
    pub tricks: i16,
    pub overtricks: i16,
    pub undertricks: i16,
    pub partscore: i16,
    pub game: i16,
    pub slam: i16,
    pub doubling: i16,
    pub sum: i16,
}

// A score of declarer's side from North-South.
fn from_ns(score: i64, declarer: u8) -> i16
    requires { nat_abs score ≤ 7600 }
    ensures { result ≡ ns_score declarer score }
{
    law77::ns_score(score, declarer) as i16
}

// Points that declarer's side gains.
fn gained(points: u64, declarer: u8) -> i16
    requires { points ≤ 7600 }
    ensures { result ≡ ns_score declarer (pos points) }
{
    from_ns(points as i64, declarer)
}

// Points that it loses.
fn lost(points: u64, declarer: u8) -> i16
    requires { points ≤ 7600 }
    ensures { result ≡ ns_score declarer (neg_ℤ (pos points)) }
{
    from_ns(-(points as i64), declarer)
}

// The score from North-South.
fn score(p: Played) -> i16
    ensures { result ≡ ns_score p.declarer (declarer_score (stake_of p.stake) p.tricks) }
{
    from_ns(declarer_score(p.stake, p.tricks), p.declarer)
}

// Of a contract that went down.
fn items_down(p: Played) -> Items
    requires { is_made (stake_of p.stake) p.tricks ≡ false }
    ensures { result ≡ items_for p.declarer (stake_of p.stake) p.tricks }
{
    let down = p.stake.level as u32 + 6 - p.tricks;
    Items {
        undertricks: lost(undertricks(p.stake, down), p.declarer),
        sum: score(p),
        ..Items::default()
    }
}

// Of a contract that was made.
fn items_made(p: Played) -> Items
    requires { is_made (stake_of p.stake) p.tricks ≡ true }
    ensures { result ≡ items_for p.declarer (stake_of p.stake) p.tricks }
{
    let over = p.tricks - (p.stake.level as u32 + 6);
    let s = p.stake;
    let d = p.declarer;
    Items {
        tricks: gained(trick_points(s) as u64, d),
        overtricks: gained(overtricks(s, over), d),
        partscore: gained(part_score_points(s) as u64, d),
        game: gained(game_points(s) as u64, d),
        slam: gained(slam_points(s) as u64, d),
        doubling: gained(doubling_points(s) as u64, d),
        sum: score(p),
        ..Items::default()
    }
}

fn items_of(p: Played) -> Items
    ensures { result ≡ items_for p.declarer (stake_of p.stake) p.tricks }
{
    if p.tricks < p.stake.level as u32 + 6 {
        return items_down(p);
    }
    items_made(p)
}

// Some bits of the answer: those that are left of so many, as many as a byte has at the most.
fn part(bits: u64, behind: u64, values: u64) -> u8
    requires behind { 0 < behind }
    requires some { 0 < values }
    requires few { values ≤ 256 }
    ensures { result ≡ bits / behind % values }
{
    (bits / behind % values) as u8
}

// The items of an accepted record, from the 56 bits of its answer.
fn items_in(bits: u64) -> Items
    requires { (level_in bits ≡ 0 → ⊥) → Possible (stake_in bits) (tricks_in bits) }
    ensures { result ≡ items_at bits }
{
    let level = part(bits, 137438953472, 8);
    if level == 0 {
        return Items::default();
    }
    let declarer = part(bits, 1073741824, 4);
    let board = part(bits, 562949953421312, 128);
    let stake = Stake {
        level,
        strain: part(bits, 17179869184, 8),
        doubling: part(bits, 4294967296, 4),
        vulnerable: deal::vulnerable(board, declarer),
    };
    items_of(Played {
        stake,
        tricks: part(bits, 4194304, 16) as u32,
        declarer,
    })
}

// The items of Law 77 that make the score of a table record, or the judge's refusal with its place.
pub fn explain(bytes: &[u8]) -> Result<Items, Refused>
    ensures { placed_of result ≡ explained_of (judge_of bytes.now least_rooms) }
{
    // A match, not `?`: a refused edit changes the place that is handed on.
    match judge(bytes) {
        Ok(judged) => Ok(items_in(judged.bits)),
        Err(refused) => Err(refused),
    }
}
