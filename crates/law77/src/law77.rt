// Law 77, item by item: the score of a contract.
ghost use Rattle.std.specs.Prelude.{◌≡◌, ◌+◌, ◌-◌, ◌*◌, ◌<◌, nat_abs, if◌then◌else◌};
ghost use Rattle.std.specs.Int.{int_wrap};
ghost use mir.Syntax.{w64};
ghost use Rattle.laws.specs.Law77;
ghost use Rattle.law77.specs.Scoring.{stake_of, made_points};

// What a contract is played for. Strain and doubling are numbers: the clauses of what is public here speak of every value of a field.
#[derive(Clone, Copy, Debug, PartialEq, Eq)]
pub struct Stake {
    pub level: u8,
    pub strain: u8,
    pub doubling: u8,
    pub vulnerable: bool,
}

fn by_vulnerability(s: Stake, not: u32, yes: u32) -> u32
    ensures { result ≡ Law77.by_vulnerability (stake_of s) not yes }
{
    if s.vulnerable { yes } else { not }
}

fn by_doubling(s: Stake, undoubled: u32, doubled: u32, redoubled: u32) -> u32
    ensures { result ≡ Law77.by_doubling (stake_of s) undoubled doubled redoubled }
{
    match s.doubling {
        0 => undoubled,
        1 => doubled,
        _ => redoubled,
    }
}

#[tactic(auto, unfolding(laws::specs::Law77::trick_value))]
fn trick_value(strain: u8) -> u32
    ensures { result ≡ Law77.trick_value strain }
{
    if strain < 2 { 20 } else { 30 }
}

#[tactic(auto, unfolding(laws::specs::Law77::first_trick_value))]
fn first_trick_value(strain: u8) -> u32
    ensures { result ≡ Law77.first_trick_value strain }
{
    if strain == 4 {
        return 40;
    }
    trick_value(strain)
}

pub fn trick_points(s: Stake) -> u32
    ensures { result ≡ Law77.trick_points (stake_of s) }
{
    let odd_tricks = first_trick_value(s.strain)
        + s.level.saturating_sub(1) as u32 * trick_value(s.strain);
    odd_tricks * by_doubling(s, 1, 2, 4)
}

#[tactic(auto, unfolding(laws::specs::Law77::overtrick_value))]
fn overtrick_value(s: Stake) -> u32
    ensures { result ≡ Law77.overtrick_value (stake_of s) }
{
    let doubled = by_vulnerability(s, 100, 200);
    let redoubled = by_vulnerability(s, 200, 400);
    by_doubling(s, trick_value(s.strain), doubled, redoubled)
}

#[tactic(auto, unfolding(laws::specs::Law77::doubled_undertrick))]
fn doubled_undertrick(s: Stake, k: u32) -> u32
    ensures { result ≡ Law77.doubled_undertrick (stake_of s) k }
{
    if k == 1 {
        return by_vulnerability(s, 100, 200);
    }
    if k <= 3 {
        return by_vulnerability(s, 200, 300);
    }
    by_vulnerability(s, 300, 300)
}

fn undertrick_value(s: Stake, k: u32) -> u32
    ensures { result ≡ Law77.undertrick_value (stake_of s) k }
{
    let undoubled = by_vulnerability(s, 50, 100);
    let doubled = doubled_undertrick(s, k);
    by_doubling(s, undoubled, doubled, 2 * doubled)
}

pub fn undertricks(s: Stake, n: u32) -> u64
    ensures { result ≡ Law77.undertricks (stake_of s) n }
{
    let mut points: u64 = 0;
    for k in 0..n {
        points += undertrick_value(s, k + 1) as u64;
    }
    points
}

fn is_game(s: Stake) -> bool
    ensures { result ≡ Law77.is_game (stake_of s) }
{
    100 <= trick_points(s)
}

#[tactic(auto, unfolding(laws::specs::Law77::part_score_points))]
pub fn part_score_points(s: Stake) -> u32
    ensures { result ≡ Law77.part_score_points (stake_of s) }
{
    if is_game(s) {
        return 0;
    }
    50
}

#[tactic(auto, unfolding(laws::specs::Law77::game_points))]
pub fn game_points(s: Stake) -> u32
    ensures { result ≡ Law77.game_points (stake_of s) }
{
    if is_game(s) {
        return by_vulnerability(s, 300, 500);
    }
    0
}

#[tactic(auto, unfolding(laws::specs::Law77::slam_points))]
pub fn slam_points(s: Stake) -> u32
    ensures { result ≡ Law77.slam_points (stake_of s) }
{
    if s.level == 6 {
        return by_vulnerability(s, 500, 750);
    }
    if s.level == 7 {
        return by_vulnerability(s, 1000, 1500);
    }
    0
}

#[tactic(auto, unfolding(laws::specs::Law77::doubling_points))]
pub fn doubling_points(s: Stake) -> u32
    ensures { result ≡ Law77.doubling_points (stake_of s) }
{
    by_doubling(s, 0, 50, 100)
}

// So many overtricks.
pub fn overtricks(s: Stake, over: u32) -> u64
    ensures { result ≡ over * Law77.overtrick_value (stake_of s) }
{
    over as u64 * overtrick_value(s) as u64
}

// The points of a contract made with so many overtricks.
fn made(s: Stake, over: u32) -> u64
    ensures { result ≡ made_points (stake_of s) over }
{
    let premiums = part_score_points(s) + game_points(s) + slam_points(s) + doubling_points(s);
    trick_points(s) as u64 + overtricks(s, over) + premiums as u64
}

// The score of declarer's side.
pub fn declarer_score(s: Stake, tricks: u32) -> i64
    ensures { (result ≡ Law77.declarer_score (stake_of s) tricks) × (nat_abs result < 10000000000000) }
{
    let needed = s.level as u32 + 6;
    if needed <= tricks {
        return made(s, tricks - needed) as i64;
    }
    -(undertricks(s, needed - tricks) as i64)
}

// A score of declarer's side from North-South, in 64 bits: the least number is its own negation there.
pub fn ns_score(score: i64, declarer: u8) -> i64
    ensures { result ≡ int_wrap w64 (Law77.ns_score declarer score) }
{
    if declarer % 2 == 0 {
        return score;
    }
    score.wrapping_neg()
}
