// What best play would give from a position: the most and the least of what each card leads to, with one card fewer each time.
#![tactic(auto)]

ghost use Rattle.std.specs.Prelude.{◌≡◌, ◌-◌, ◌≤◌};
ghost use Rattle.best_play.specs.Search.{within, may_in, gain_in, ours_in, most_in, least_in, value_in, best_in};

use play::Play;

// Whether a card may be played: it is in the hand of the seat at turn, and of the suit led where that seat holds it.
pub fn may_play(p: Play, card: u8) -> bool
    ensures { result ≡ may_in p card }
{
    if 52 <= card {
        return false;
    }
    let at = card as usize;
    if p.holders[at] as u64 != p.turn() {
        return false;
    }
    if p.played % 4 == 0 {
        return true;
    }
    if (card / 13) as u64 == p.led {
        return true;
    }
    !deal::holds_suit(p.hand(), (p.led % 4) as u8)
}

// What the card gained that led to the position: 1 where it completed a trick that the side won, else 0.
#[tactic(auto, unfolding(crate::specs::Search::gain_in))]
fn gain(after: Play, side: u64) -> u16
    ensures gain { result ≡ gain_in side after }
    ensures one { result ≤ 1 }
{
    if after.played % 4 != 0 {
        return 0;
    }
    if after.leader % 2 != side {
        return 0;
    }
    1
}

// Whether a player of the side is at turn.
#[tactic(auto, unfolding(crate::specs::Search::ours_in))]
fn is_ours(p: Play, side: u64) -> bool
    ensures { result ≡ ours_in side p }
{
    p.turn() % 2 == side
}

// From where to where a number is told. That the ceiling is at most 1000 keeps every sum within 16 bits.
#[derive(Clone, Copy)]
struct Window {
    floor: u16,
    ceiling: u16,
    ghost order: { floor ≤ ceiling },
    ghost low: { ceiling ≤ 1000 },
}

// Declarer's side picks the most, with so many cards left. It is told as far as it lies from the floor to the ceiling: where it reaches the ceiling, no other
// card is tried.
#[cycle(search)]
fn most(p: Play, side: u64, left: u8, window: Window) -> u16
    ensures told { result ≡ within window.floor window.ceiling (most_in side left p) }
    ensures from { window.floor ≤ result }
    ensures to { result ≤ window.ceiling }
{
    let floor = window.floor;
    let ceiling = window.ceiling;
    if left == 0 {
        return floor;
    }
    let mut best = floor;
    for card in 0..52u8 {
        if best == ceiling {
            return best;
        }
        if !may_play(p, card) {
            continue;
        }
        let after = p.play(card);
        let gained = gain(after, side);
        let low = best.saturating_sub(gained);
        let high = ceiling - gained;
        let inner = Window {
            floor: low,
            ceiling: high,
        };
        if is_ours(after, side) {
            best = gained + most(after, side, left - 1, inner);
            continue;
        }
        best = gained + least(after, side, left - 1, inner);
    }
    best
}

// The defenders pick the least; where it reaches the floor, no other card is tried.
#[cycle(search)]
fn least(p: Play, side: u64, left: u8, window: Window) -> u16
    ensures told { result ≡ within window.floor window.ceiling (least_in side left p) }
    ensures from { window.floor ≤ result }
    ensures to { result ≤ window.ceiling }
{
    let floor = window.floor;
    let ceiling = window.ceiling;
    if left == 0 {
        return floor;
    }
    let mut best = floor.max(ceiling.min(13));
    for card in 0..52u8 {
        if best == floor {
            return best;
        }
        if !may_play(p, card) {
            continue;
        }
        let after = p.play(card);
        let gained = gain(after, side);
        let low = floor.saturating_sub(gained);
        let high = best - gained;
        let inner = Window {
            floor: low,
            ceiling: high,
        };
        if is_ours(after, side) {
            best = gained + most(after, side, left - 1, inner);
            continue;
        }
        best = gained + least(after, side, left - 1, inner);
    }
    best
}

// The most where a player of the side is at turn, and else the least.
fn value(p: Play, side: u64, left: u8, window: Window) -> u16
    ensures told { result ≡ within window.floor window.ceiling (value_in side left p) }
    ensures from { window.floor ≤ result }
    ensures to { result ≤ window.ceiling }
{
    if is_ours(p, side) {
        return most(p, side, left, window);
    }
    least(p, side, left, window)
}

// The tricks that the side takes of those left by best play on both sides. No value is above 65: the 13 of no card that may be played, and one for each card.
pub fn best_play(p: Play, side: u64) -> u16
    ensures { result ≡ best_in side p }
{
    if 52 < p.played {
        return 0;
    }
    value(
        p,
        side,
        (52 - p.played) as u8,
        Window {
            floor: 0,
            ceiling: 65,
        },
    )
}
