// Law 68 by the number of cards played: whether a claim may stand, and how many tricks are left.
#![tactic(auto, unfolding(crate::specs::Claims::point_at, crate::specs::Claims::may_claim))]

ghost use Rattle.std.specs.Prelude.{◌≡◌, ◌-◌, ◌/◌};
ghost use Rattle.claims.specs.Claims.{may_claim};

// Whether a claim may stand after so many cards; `out` says that the board was passed out.
pub fn may_claim(out: bool, played: u8) -> bool
    ensures { result ≡ may_claim out played }
{
    !out && 1 <= played && played <= 51
}

// The tricks left after so many cards.
pub fn tricks_left(played: u8) -> u8
    ensures { result ≡ 13 - played / 4 }
{
    13u8.saturating_sub(played / 4)
}
