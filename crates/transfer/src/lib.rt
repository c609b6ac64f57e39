// Law 64: the tricks that change sides for the revokes of a board, counted from the last revoke to the first.
#![tactic(auto)]

ghost use Rattle.std.specs.Prelude.{◌≡◌, List, ℕ, ◌<◌, ◌-◌, min, get_or, drop};
ghost use Rattle.std.specs.Option.{unwrap_or};
ghost use Rattle.laws.specs.Cards.{no_seat, side_of};
ghost use Rattle.laws.specs.Law44.{tricks_won};
ghost use Rattle.laws.specs.Law64.{repeated, entitlement, won_from, side_revoked, both_revoked, tricks_after};
ghost use Rattle.transfer.specs.Inputs.{
  counted_of,
  counted_at,
  revokes_in,
  winners_in,
  claimed_by,
  earlier,
  total_from,
  transferred_in,
};

use play::Tricks;
use position::Listed;

// Whether the seat of revoke i has revoked in the same suit before.
fn is_repeat(list: [u8; 48], i: usize) -> bool
    requires { i < 48 }
    ensures { (free : List ℕ) (f : ℕ) → result ≡ repeated (earlier i list free) (counted_of (get_or list i 0) f) }
{
    let mine = list[i] % 16;
    list[..i].iter().any(|byte| *byte % 16 == mine)
}

// The winner of a trick, where it is complete.
fn winner_of(ts: Tricks, trick: u8) -> Option<u8>
    ensures { unwrap_or result no_seat ≡ get_or (winners_in ts) (trick - 1) no_seat }
{
    let at = trick.saturating_sub(1) as usize;
    if at < (ts.count as usize).min(13) {
        return Some(ts.answers[at].seat);
    }
    None
}

// The tricks that revoke i entitles the other side to.
fn entitled(rs: Listed, ts: Tricks, dummy: u8, i: usize) -> u16
    requires { i < 48 }
    ensures { result ≡ entitlement dummy (winners_in ts) (earlier i rs.list rs.excused) (counted_at rs i) }
{
    let byte = rs.list[i];
    let seat = byte / 4 % 4;
    if seat == dummy {
        return 0;
    }
    if byte / 16 == 12 {
        return 0;
    }
    let list = rs.list;
    if is_repeat(list, i) {
        return 0;
    }
    if rs.excused[i] == 1 {
        return 0;
    }
    let Some(winner) = winner_of(ts, byte / 16) else {
        return 1;
    };
    if winner == seat { 2 } else { 1 }
}

// The complete tricks that a side won from a trick on.
fn won_from(ts: Tricks, side: u8, trick: u8) -> u16
    ensures { result ≡ tricks_won side (drop (trick - 1) (winners_in ts)) }
{
    let first = trick.saturating_sub(1) as usize;
    ts.answers
        .iter()
        .take(ts.count as usize)
        .skip(first)
        .filter(|won| won.seat % 2 == side)
        .count() as u16
}

// The tricks that a side gets by the claim: declarer's side those claimed, the defenders the others.
#[tactic(auto, unfolding(crate::specs::Inputs::claimed_by, laws::specs::Law68::claimed_tricks))]
fn claimed_by(declarer: u8, claim: u8, left: u8, side: u8) -> u16
    ensures { result ≡ claimed_by declarer claim left side }
{
    if side == declarer % 2 {
        return claim as u16;
    }
    left.saturating_sub(claim) as u16
}

// Whether some revoke is by the side.
pub fn side_revoked(rs: Listed, side: u8) -> bool
    ensures { result ≡ side_revoked side (revokes_in rs) }
{
    let count = (rs.count as usize).min(48);
    rs.list[..count].iter().any(|byte| *byte / 4 % 2 == side)
}

// The tricks that a side won from the trick of revoke byte on, claimed ones included.
fn available(ts: Tricks, declarer: u8, claim: u8, left: u8, byte: u8) -> u16
    ensures { result ≡ won_from (winners_in ts) (claimed_by declarer claim left) (side_of (counted_of byte 0).seat) (counted_of byte 0).trick }
{
    let side = byte / 4 % 4 % 2;
    won_from(ts, side, byte / 16) + claimed_by(declarer, claim, left, side)
}

// From the last revoke to the first: its tricks are added, up to what its side won from there on.
fn total(rs: Listed, ts: Tricks, declarer: u8, claim: u8, left: u8) -> u16
    ensures { result ≡ total_from 0 rs ts declarer claim left }
{
    let dummy = (declarer % 4 + 2) % 4;
    let mut sum: u16 = 0;
    for i in (0..(rs.count as usize).min(48)).rev() {
        let due = entitled(rs, ts, dummy, i);
        sum = (sum + due).min(available(ts, declarer, claim, left, rs.list[i]));
    }
    sum
}

// Whether both sides have revoked.
#[tactic(auto, unfolding(laws::specs::Law64::both_revoked))]
fn both_revoked(rs: Listed) -> bool
    ensures { result ≡ both_revoked (revokes_in rs) }
{
    side_revoked(rs, 0) && side_revoked(rs, 1)
}

// The tricks that change sides, where declarer's side claimed so many of the tricks left; without a claim both numbers are 0.
pub fn transferred(rs: Listed, ts: Tricks, declarer: u8, claim: u8, left: u8) -> u16
    ensures { result ≡ transferred_in rs ts declarer claim left }
{
    if both_revoked(rs) {
        return 0;
    }
    total(rs, ts, declarer, claim, left)
}

// Declarer's tricks after the transfer.
#[tactic(auto, unfolding(laws::specs::Law64::tricks_after))]
pub fn tricks_after(rs: Listed, declarer: u8, won: u16, moved: u16) -> u32
    ensures { result ≡ tricks_after declarer (revokes_in rs) won moved }
{
    if side_revoked(rs, declarer % 2) {
        return won.saturating_sub(moved) as u32;
    }
    won as u32 + moved as u32
}
