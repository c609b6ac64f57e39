// Worked plays, four lines each: the winners of the tricks (seat, card), the revokes (trick, seat, suit led), the tricks of each side, and what
// Law 64 makes of a claim.
// A card is 13 × suit + rank: clubs from 0, diamonds from 13, hearts from 26, spades from 39, the two first. Seats are 0 North to 3 West.
#![tactic(auto)]

use play::{Play, Tricks};
use position::{Listed, Table};
use std::io::Write;
use std::{array, io};

// A rank and a suit make the seat, in turn: North has the 2 6 T A of clubs, the 5 9 K of diamonds, the 4 8 Q of hearts and the 3 7 J of spades;
// East the 3 7 J, 2 6 T A, 5 9 K and 4 8 Q; South the 4 8 Q, 3 7 J, 2 6 T A and 5 9 K; West the 5 9 K, 4 8 Q, 3 7 J and 2 6 T A.
fn deal() -> [u8; 52] {
    array::from_fn(|card| ((card % 13 + card / 13) % 4) as u8)
}

fn show_winners<W: Write>(out: &mut W, ts: Tricks) -> io::Result<()> {
    write!(out, "winners")?;
    for won in ts.answers.iter().take(ts.count as usize) {
        write!(out, " {},{}", won.seat, won.card)?;
    }
    writeln!(out)
}

fn show_revokes<W: Write>(out: &mut W, rs: Listed) -> io::Result<()> {
    write!(out, "revokes")?;
    for byte in rs.list.iter().take(rs.count as usize) {
        write!(out, " {},{},{}", byte / 16, byte / 4 % 4, byte % 4)?;
    }
    writeln!(out)
}

fn show_sides<W: Write>(out: &mut W, ts: Tricks) -> io::Result<()> {
    let [north_south, east_west] = ts.won;
    writeln!(out, "NS {north_south} EW {east_west}")
}

// South's claim of so many of the tricks left.
fn show_claim<W: Write>(
    out: &mut W,
    ts: Tricks,
    rs: Listed,
    claim: u8,
    left: u8,
) -> io::Result<()> {
    let won = u16::from(ts.won[0]) + u16::from(claim);
    let moved = transfer::transferred(rs, ts, 2, claim, left);
    let after = transfer::tricks_after(rs, 2, won, moved);
    writeln!(out, "claim {claim} moved {moved} after {after}")
}

// Hearts are trumps and West leads; South is declarer and North dummy.
fn show<W: Write>(out: &mut W, cards: &[u8], claim: u8, left: u8) -> io::Result<()> {
    let holders = deal();
    let mut p = Play::new(holders, deal::hands(holders), 2, 3);
    for (i, card) in cards.iter().enumerate() {
        match p.take(*card) {
            Ok(next) => p = next,
            Err(why) => return writeln!(out, "refused {} at {i}", why.number()),
        }
    }
    let ts = p.tricks();
    let rs = Table::after_cards(p, 3).revokes();
    show_winners(out, ts)?;
    show_revokes(out, rs)?;
    show_sides(out, ts)?;
    show_claim(out, ts, rs, claim, left)
}

// Three rounds of spades, won by South's 5, South's 9 and West's ace; on the fourth North ruffs with the 4 of hearts, East overruffs
// with the 5, and South, who has no spade left, discards a diamond.
fn ruff_and_overruff<W: Write>(out: &mut W) -> io::Result<()> {
    show(
        out,
        &[
            39, 40, 41, 42, 46, 43, 44, 45, 50, 51, 48, 49, 47, 28, 29, 14,
        ],
        5,
        9,
    )
}

// After these, East leads the 2 of diamonds, South plays the 7, and West revokes with a club. South's 7 wins.
fn defender_revokes<W: Write>(out: &mut W) -> io::Result<()> {
    show(
        out,
        &[
            39, 40, 41, 42, 46, 43, 44, 45, 50, 51, 48, 49, 47, 28, 29, 14, 13, 18, 3, 16,
        ],
        3,
        8,
    )?;
    show(
        out,
        &[
            39, 40, 41, 42, 46, 43, 44, 45, 50, 51, 48, 49, 47, 28, 29, 14, 13, 18, 3, 16,
        ],
        8,
        8,
    )
}

// South revokes with a club and North's 5 wins; then South revokes with a trump, which wins.
fn declarer_revokes<W: Write>(out: &mut W) -> io::Result<()> {
    show(
        out,
        &[
            39, 40, 41, 42, 46, 43, 44, 45, 50, 51, 48, 49, 47, 28, 29, 14, 13, 2, 15, 16,
        ],
        4,
        8,
    )?;
    show(
        out,
        &[
            39, 40, 41, 42, 46, 43, 44, 45, 50, 51, 48, 49, 47, 28, 29, 14, 13, 26, 15, 16,
        ],
        4,
        8,
    )?;
    show(
        out,
        &[
            39, 40, 41, 42, 46, 43, 44, 45, 50, 51, 48, 49, 47, 28, 29, 14, 13, 26, 15, 16,
        ],
        0,
        8,
    )
}

// North revokes in dummy with a club; South's 7 wins.
fn dummy_revokes<W: Write>(out: &mut W) -> io::Result<()> {
    show(
        out,
        &[
            39, 40, 41, 42, 46, 43, 44, 45, 50, 51, 48, 49, 47, 28, 29, 14, 13, 18, 15, 0,
        ],
        4,
        8,
    )
}

// A card of another hand, a card that its own seat has played, one that another seat has played, and no card.
fn refusals<W: Write>(out: &mut W) -> io::Result<()> {
    show(out, &[39, 41], 0, 0)?;
    show(out, &[39, 40, 41, 42, 42], 0, 0)?;
    show(out, &[39, 40, 41, 42, 41], 0, 0)?;
    show(out, &[52], 0, 0)
}

fn main(rt: HostRuntime) -> io::Result<()> {
    let mut out = rt.stdout();
    ruff_and_overruff(&mut out)?;
    defender_revokes(&mut out)?;
    declarer_revokes(&mut out)?;
    dummy_revokes(&mut out)?;
    refusals(&mut out)
}
