// The deal's functions at work. For some boards: the board, its dealer, and whether North-South and East-West are vulnerable.
// Then, for some deals, the first seat without thirteen cards, 4 where each has thirteen, and how many cards of each suit, and of suit 4, North holds,
// with 1 where it is any.
#![tactic(auto)]

use std::io::Write;
use std::{array, io};

fn board<W: Write>(out: &mut W, b: u8) -> io::Result<()> {
    let dealer = deal::dealer(b);
    let north_south = u8::from(deal::vulnerable(b, 0));
    let east_west = u8::from(deal::vulnerable(b, 3));
    writeln!(out, "{b} {dealer} {north_south} {east_west}")
}

// A deal in which each suit is one seat's: clubs North's, diamonds East's, hearts South's, spades West's.
fn by_suits() -> [u8; 52] {
    array::from_fn(|card| (card / 13 % 4) as u8)
}

fn holdings<W: Write>(out: &mut W, holders: [u8; 52]) -> io::Result<()> {
    let hands = deal::hands(holders);
    let first = deal::seat_without_thirteen(hands).unwrap_or(4);
    write!(out, "{first}")?;
    let north = hands[0];
    for suit in 0..5u8 {
        let held = deal::suit_held(north, suit);
        let any = u8::from(deal::holds_suit(north, suit));
        write!(out, " {held} {any}")?;
    }
    writeln!(out)
}

fn boards<W: Write>(out: &mut W) -> io::Result<()> {
    for b in 1..18u8 {
        board(out, b)?;
    }
    board(out, 127)
}

fn main(rt: HostRuntime) -> io::Result<()> {
    let mut out = rt.stdout();
    boards(&mut out)?;
    let mut holders = by_suits();
    holdings(&mut out, holders)?;
    // North's ace of clubs for East's two of diamonds.
    holders[12] = 1;
    holders[13] = 0;
    holdings(&mut out, holders)?;
    // West has that two of diamonds: North is left with twelve.
    holders[13] = 3;
    holdings(&mut out, holders)?;
    // North has it back, and the two of hearts for the two of clubs: East has fourteen and South twelve, and East comes first.
    holders[13] = 0;
    holders[26] = 0;
    holders[0] = 1;
    holdings(&mut out, holders)
}
