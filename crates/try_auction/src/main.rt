// Worked auctions, a line each: level, strain, doubling and declarer of the contract, or how it ended otherwise.
// Bids are 3 + 5 × (level - 1) + strain: 3 is one club, 5 one heart, 7 one notrump, 20 four hearts.
#![tactic(auto)]

ghost use Rattle.std.specs.Prelude.{◌≤◌, length};

use auction::{Auction, Contract};
use laws::Refused;
use std::io;
use std::io::Write;

// A refused call: its number and its place.
fn refused<W: Write>(out: &mut W, why: Refused) -> io::Result<()> {
    writeln!(out, "refused {} at {}", why.refusal.number(), why.place)
}

// The contract of an auction.
fn contract<W: Write>(out: &mut W, k: Contract) -> io::Result<()> {
    writeln!(
        out,
        "{} {} {} {}",
        k.level, k.strain, k.doubling, k.declarer
    )
}

// How the calls left an auction.
fn ending<W: Write>(out: &mut W, a: Auction) -> io::Result<()> {
    if !a.is_over() {
        return writeln!(out, "not over");
    }
    if a.is_passed_out() {
        return writeln!(out, "passed out");
    }
    contract(out, a.contract())
}

// The calls of one auction, up to the first that is refused.
fn show<W: Write>(out: &mut W, dealer: u8, calls: &[u8]) -> io::Result<()>
    requires { length calls.now ≤ 511 }
{
    let mut a = Auction::new(dealer);
    for (i, call) in calls.iter().enumerate() {
        match a.take(*call, i as u16) {
            Ok(next) => a = next,
            Err(why) => return refused(out, why),
        }
    }
    ending(out, a)
}

// Auctions that the Laws allow.
fn allowed<W: Write>(out: &mut W) -> io::Result<()> {
    // North 1 heart, East 1 spade, South 4 hearts, West doubles, South redoubles after two passes: South bid last,
    // and North was first to bid hearts.
    show(out, 0, &[5, 6, 20, 1, 0, 0, 2, 0, 0, 0])?;
    // West deals and bids 1 club, South 1 notrump after two passes, North 3 notrump after a pass: South was first to bid notrump.
    show(out, 3, &[3, 0, 0, 7, 0, 17, 0, 0, 0])?;
    // East deals, and everybody passes.
    show(out, 1, &[0, 0, 0, 0])?;
    // Three opening passes do not end it, and a bid in the fourth seat is declared there.
    show(out, 0, &[0, 0, 0])?;
    show(out, 0, &[0, 0, 0, 37, 0, 0, 0])
}

// Insufficient bids that were accepted: the mark, 38, takes no turn, and the marked bid stands as the last bid.
fn accepted_bids<W: Write>(out: &mut W) -> io::Result<()> {
    // North 1 spade, East 1 heart, accepted: East declares it.
    show(out, 0, &[6, 38, 5, 0, 0, 0])?;
    // North 1 spade, East 1 heart, accepted; South doubles it, and East redoubles after two passes.
    show(out, 0, &[6, 38, 5, 1, 0, 0, 2, 0, 0, 0])?;
    // North 1 heart, East 1 heart, accepted; South 1 heart, accepted: North was first of that side to bid hearts.
    show(out, 0, &[5, 38, 5, 38, 5, 0, 0, 0])?;
    // After the accepted heart a spade is above the last bid again.
    show(out, 0, &[6, 38, 5, 6, 0, 0, 0])
}

// Marks that are refused: at the mark, once the next code is there.
fn refused_marks<W: Write>(out: &mut W) -> io::Result<()> {
    // No bid yet; a bid above the last; a pass, a double and a second mark after the mark.
    show(out, 0, &[38, 3])?;
    show(out, 0, &[3, 0, 38, 4])?;
    show(out, 0, &[3, 38, 0])?;
    show(out, 0, &[3, 38, 1])?;
    show(out, 0, &[3, 38, 38])?;
    // A code that is neither a call nor a mark comes first; a mark after the end; a mark that ends the list.
    show(out, 0, &[3, 38, 39])?;
    show(out, 0, &[3, 0, 0, 0, 38])?;
    show(out, 0, &[3, 38])?;
    // Without a mark a bid is above the last, also after an accepted one.
    show(out, 0, &[6, 38, 5, 5])
}

// Calls that are refused for what they are.
fn refusals<W: Write>(out: &mut W) -> io::Result<()> {
    // A code that is neither a call nor a mark, also after the end.
    show(out, 0, &[3, 39])?;
    show(out, 0, &[0, 0, 0, 0, 63])?;
    // A bid that is not above the last.
    show(out, 2, &[7, 0, 6])?;
    show(out, 2, &[3, 3])?;
    // A call after the end.
    show(out, 0, &[3, 0, 0, 0, 0])?;
    show(out, 0, &[0, 0, 0, 0, 3])
}

// Doubles and redoubles that are refused.
fn refused_doubles<W: Write>(out: &mut W) -> io::Result<()> {
    // Of nothing; of partner's bid, with a pass between; of a doubled bid.
    show(out, 0, &[1])?;
    show(out, 0, &[3, 0, 1])?;
    show(out, 0, &[3, 1, 0, 1])?;
    // A redouble without a double; by the doubling side; of a redoubled bid.
    show(out, 0, &[3, 2])?;
    show(out, 0, &[3, 1, 0, 2])?;
    show(out, 0, &[3, 1, 2, 0, 2])
}

fn main(rt: HostRuntime) -> io::Result<()> {
    let mut out = rt.stdout();
    allowed(&mut out)?;
    accepted_bids(&mut out)?;
    refusals(&mut out)?;
    refused_marks(&mut out)?;
    refused_doubles(&mut out)
}
