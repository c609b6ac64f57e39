// The calls of a record's contents, each checked on those before it, as the Laws' section of that name is.
ghost use Rattle.std.specs.Prelude.{◌≡◌, [], ◌≤◌, length};
ghost use Rattle.laws.specs.CallRefusal.{call_refusal, call_place};
ghost use Rattle.laws.specs.Contents.{take_each, take_calls};
ghost use Rattle.laws.specs.Refused.{placed_of};
ghost use Rattle.contents.specs.Checked.{calls_by};

use auction::Auction;
use laws::{Refusal, Refused};

// The position after the calls, each checked on those before it.
fn take_each_call(calls: &[u8], dealer: u8) -> Result<Auction, Refused>
    requires { length calls.now ≤ 511 }
    ensures { placed_of result ≡ calls_by dealer (take_each (call_place dealer) (call_refusal dealer) calls.now [] [] 0) }
{
    let mut auction = Auction::new(dealer);
    for (i, call) in calls.iter().enumerate() {
        auction = auction.take(*call, i as u16)?;
    }
    Ok(auction)
}

// The position after the calls, at most 511 codes, where the auction is over after them.
pub fn take_calls(calls: &[u8], dealer: u8) -> Result<Auction, Refused>
    ensures { placed_of result ≡ calls_by dealer (take_calls dealer calls.now [] 0) }
{
    if 511 < calls.len() {
        return Err(Refusal::TooManyCalls.at(511));
    }
    let after = take_each_call(calls, dealer)?;
    if !after.is_over() {
        return Err(Refusal::AuctionUnfinished.at(calls.len() as u16));
    }
    Ok(after)
}
