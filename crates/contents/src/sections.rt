// Board and table, and the claim of a record's contents, each checked as the Laws' section of that name is.
ghost use Rattle.std.specs.Prelude.{◌≡◌, [], None};
ghost use Rattle.laws.specs.Contents.{take_heading};
ghost use Rattle.laws.specs.Refused.{placed_of, checked_in};
ghost use Rattle.contents.specs.Checked.{claim_by};
ghost use Rattle.contents.specs.Given.{claimed};

use laws::{Refusal, Refused};

// Board and table.
pub fn check_heading(board: u32, table: u32) -> Result<(), Refused>
    ensures { placed_of result ≡ checked_in (take_heading board table [] 0) }
{
    if 127 < board {
        return Err(Refusal::NoBoardOrTable.at(0));
    }
    if board == 0 {
        return Err(Refusal::NoBoardOrTable.at(0));
    }
    if 511 < table {
        return Err(Refusal::NoBoardOrTable.at(1));
    }
    if table == 0 {
        return Err(Refusal::NoBoardOrTable.at(1));
    }
    Ok(())
}

// A play of so many cards without a claim; `out` says that the board was passed out.
fn check_unclaimed(out: bool, played: u8) -> Result<(), Refused>
    ensures { placed_of result ≡ claim_by out played (claimed None) }
{
    if out {
        return Ok(());
    }
    if played != 52 {
        return Err(Refusal::PlayUnfinished.at(u16::from(played)));
    }
    Ok(())
}

// A claim after so many cards, or no claim.
pub(crate) fn check_claim(out: bool, played: u8, claim: Option<u32>) -> Result<(), Refused>
    ensures { placed_of result ≡ claim_by out played (claimed claim) }
{
    let Some(tricks) = claim else {
        return check_unclaimed(out, played);
    };
    if !claims::may_claim(out, played) {
        return Err(Refusal::NoClaimPoint.at(u16::from(played)));
    }
    if u32::from(claims::tricks_left(played)) < tricks {
        return Err(Refusal::ClaimTooMany.at(tricks.min(15) as u16));
    }
    Ok(())
}
