// What best play would give from a table record, for C: the record is read up to its last card, and the tricks left that declarer's side takes are told.
#![tactic(auto)]

ghost use Rattle.std.specs.Prelude.{◌≡◌};
ghost use Rattle.laws.specs.BestRecord.{best_of, best_number};
ghost use Rattle.laws.specs.Refused.{placed_of};
ghost use Rattle.best_record.specs.Ending.{ending_at};

use best_play::best_play;
use last_card::read_to_last_card;
use laws::{Refusal, Refused};

// Whether there is a contract, at most sixteen cards are left, and no trick is under way.
fn is_ending(out: bool, played: u64) -> bool
    ensures { result ≡ ending_at out played }
{
    !out && 36 <= played && played % 4 == 0
}

// How many of the tricks left declarer's side takes by best play on both sides, 0 to 4; or, as the judge refuses the record up to its last card, the refusal
// with its place, and then 31 where no ending has been reached.
pub fn best_tricks(bytes: &[u8]) -> Result<u16, Refused>
    ensures { placed_of result ≡ best_of bytes.now }
{
    let reached = read_to_last_card(bytes)?.value;
    let play = reached.after.play;
    if !is_ending(reached.out, play.played) {
        return Err(Refusal::NoEnding.at(0));
    }
    Ok(best_play(play, (reached.contract.declarer % 2) as u64))
}

// Says them by a number: the tricks, or a refusal × 1024 + its place.
pub fn judge_best_play(bytes: &[u8]) -> u32
    ensures { result ≡ best_number (best_of bytes.now) }
{
    match best_tricks(bytes) {
        Ok(tricks) => u32::from(tricks),
        Err(refused) => u32::from(refused),
    }
}
