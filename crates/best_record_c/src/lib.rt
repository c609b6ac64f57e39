// What best play would give from a table record, as C calls it.
#![tactic(auto)]

ghost use Rattle.std.specs.Prelude.{◌≡◌};
ghost use Rattle.laws.specs.BestRecord.{best_of, best_number};

// Says how many of the tricks left declarer's side takes by best play on both sides, 0 to 4; or a refusal × 1024 + its place, as the judge refuses the record
// up to its last card, and then 31 where no ending has been reached.
#[unsafe(no_mangle)]
pub extern "C" fn judge_best_play(bytes: &[u8]) -> u32
    ensures { result ≡ best_number (best_of bytes.now) }
{
    best_record::judge_best_play(bytes)
}
