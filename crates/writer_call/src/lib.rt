// The writer of table records, for C.
#![tactic(auto)]

ghost use Rattle.std.specs.Prelude.{◌≡◌, length};
ghost use Rattle.laws.specs.Writing.{write_of, number_of, record_left};
ghost use Rattle.contents.specs.Given.{given};

use contents::Given;

// Writes a record from its contents over the front of a buffer. `plays` has the cards and the codes among them, a flat list of numbers; `marked` 0 is no
// claim, anything else a claim of `claim`. The answer is how many bytes were written, which is below 1024; or a refusal × 1024 + its place, with the buffer as
// it was.
pub fn judge_write_record(
    board: u32,
    table: u32,
    holders: &[u8],
    calls: &[u8],
    plays: &[u8],
    marked: u32,
    claim: u32,
    out: &mut [u8],
) -> u32
    ensures number { result
        ≡ number_of (write_of (given board table holders.now calls.now plays.now marked claim)
        (length out.old)) }
    ensures left { out.new
        ≡ record_left (write_of (given board table holders.now calls.now plays.now marked claim)
        (length out.old)) out.old }
{
    let given = Given {
        board,
        table,
        holders,
        calls,
        plays,
        claim: if marked == 0 { None } else { Some(claim) },
    };
    match writer::write_record(given, out) {
        Ok(size) => size as u32,
        Err(refused) => u32::from(refused),
    }
}
