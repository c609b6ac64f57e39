// A table record written from its contents, given as plain numbers: they are checked in the judge's order, and then written into a lent buffer.
#![tactic(auto)]

mod write;

ghost use Rattle.std.specs.Prelude.{◌≡◌, ◌<◌, length, IfOk};
ghost use Rattle.laws.specs.Refused.{placed_of};
ghost use Rattle.laws.specs.Writing.{write_of, record_left};
ghost use Rattle.contents.specs.Given.{given_with};
ghost use Rattle.writer.specs.Answer.{written_by};

use crate::write::{Plays, length_of, play_bits, write_contents};
use contents::{Given, check_contents};
use laws::{Refusal, Refused};

// Writes a record from its contents over the front of a buffer. The answer is how many bytes were written; or a refusal with its place, with the buffer as it
// was.
pub fn write_record(given: Given, out: &mut [u8]) -> Result<usize, Refused>
    ensures answer { placed_of result ≡ written_by (write_of (given_with given.entry.board given.entry.table
        given.entry.holders.now given.entry.calls.now given.entry.plays.now given.entry.claim) (length out.old)) }
    ensures most { IfOk result (λ size. size < 1024) }
    ensures left { out.new ≡ record_left (write_of (given_with given.entry.board given.entry.table
        given.entry.holders.now given.entry.calls.now given.entry.plays.now given.entry.claim) (length out.old)) out.old }
{
    check_contents(given)?;
    let plays = Plays {
        numbers: given.plays,
    };
    let size = length_of(given.calls.len(), play_bits(plays), given.claim);
    if out.len() < size {
        return Err(Refusal::ShortRecordBuffer.at(0));
    }
    write_contents(given, out);
    Ok(size)
}
