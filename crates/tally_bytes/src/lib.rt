// A tally in 398 bytes: read from a list of bytes, and written over the front of a lent buffer. `reading` and `writing` have the parts.
#![tactic(auto)]

mod reading;
mod writing;

ghost use Rattle.std.specs.Prelude.{◌≡◌};
ghost use Rattle.tally.specs.InBytes.{tally_in};
ghost use Rattle.tally_bytes.specs.Written.{tally_left};

use reading::{counts_in, deal_in, scores_in};
use tally::Tally;
use writing::{put_counts, put_deal, put_scores};

// How many bytes a tally has.
pub const TALLY_LENGTH: usize = 398;

// The tally in a list of bytes; the all-zero one where they are not 398.
pub fn read(bytes: &[u8]) -> Tally
    ensures { result ≡ tally_in bytes.now }
{
    let Some(bytes) = bytes.as_array::<TALLY_LENGTH>() else {
        return tally::empty(0, [0u8; 52]);
    };
    Tally {
        board: bytes[0],
        deal: deal_in(bytes),
        scores: scores_in(bytes),
        counts: counts_in(bytes),
    }
}

// Writes a tally over the front of a buffer of at least 398 bytes; a shorter one stays as it was.
pub fn write(t: Tally, out: &mut [u8])
    ensures { out.new ≡ tally_left t out.old }
{
    let Some(out) = out.first_chunk_mut::<TALLY_LENGTH>() else {
        return;
    };
    out[0] = t.board;
    put_deal(out, t.deal);
    put_scores(out, t.scores);
    put_counts(out, t.counts);
}
