// The answers of the calls put over the front of lent buffers that are long enough, and the numbers returned.
ghost use Rattle.std.specs.Prelude.{◌≡◌, not, ◌∷◌, ◌≤◌, T, length};
ghost use Rattle.std.specs.Float.{binary64};
ghost use Rattle.std.specs.Float.Ieee.{is_nan, to_bits};
ghost use Rattle.laws.specs.Record.{bytes_of};
ghost use Rattle.laws.specs.Refusals.{given, refusal_number, short_buffer};
ghost use Rattle.laws.specs.Refused.{placed_of};
ghost use Rattle.tally.specs.Tallies.{tallied_of};
ghost use Rattle.percentages.specs.Cells.{entered, Numbered};
ghost use Rattle.tally_calls.specs.Calls.{number_of, buffer_left, tallied, two_each, cell_bytes};

use hundredths::Shares;
use laws::{Refusal, Refused};
use matchpoints::BothSides;
use percentages::Cell;
use tally::Tally;

// The number of a buffer that is too short.
pub(crate) fn short() -> u32
    ensures { result ≡ refusal_number short_buffer 0 }
{
    u32::from(Refusal::ShortBuffer.at(0))
}

// The bytes of an answer.
pub(crate) fn put<const N: usize>(answer: Result<[u8; N], Refused>, out: &mut [u8]) -> u32
    requires { N ≤ length out.old }
    ensures number { result ≡ number_of (placed_of answer.entry) }
    ensures left { out.new ≡ buffer_left (placed_of answer.entry) out.old }
{
    match answer {
        Ok(bytes) => {
            out[..N].copy_from_slice(&bytes);
            0
        }
        Err(refused) => u32::from(refused),
    }
}

// The tally of an answer.
pub(crate) fn put_tally(answer: Result<Tally, Refused>, out: &mut [u8]) -> u32
    requires { 398 ≤ length out.old }
    ensures number { result ≡ number_of (tallied (tallied_of answer)) }
    ensures left { out.new ≡ buffer_left (tallied (tallied_of answer)) out.old }
{
    match answer {
        Ok(t) => {
            tally_bytes::write(t, out);
            0
        }
        Err(refusal) => u32::from(refusal),
    }
}

// Two bytes for each side.
fn two_each(ns: u32, ew: u32) -> [u8; 4]
    ensures { result ≡ two_each ns ew }
{
    let [_, _, ns_high, ns_low] = ns.to_be_bytes();
    let [_, _, ew_high, ew_low] = ew.to_be_bytes();
    [ns_high, ns_low, ew_high, ew_low]
}

// The bytes of matchpoints.
pub(crate) fn points_bytes(points: BothSides) -> [u8; 4]
    ensures { result ≡ two_each points.ns.0 points.ew.0 }
{
    two_each(points.ns.0, points.ew.0)
}

// The bytes of shares.
pub(crate) fn shares_bytes(shares: Shares) -> [u8; 4]
    ensures { result ≡ two_each shares.ns shares.ew }
{
    two_each(shares.ns, shares.ew)
}

// What a cell is, and eight bytes behind it, the most significant first.
fn nine(kind: u8, bits: u64) -> [u8; 9]
    ensures { result ≡ kind ∷ bytes_of 8 bits }
{
    let mut cell = [kind; 9];
    cell[1..].copy_from_slice(&bits.to_be_bytes());
    cell
}

// The bits of a float that is a number.
fn bits_of(x: f64) -> u64
    requires { T (not (is_nan x)) }
    ensures { result ≡ to_bits binary64 x }
{
    f64::to_bits(x)
}

// The bytes of a cell whose float, where it has one, is a number.
pub(crate) fn cell_bytes(cell: Cell) -> [u8; 9]
    requires { Numbered (given (entered cell)) }
    ensures { result ≡ cell_bytes (entered cell) }
{
    match cell {
        Cell::Played(x) => nine(0, bits_of(x)),
        Cell::Awarded(x) => nine(1, bits_of(x)),
        Cell::Alone => nine(2, 0),
    }
}
