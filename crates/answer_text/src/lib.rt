// What the calls of a script of tally calls answer, as text, and the lines of a tally.
#![tactic(auto)]

ghost use Rattle.std.specs.Prelude.{◌≡◌, ◌≤◌, ◌<◌, length};
ghost use Rattle.answer_text.specs.Answers.{placed_text, refused_at_text, hex_digit, hex_digits, bits_text};
ghost use Rattle.answer_text.specs.Answers.{said_text, entry_text, tally_text};
ghost use Rattle.text.specs.Putting.{Put, written, length_within, left_in};

use tally::Tally;
use text::{
    lend, put_byte, put_bytes, put_decimal, put_field, put_pair, put_refusal, put_refused,
    put_score,
};
use tree_stack::Said;

// A refusal with its place.
fn put_placed(out: &mut [u8], n: u8, place: u16) -> usize
    ensures { Put out.old 0 (placed_text n place) out.new result }
{
    let start = put_bytes(out, 0, b"refused ");
    let word = put_decimal(out, start, u64::from(n));
    let at = put_bytes(out, word, b" place ");
    let end = put_decimal(out, at, u64::from(place));
    put_byte(out, end, b'\n')
}

// A refusal; its place is told where it is not 0.
fn put_refused_at(out: &mut [u8], n: u8, place: u16) -> usize
    ensures { Put out.old 0 (refused_at_text n place) out.new result }
{
    if place == 0 {
        return put_refused(out, n);
    }
    put_placed(out, n, place)
}

// Writes that a call is refused with a number, any of eight bits, and with any place to lent bytes. 34 bytes are enough.
pub fn write_refused(n: u8, place: u16, out: &mut [u8]) -> Option<usize>
    ensures answer { written result ≡ length_within (refused_at_text n place) (length out.old) }
    ensures bytes { out.new ≡ left_in out.old (refused_at_text n place) }
{
    let mut text = [0u8; 34];
    let size = put_refused_at(&mut text, n, place);
    lend(&text[..size], out)
}

// A number below 16 as a hexadecimal digit.
fn hex_digit(n: u64) -> u8
    requires { n < 16 }
    ensures { result ≡ hex_digit n }
{
    if n < 10 {
        return b'0' + n as u8;
    }
    87 + n as u8
}

fn put_hex(out: &mut [u8], at: usize, digits: u32, n: u64) -> usize
    ensures { Put out.old at (hex_digits digits n) out.new result }
{
    if digits == 0 {
        return put_bytes(out, at, b"");
    }
    let next = put_hex(out, at, digits - 1, n / 16);
    let last = hex_digit(n % 16);
    put_byte(out, next, last)
}

// A word and 64 bits.
fn put_bits(out: &mut [u8], word: &[u8], bits: u64) -> usize
    ensures { Put out.old 0 (bits_text word.now bits) out.new result }
{
    let first = put_bytes(out, 0, word);
    let end = put_hex(out, first, 16, bits);
    put_byte(out, end, b'\n')
}

fn put_said(out: &mut [u8], said: Said, line: u64) -> usize
    ensures { Put out.old 0 (said_text said line) out.new result × (length (said_text said line) ≤ 34) }
{
    match said {
        Said::Done => put_bytes(out, 0, b"ok\n"),
        Said::Refused(refused) => put_refused_at(out, refused.refusal.number(), refused.place),
        Said::Points(ns, ew) => put_pair(out, ns, ew),
        Said::Played(bits) => put_bits(out, b"played ", bits),
        Said::Awarded(bits) => put_bits(out, b"awarded ", bits),
        Said::Alone => put_bytes(out, 0, b"alone\n"),
        Said::Stopped => put_refusal(out, line),
    }
}

// Writes what a call on a line answers to lent bytes. 34 bytes are enough.
pub fn write_said(said: Said, line: u64, out: &mut [u8]) -> Option<usize>
    ensures answer { written result ≡ length_within (said_text said line) (length out.old) }
    ensures bytes { out.new ≡ left_in out.old (said_text said line) }
{
    let mut text = [0u8; 34];
    let n = put_said(&mut text, said, line);
    lend(&text[..n], out)
}

fn put_entry(out: &mut [u8], at: usize, score: i16, count: u8) -> usize
    ensures { Put out.old at (entry_text score count) out.new result }
{
    let next = put_score(out, at, score);
    let end = put_field(out, next, u32::from(count));
    put_byte(out, end, b'\n')
}

fn put_entries(out: &mut [u8], t: Tally) -> usize
    ensures { Put out.old 0 (tally_text t) out.new result × (length (tally_text t) ≤ 1408) }
{
    let mut at = put_bytes(out, 0, b"");
    for i in 0..128 {
        let count = t.counts[i];
        if count == 0 {
            return at;
        }
        let score = t.scores[i];
        at = put_entry(out, at, score, count);
    }
    at
}

// Writes the entries of a tally to lent bytes, a line each. 1408 bytes are enough.
pub fn write_tally(t: Tally, out: &mut [u8]) -> Option<usize>
    ensures answer { written result ≡ length_within (tally_text t) (length out.old) }
    ensures bytes { out.new ≡ left_in out.old (tally_text t) }
{
    let mut text = [0u8; 1408];
    let n = put_entries(&mut text, t);
    lend(&text[..n], out)
}
