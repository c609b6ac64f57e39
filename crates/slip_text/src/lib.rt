// The slip of a table record: the items of Law 77 that make its score, a line each, and their sum; or the judge's refusal. C calls it by `judge_slip`.
#![tactic(auto)]

ghost use Rattle.std.specs.Prelude.{◌≡◌, ◌+◌, ◌≤◌, length};
ghost use Rattle.laws.specs.Slip.{line, slip};
ghost use Rattle.laws.specs.Writing.{number_of, record_left};
ghost use Rattle.text.specs.Putting.{Put, written, length_within, left_in};
ghost use Rattle.slip_text.specs.Call.{slip_call};
ghost use Rattle.slip_text.specs.Text.{item_line, tricks_text, premiums_text, items_text};

use explanation::{Items, explain};
use laws::Refusal;
use text::{lend, put_bytes, put_named, write_pair};

// An item's line; nothing where it has no points.
fn put_item(out: &mut [u8], at: usize, name: &[u8], points: i16) -> usize
    ensures { Put out.old at (item_line name.now points) out.new result }
{
    if points == 0 {
        return put_bytes(out, at, b"");
    }
    put_named(out, at, name, points)
}

// The tricks, and those over or under the contract.
fn put_tricks(out: &mut [u8], items: Items) -> usize
    ensures { Put out.old 0 (tricks_text items) out.new result }
{
    let a = put_item(out, 0, b"TRICKS", items.tricks);
    let b = put_item(out, a, b"OVERTRICKS", items.overtricks);
    put_item(out, b, b"UNDERTRICKS", items.undertricks)
}

// The premiums.
fn put_premiums(out: &mut [u8], at: usize, items: Items) -> usize
    ensures { Put out.old at (premiums_text items) out.new result }
{
    let a = put_item(out, at, b"PARTSCORE", items.partscore);
    let b = put_item(out, a, b"GAME", items.game);
    let c = put_item(out, b, b"SLAM", items.slam);
    put_item(out, c, b"DOUBLING", items.doubling)
}

// All items, and their sum.
fn put_items(out: &mut [u8], items: Items) -> usize
    ensures { Put out.old 0 (items_text items) out.new result }
{
    let a = put_tricks(out, items);
    let b = put_premiums(out, a, items);
    put_named(out, b, b"SUM", items.sum)
}

// The items, where they are those of a board, in lent bytes.
fn write_items(items: Items, out: &mut [u8]) -> Option<usize>
    requires { length (items_text items) ≤ 72 }
    ensures answer { written result ≡ length_within (items_text items) (length out.old) }
    ensures bytes { out.new ≡ left_in out.old (items_text items) }
{
    let mut text = [0u8; 72];
    let n = put_items(&mut text, items);
    lend(&text[..n], out)
}

// Writes the slip of a table record to lent bytes. 72 bytes are enough for every slip.
pub fn write(bytes: &[u8], out: &mut [u8]) -> Option<usize>
    ensures answer { written result ≡ length_within (slip bytes.now) (length out.old) }
    ensures bytes { out.new ≡ left_in out.old (slip bytes.now) }
{
    match explain(bytes) {
        Ok(items) => write_items(items, out),
        Err(refused) => write_pair(refused.refusal.number() as u32, refused.place as u32, out),
    }
}

// Writes the slip of a table record over the front of a buffer. The answer is how many bytes were written, at most 72; or a refusal × 1024 + its place, with
// the buffer as it was: the judge's, or, last, 22 for a buffer that is too short.
pub fn judge_slip(bytes: &[u8], text: &mut [u8]) -> u32
    ensures number { result ≡ number_of (slip_call bytes.now (length text.old)) }
    ensures left { text.new ≡ record_left (slip_call bytes.now (length text.old)) text.old }
{
    match explain(bytes) {
        Ok(items) => match write_items(items, text) {
            Some(n) => n as u32,
            None => u32::from(Refusal::ShortRecordBuffer.at(0)),
        },
        Err(refused) => u32::from(refused),
    }
}
