// The contents of a record written over the front of a lent buffer, whatever they are, and how many bytes they take.
ghost use Rattle.std.specs.Prelude.{◌≡◌, false, ◌∷◌, ◌≤◌, eqb, length, if◌then◌else◌};
ghost use Rattle.laws.specs.Choice.{some};
ghost use Rattle.laws.specs.FlatPlay.{items_of, is_broken};
ghost use Rattle.laws.specs.Record.{field, row, bits, claim_fields, layout};
ghost use Rattle.packing.specs.Packed.{packer_after_all, bytes_after_all, bytes_packed};
ghost use Rattle.contents.specs.Given.{claimed};
ghost use Rattle.writer.specs.Fields.{parts_of, code_fields, fields_of, length_of};

use contents::{Given, count_cards, has_code};
use packing::Packer;
use penalty::begins_code;

// The numbers of the plays, in which each code is followed by its two numbers and a card.
#[derive(Clone, Copy)]
pub(crate) struct Plays<'a> {
    pub(crate) numbers: &'a [u8],
    pub(crate) ghost whole: { some is_broken (items_of numbers.now) ≡ false },
}

// Board, table and the holder of each card.
fn put_deal(p: Packer, out: &mut [u8], board: u32, table: u32, holders: &[u8]) -> Packer
    ensures packer { result ≡ packer_after_all (length out.old) p (field 7 board ∷ field 9 table ∷ row 2 holders.now) }
    ensures bytes { out.new ≡ bytes_after_all p (field 7 board ∷ field 9 table ∷ row 2 holders.now) out.old }
{
    let a = p.put(out, 7, board as u64);
    let b = a.put(out, 9, table as u64);
    b.put_row(out, 2, holders)
}

// How many calls there are, in nine bits, and the calls.
fn put_calls(p: Packer, out: &mut [u8], calls: &[u8]) -> Packer
    ensures packer { result ≡ packer_after_all (length out.old) p (field 9 (length calls.now) ∷ row 6 calls.now) }
    ensures bytes { out.new
        ≡ bytes_after_all p (field 9 (length calls.now) ∷ row 6 calls.now) out.old }
{
    let a = p.put(out, 9, calls.len() as u64);
    a.put_row(out, 6, calls)
}

// A code and the two numbers that follow it.
fn put_code(p: Packer, out: &mut [u8], code: u8, first: u8, second: u8) -> Packer
    ensures packer { result ≡ packer_after_all (length out.old) p (code_fields code first second) }
    ensures bytes { out.new ≡ bytes_after_all p (code_fields code first second) out.old }
{
    let a = p.put(out, 6, code as u64);
    if code == 52 {
        let b = a.put(out, 6, first as u64);
        return b.put(out, 1, second as u64);
    }
    let c = a.put(out, 2, first as u64);
    c.put(out, 2, second as u64)
}

// The cards and the codes among them.
fn put_events(p: Packer, out: &mut [u8], plays: Plays) -> Packer
    ensures packer { result ≡ packer_after_all (length out.old) p (fields_of plays.entry.numbers.now) }
    ensures bytes { out.new ≡ bytes_after_all p (fields_of plays.entry.numbers.now) out.old }
{
    let mut q = p;
    let mut i: usize = 0;
    // A code takes three numbers and a card one, so that no iterator of the library steps through them.
    while i < plays.numbers.len() {
        let x = plays.numbers[i];
        if begins_code(x) {
            q = put_code(q, out, x, plays.numbers[i + 1], plays.numbers[i + 2]);
            i += 3;
        } else {
            q = q.put(out, 6, u64::from(x));
            i += 1;
        }
    }
    q
}

// The play count, and the plays: a row of cards, or with codes among them.
fn put_plays(p: Packer, out: &mut [u8], plays: Plays, cards: usize) -> Packer
    ensures packer { result ≡ packer_after_all (length out.old) p (field 6 cards ∷ fields_of plays.entry.numbers.now) }
    ensures bytes { out.new ≡ bytes_after_all p (field 6 cards ∷ fields_of plays.entry.numbers.now) out.old }
{
    let a = p.put(out, 6, cards as u64);
    if has_code(plays.numbers) {
        return put_events(a, out, plays);
    }
    a.put_row(out, 6, plays.numbers)
}

// The claim's mark, and the claim where there is one.
fn put_claim(p: Packer, out: &mut [u8], claim: Option<u32>) -> Packer
    ensures packer { result ≡ packer_after_all (length out.old) p (claim_fields (claimed claim)) }
    ensures bytes { out.new ≡ bytes_after_all p (claim_fields (claimed claim)) out.old }
{
    let Some(tricks) = claim else {
        return p.put(out, 1, 0);
    };
    let a = p.put(out, 1, 1);
    a.put(out, 4, tricks as u64)
}

// Writes the bytes of a record's contents over the front of the buffer, with no broken code among the plays.
// Of a number that its field cannot hold, the last bits alone are written; what the buffer has no room for is not.
pub(crate) fn write_contents(given: Given, out: &mut [u8])
    requires { some is_broken (items_of given.plays.now) ≡ false }
    ensures { out.new ≡ bytes_packed (layout (parts_of given.entry.board given.entry.table
        given.entry.holders.now given.entry.calls.now given.entry.plays.now given.entry.claim)) out.old }
{
    let Given {
        board,
        table,
        holders,
        calls,
        ..
    } = given;
    let plays = Plays {
        numbers: given.plays,
    };
    let dealt = put_deal(Packer::new(), out, board, table, holders);
    let called = put_calls(dealt, out, calls);
    let played = put_plays(called, out, plays, count_cards(given.plays));
    let claimed = put_claim(played, out, given.claim);
    claimed.finish(out);
}

// How many bits a code takes with the two numbers that follow it.
fn code_bits(code: u8) -> usize
    ensures value { result ≡ (if eqb code 52 then 13 else 10) }
    ensures most { result ≤ 13 }
{
    if code == 52 { 13 } else { 10 }
}

// How many bits the plays take: six for a card, thirteen for an exposure, ten for a choice.
pub(crate) fn play_bits(plays: Plays) -> usize
    requires { length plays.numbers.now ≤ 512 }
    ensures { result ≡ bits (fields_of plays.entry.numbers.now) }
{
    if has_code(plays.numbers) {
        return bits_beside_codes(plays);
    }
    6 * plays.numbers.len()
}

// The same, number by number.
fn bits_beside_codes(plays: Plays) -> usize
    requires { length plays.numbers.now ≤ 512 }
    ensures { result ≡ bits (fields_of plays.entry.numbers.now) }
{
    let mut sum: usize = 0;
    let mut i: usize = 0;
    // A code takes three numbers and a card one, as above.
    while i < plays.numbers.len() {
        let x = plays.numbers[i];
        if begins_code(x) {
            sum += code_bits(x);
            i += 3;
        } else {
            sum += 6;
            i += 1;
        }
    }
    sum
}

// How many bytes a record with so many calls and so many bits of plays has. More than 511 calls count as 511.
pub(crate) fn length_of(calls: usize, plays: usize, claim: Option<u32>) -> usize
    requires { plays ≤ 8192 }
    ensures { result ≡ length_of calls plays claim }
{
    let codes = 6 * calls.min(511) + plays;
    if claim.is_none() {
        return (143 + codes) / 8;
    }
    (147 + codes) / 8
}
