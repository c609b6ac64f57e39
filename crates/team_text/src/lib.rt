// What a team match prints: a board's IMPs or its refusal, a line that cannot be read, and the totals at the end.
#![tactic(auto)]

ghost use Rattle.std.specs.Prelude.{◌≡◌, ◌≤◌, length};
ghost use Rattle.laws.specs.Decimal.{signed_decimal};
ghost use Rattle.laws.specs.Refusals.{refused};
ghost use Rattle.laws.specs.Sheet.{refusal};
ghost use Rattle.score.specs.Units.{imp_answer};
ghost use Rattle.text.specs.Putting.{Put, written, length_within, left_in};
ghost use Rattle.team_text.specs.Team.{imps_text, board_text, totals_text};

use laws::Refusal;
use score::Imps;
use text::{lend, put_byte, put_bytes, put_refusal, put_refused, put_signed};

fn put_imps(out: &mut [u8], at: usize, imps: Imps) -> usize
    ensures { Put out.old at (signed_decimal imps.0) out.new result }
{
    put_signed(out, at, imps.0)
}

fn put_gained(out: &mut [u8], imps: Imps) -> usize
    ensures { Put out.old 0 (imps_text imps.0) out.new result }
{
    let end = put_imps(out, 0, imps);
    put_byte(out, end, 10)
}

fn put_board(out: &mut [u8], answer: Result<Imps, Refusal>) -> usize
    ensures { Put out.old 0 (board_text (imp_answer answer)) out.new result × (length (board_text (imp_answer answer)) ≤ 12) }
{
    match answer {
        Err(refusal) => put_refused(out, refusal.number()),
        Ok(imps) => put_gained(out, imps),
    }
}

// Writes what a board is answered to lent bytes. 12 bytes are enough.
pub fn write_board(answer: Result<Imps, Refusal>, out: &mut [u8]) -> Option<usize>
    ensures answer { written result ≡ length_within (board_text (imp_answer answer)) (length out.old) }
    ensures bytes { out.new ≡ left_in out.old (board_text (imp_answer answer)) }
{
    let mut text = [0u8; 12];
    let n = put_board(&mut text, answer);
    lend(&text[..n], out)
}

// Writes that a board is refused with a number, any of eight bits, to lent bytes. 12 bytes are enough.
pub fn write_refused(n: u8, out: &mut [u8]) -> Option<usize>
    ensures answer { written result ≡ length_within (board_text (refused n)) (length out.old) }
    ensures bytes { out.new ≡ left_in out.old (board_text (refused n)) }
{
    let mut text = [0u8; 12];
    let size = put_refused(&mut text, n);
    lend(&text[..size], out)
}

// Writes that a line cannot be read to lent bytes. 34 bytes are enough.
pub fn write_refusal(line: u64, out: &mut [u8]) -> Option<usize>
    ensures answer { written result ≡ length_within (refusal line) (length out.old) }
    ensures bytes { out.new ≡ left_in out.old (refusal line) }
{
    let mut text = [0u8; 34];
    let n = put_refusal(&mut text, line);
    lend(&text[..n], out)
}

fn put_totals(out: &mut [u8], first: Imps, second: Imps) -> usize
    ensures { Put out.old 0 (totals_text first.0 second.0) out.new result }
{
    let a = put_bytes(out, 0, b"TOTAL ");
    let b = put_imps(out, a, first);
    let c = put_byte(out, b, 32);
    let d = put_imps(out, c, second);
    put_byte(out, d, 10)
}

// Writes the totals of the two teams to lent bytes. 30 bytes are enough.
pub fn write_totals(first: Imps, second: Imps, out: &mut [u8]) -> Option<usize>
    ensures answer { written result ≡ length_within (totals_text first.0 second.0) (length out.old) }
    ensures bytes { out.new ≡ left_in out.old (totals_text first.0 second.0) }
{
    let mut text = [0u8; 30];
    let n = put_totals(&mut text, first, second);
    lend(&text[..n], out)
}
