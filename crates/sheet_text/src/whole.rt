// The table of a tally, and the sheets with matchpoints and with percentages.
ghost use Rattle.std.specs.Prelude.{◌≡◌, true, length};
ghost use Rattle.laws.specs.CellSheet.{cell_sheet};
ghost use Rattle.laws.specs.Sheet.{refusal, sheet};
ghost use Rattle.tally.specs.Points.{matchpoints_of};
ghost use Rattle.matchpoints.specs.Points.{points_answer};
ghost use Rattle.tally.specs.Tallies.{scores_in, well_formed};
ghost use Rattle.sheet_text.specs.Columns.{row_text, table_as, sheet_as};
ghost use Rattle.text.specs.Putting.{Put, written, length_within, left_in};

use super::columns::{Columns, put_header, put_side};
use laws::Refused;
use matchpoints::BothSides;
use score_lines::results_of;
use tally::Tally;
use text::{lend, put_byte, put_field, put_refusal, put_score};

fn put_row(
    out: &mut [u8],
    at: usize,
    columns: Columns,
    score: i16,
    count: u32,
    ns: u8,
    ew: u8,
) -> usize
    ensures { Put out.old at (row_text columns score count ns ew) out.new result }
{
    let a = put_score(out, at, score);
    let b = put_field(out, a, count);
    let c = put_side(out, b, columns, ns, ew);
    let d = put_side(out, c, columns, ew, ns);
    put_byte(out, d, b'\n')
}

// The matchpoints of a score on the deal that the tally carries.
fn points_of(t: Tally, score: i16) -> Result<BothSides, Refused>
    ensures { points_answer result ≡ matchpoints_of t (record { score = score; deal = t.deal }) }
{
    matchpoints::matchpoints(t, score, &t.deal)
}

// The table of a tally that is well formed.
fn put_table(out: &mut [u8], t: Tally, columns: Columns) -> usize
    requires { well_formed t ≡ true }
    ensures { Put out.old 0 (table_as columns (scores_in t)) out.new result }
{
    let mut at = put_header(out, columns);
    for i in 0..128 {
        let count = t.counts[i];
        if count == 0 {
            return at;
        }
        let score = t.scores[i];
        let Ok(points) = points_of(t, score) else {
            return at;
        };
        let ns = points.ns.0 as u8;
        let ew = points.ew.0 as u8;
        at = put_row(out, at, columns, score, u32::from(count), ns, ew);
    }
    at
}

// A sheet.
fn put_sheet(out: &mut [u8], bytes: &[u8], columns: Columns) -> usize
    ensures { Put out.old 0 (sheet_as columns bytes.now) out.new result }
{
    match results_of(bytes) {
        Ok(t) => put_table(out, t, columns),
        Err(line) => put_refusal(out, u64::from(line.0)),
    }
}

// Writes the sheet of a text of scores to lent bytes. 2331 bytes are enough for every sheet.
pub fn write(bytes: &[u8], out: &mut [u8]) -> Option<usize>
    ensures answer { written result ≡ length_within (sheet bytes.now) (length out.old) }
    ensures bytes { out.new ≡ left_in out.old (sheet bytes.now) }
{
    let mut text = [0u8; 2331];
    let n = put_sheet(&mut text, bytes, Columns::Matchpoints);
    lend(&text[..n], out)
}

// Writes the sheet with percentages of a text of scores to lent bytes. 3097 bytes are enough for every one.
pub fn write_cells(bytes: &[u8], out: &mut [u8]) -> Option<usize>
    ensures answer { written result ≡ length_within (cell_sheet bytes.now) (length out.old) }
    ensures bytes { out.new ≡ left_in out.old (cell_sheet bytes.now) }
{
    let mut text = [0u8; 3097];
    let n = put_sheet(&mut text, bytes, Columns::Percentages);
    lend(&text[..n], out)
}
