// The calls on tallies for C. A tally is 398 bytes, as `tally_bytes` reads and writes them; `putting` writes the answers. Each call returns 0, or a refusal ×
// 1024 + its place with the lent buffer as it was; a buffer that is too short comes first.
#![tactic(auto)]

mod putting;

ghost use Rattle.std.specs.Prelude.{◌≡◌, length};
ghost use Rattle.tally_calls.specs.Calls.{number_of, buffer_left, fresh_call, add_call, merge_call, matchpoints_call, award_call, cell_call, hundredths_call};
ghost use Rattle.tally_calls.specs.Narrowed.{narrow_board, narrow_score};

use putting::{cell_bytes, points_bytes, put, put_tally, shares_bytes, short};
use tally_bytes::{TALLY_LENGTH, read};

// A board of 8 bits; 0 for one over 127.
fn narrow_board(board: u32) -> u8
    ensures { result ≡ narrow_board board }
{
    if 127 < board {
        return 0;
    }
    board as u8
}

// A score of 16 bits; 1 for one that cannot be valid.
fn narrow_score(score: i32) -> i16
    ensures { result ≡ narrow_score score }
{
    if score < -7600 {
        return 1;
    }
    if 7600 < score {
        return 1;
    }
    score as i16
}

// A fresh tally of a board; 1, or 3 for a board outside 1 to 127.
pub fn tally_fresh(board: u32, out: &mut [u8]) -> u32
    ensures number { result ≡ number_of (fresh_call board (length out.old)) }
    ensures left { out.new ≡ buffer_left (fresh_call board (length out.old)) out.old }
{
    if out.len() < TALLY_LENGTH {
        return short();
    }
    put_tally(tally::fresh(narrow_board(board)), out)
}

// A result added to a tally: a score with the holders of the 52 cards; 1, 17, 20, 4, 28 or 19.
pub fn tally_add(tally: &[u8], score: i32, holders: &[u8], out: &mut [u8]) -> u32
    ensures number { result ≡ number_of (add_call tally.now score holders.now (length out.old)) }
    ensures left { out.new
        ≡ buffer_left (add_call tally.now score holders.now (length out.old)) out.old }
{
    if out.len() < TALLY_LENGTH {
        return short();
    }
    let answer = merging::add(read(tally), narrow_score(score), holders);
    put_tally(answer, out)
}

// Two tallies of one board and one deal merged; 1, 17, 18, 28 or 19.
pub fn tally_merge(a: &[u8], b: &[u8], out: &mut [u8]) -> u32
    ensures number { result ≡ number_of (merge_call a.now b.now (length out.old)) }
    ensures left { out.new
        ≡ buffer_left (merge_call a.now b.now (length out.old)) out.old }
{
    if out.len() < TALLY_LENGTH {
        return short();
    }
    put_tally(merging::merge(read(a), read(b)), out)
}

// Law 78A's matchpoints of a result in a tally, four bytes; 1, 17, 20, 4, 28 or 21.
pub fn tally_matchpoints(tally: &[u8], score: i32, holders: &[u8], points: &mut [u8]) -> u32
    ensures number { result ≡ number_of (matchpoints_call tally.now score holders.now (length points.old)) }
    ensures left { points.new
        ≡ buffer_left (matchpoints_call tally.now score holders.now (length points.old)) points.old }
{
    if points.len() < 4 {
        return short();
    }
    let answer = matchpoints::matchpoints(read(tally), narrow_score(score), holders);
    put(answer.map(points_bytes), points)
}

// The cell of an awarded result, nine bytes; 1, or 20 for anything but 60, 50 and 40 per cent.
pub fn tally_award(percent: u32, cell: &mut [u8]) -> u32
    ensures number { result ≡ number_of (award_call percent (length cell.old)) }
    ensures left { cell.new ≡ buffer_left (award_call percent (length cell.old)) cell.old }
{
    if cell.len() < 9 {
        return short();
    }
    put(percentages::award(percent).map(cell_bytes), cell)
}

// The cell of a result in a tally, nine bytes; 1, 17, 20, 4, 28 or 21.
pub fn tally_cell(tally: &[u8], score: i32, holders: &[u8], cell: &mut [u8]) -> u32
    ensures number { result ≡ number_of (cell_call tally.now score holders.now (length cell.old)) }
    ensures left { cell.new
        ≡ buffer_left (cell_call tally.now score holders.now (length cell.old)) cell.old }
{
    if cell.len() < 9 {
        return short();
    }
    let answer = percentages::cell_of(read(tally), narrow_score(score), holders);
    put(answer.map(cell_bytes), cell)
}

// The shares of both sides in a result of a tally, in hundredths of a per cent, four bytes; 65535 each where it is alone; 1, 17, 20, 4, 28 or 21.
pub fn tally_hundredths(tally: &[u8], score: i32, holders: &[u8], shares: &mut [u8]) -> u32
    ensures number { result ≡ number_of (hundredths_call tally.now score holders.now (length shares.old)) }
    ensures left { shares.new
        ≡ buffer_left (hundredths_call tally.now score holders.now (length shares.old)) shares.old }
{
    if shares.len() < 4 {
        return short();
    }
    let answer = hundredths::shares_of(read(tally), narrow_score(score), holders);
    put(answer.map(shares_bytes), shares)
}
