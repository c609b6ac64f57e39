// The cells of a page of results: a result of a tally with its percentage as a 64-bit float, and awarded results.
#![tactic(auto)]

ghost use Rattle.std.specs.Prelude.{◌≡◌, ◌+◌, ◌-◌, ◌*◌, ◌/◌};
ghost use Rattle.laws.specs.Percentages.{percentage, is_award, award as awardAsked};
ghost use Rattle.laws.specs.Refusals.{given, placed};
ghost use Rattle.percentages.specs.Cells.{entered, cell_answer, cell_of_tally, cell_by};

use laws::{Refusal, Refused};
use tally::Tally;

// A played result with the percentage of North-South, an awarded result with its percentage, or a result alone on its board.
#[derive(Clone, Copy, Debug, PartialEq)]
pub enum Cell {
    Played(f64),
    Awarded(f64),
    Alone,
}

// The percentage of so many matchpoints in so many results: one division of two whole numbers held exactly.
fn percentage_of(points: u8, results: u16) -> f64
    ensures { result ≡ percentage points (2 * (results - 1)) }
{
    let hundredfold = f64::from(100 * u32::from(points));
    let most = f64::from(2 * u32::from(results.saturating_sub(1)));
    hundredfold / most
}

// The cell of a result with so many matchpoints, one of so many results.
fn cell_by(points: u8, results: u16) -> Cell
    ensures { given (entered result) ≡ cell_by points results }
{
    if results == 1 {
        return Cell::Alone;
    }
    Cell::Played(percentage_of(points, results))
}

// How many results there are, from the matchpoints of both sides for one of them: together two for each other result.
fn results_of(ns: u8, ew: u8) -> u16
    ensures { result ≡ (ns + ew) / 2 + 1 }
{
    (u16::from(ns) + u16::from(ew)) / 2 + 1
}

// The cell of one result: a score with the holders of the cards that were played; 17, 20, 4, 28 or 21.
pub fn cell_of(t: Tally, score: i16, holders: &[u8]) -> Result<Cell, Refused>
    ensures { cell_answer result ≡ cell_of_tally t (record { score = score; deal = holders.now }) }
{
    let points = matchpoints::matchpoints(t, score, holders)?;
    let ns = points.ns.0 as u8;
    Ok(cell_by(ns, results_of(ns, points.ew.0 as u8)))
}

// Whether a percentage can be awarded.
fn is_award(percent: u32) -> bool
    ensures { result ≡ is_award percent }
{
    matches!(percent, 60 | 50 | 40)
}

// An awarded result of 60, 50 or 40 per cent; 20 for any other.
pub fn award(percent: u32) -> Result<Cell, Refused>
    ensures { cell_answer result ≡ placed (awardAsked percent) }
{
    if is_award(percent) {
        return Ok(Cell::Awarded(f64::from(percent)));
    }
    Err(Refusal::InvalidScore.at(0))
}
