// A line of words, one space between.
ghost use Rattle.std.specs.Prelude.{◌≡◌, ◌+◌, drop};
ghost use Rattle.pbn_words.specs.RowNumbers.{row_by, row_on};

use crate::words::number_in;
use parts::part_end;

// One to four numbers, the rest zero. They stand in an array with their count beside: a rule of the project (no heap, fixed memory).
#[derive(Clone, Copy, Debug, PartialEq, Eq)]
pub struct Row {
    pub count: usize,
    pub numbers: [u8; 4],
}

// The numbers of a line's words, calls or cards, where there are one to four. The flag chooses: the clause (`row_on`) names it, and speaks of both.
pub fn row_in(line: &[u8], cards: bool) -> Option<Row>
    ensures { result ≡ row_by (row_on cards line.now) }
{
    let mut numbers = [0u8; 4];
    let mut at: usize = 0;
    // By places: the array is handed out from within the loop.
    for i in 0..4 {
        let end = part_end(line, at, b' ');
        numbers[i] = number_in(&line[at..end], cards)?;
        if end == line.len() {
            return Some(Row {
                count: i + 1,
                numbers,
            });
        }
        at = end + 1;
    }
    None
}
