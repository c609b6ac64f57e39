// A whole text, line by line.
ghost use Rattle.std.specs.Prelude.{◌≡◌, suc, min};
ghost use Rattle.laws.specs.PbnReading.{start, may_end, parse};
ghost use Rattle.pbn_text.specs.TextOf.{stage_in, text_of};
ghost use Rattle.pbn_text.specs.ParsedAs.{ParsedAs, EndsAs};

use crate::lines::line_in;
use crate::numbers::Numbers;
use crate::state::{Stage, Text};
use parts::part_end;

fn start_text() -> Text
    ensures { result ≡ text_of start }
{
    Text {
        stage: Stage::Board,
        board: 1,
        caller: 0,
        seat: None,
        holders: [0; 52],
        calls: Numbers::default(),
        cards: Numbers::default(),
    }
}

fn may_end(stage: Stage) -> bool
    ensures { result ≡ may_end (stage_in stage) }
{
    match stage {
        Stage::Calls | Stage::CallsOver => true,
        Stage::Cards { rows } => rows == 0,
        _ => false,
    }
}

// The text ends here, with so many bytes after its last newline: what was read, or the line where it stopped.
fn ended(t: Text, line: u32, rest: usize) -> Result<Text, u32>
    ensures { EndsAs t line rest result }
{
    if rest != 0 {
        return Err(line);
    }
    if may_end(t.stage) {
        return Ok(t);
    }
    Err(line)
}

// What stands in a text, or the line where the reading stopped, at most 1023.
pub(crate) fn read_text(text: &[u8]) -> Result<Text, u32>
    ensures { ParsedAs (parse text.now) result }
{
    let mut t = start_text();
    let mut line: u32 = 1;
    let mut at: usize = 0;
    // A turn goes from a line's start to the next one's: `split_inclusive` leaves the newline at a line's end, to be taken off again, and is no plainer.
    while at <= text.len() {
        let end = part_end(text, at, b'\n');
        if end == text.len() {
            return ended(t, line, end - at);
        }
        let Some(next) = line_in(t, &text[at..end]) else {
            return Err(line);
        };
        t = next;
        at = end + 1;
        line = (line + 1).min(1023);
    }
    Err(line)
}
