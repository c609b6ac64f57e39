// The scores on the lines of a text, each line read, and the tally of them all, which are of one deal.
#![tactic(auto)]

ghost use Rattle.std.specs.Prelude.{◌≡◌, ◌+◌, ◌≤◌, length, drop};
ghost use Rattle.tally.specs.Tallies.{tallied_of, add_of};
ghost use Rattle.tree_stack.specs.Deals.{suits};
ghost use Rattle.score_lines.specs.Reading.{size_on, if_valid, signed_of, said_on};
ghost use Rattle.score_lines.specs.Whole.{Found};

use deal::SUITS;
use decimal::read_number;
use laws::Refused;
use parts::part_end;
use score::valid;
use tally::Tally;

// The number of a line that is refused, the first line's being 1.
#[derive(Clone, Copy, Debug, PartialEq, Eq)]
pub struct RefusedLine(pub u32);

// A digit 1 to 9 and at most three digits more.
fn size_on(bytes: &[u8]) -> Option<u32>
    ensures { result ≡ size_on bytes.now }
{
    if bytes.len() == 0 {
        return None;
    }
    if 4 < bytes.len() {
        return None;
    }
    if bytes[0] == b'0' {
        return None;
    }
    read_number(bytes)
}

// A score, where it is valid.
fn if_valid(score: i16) -> Option<i16>
    ensures { result ≡ if_valid score }
{
    if valid(score) { Some(score) } else { None }
}

// A number as a score, with a minus or without one.
fn signed(n: Option<u32>, minus: bool) -> Option<i16>
    ensures { result ≡ signed_of minus n }
{
    let size = n?;
    if 7600 < size {
        return None;
    }
    if minus {
        return if_valid(-(size as i16));
    }
    if_valid(size as i16)
}

// The score on a line.
fn said_on(line: &[u8]) -> Option<i16>
    ensures { result ≡ said_on line.now }
{
    if line.len() == 0 {
        return None;
    }
    if line[0] == b'-' {
        let rest = &line[1..];
        return signed(size_on(rest), true);
    }
    if 1 < line.len() {
        return signed(size_on(line), false);
    }
    if line[0] == b'0' {
        return Some(0);
    }
    signed(size_on(line), false)
}

// A score of a line added: every line is of the same deal.
fn with_score(t: Tally, score: i16) -> Result<Tally, Refused>
    ensures { tallied_of result ≡ add_of t (record { score = score; deal = suits }) }
{
    merging::add(t, score, &SUITS)
}

// The tally of the scores on the lines, all of one deal; or the first line that is refused. A turn goes from a line's start to the next one's:
// `split_inclusive` is no plainer, since the newline that it leaves at a part's end has to be taken off again where there is one.
pub fn results_of(bytes: &[u8]) -> Result<Tally, RefusedLine>
    ensures { Found bytes.now result }
{
    let mut t = tally::empty(1, [0u8; 52]);
    let mut k: u32 = 0;
    let mut at: usize = 0;
    while at < bytes.len() {
        let end = part_end(bytes, at, b'\n');
        let line = &bytes[at..end];
        k += 1;
        let Some(score) = said_on(line) else {
            return Err(RefusedLine(k));
        };
        match with_score(t, score) {
            Ok(more) => t = more,
            Err(_) => return Err(RefusedLine(k)),
        }
        at = end + 1;
    }
    Ok(t)
}
