// A line of a script as its bytes come, and how many lines were whole before it.
#![tactic(auto, unfolding(crate::specs::Lines::first_line, crate::specs::Lines::with_byte, crate::specs::Lines::next_number, crate::specs::Lines::next_line))]

ghost use Rattle.std.specs.Prelude.{◌≡◌};
ghost use Rattle.script_line.specs.Lines.{first_line, with_byte, next_line};

// The bytes so far and their number, 21 where the line is longer than any call; and how many lines were whole.
// The bytes stand in an array with their number beside: a rule of the project (no heap, fixed memory).
#[derive(Clone, Copy, Debug, PartialEq, Eq)]
pub struct Line {
    pub bytes: [u8; 20],
    pub length: usize,
    pub number: u64,
}

// A script before its first byte.
pub fn first_line() -> Line
    ensures { result ≡ first_line }
{
    Line {
        bytes: [0; 20],
        length: 0,
        number: 0,
    }
}

// A byte at the end of the line.
pub fn with_byte(mut line: Line, b: u8) -> Line
    ensures { result ≡ with_byte line b }
{
    if line.length < 20 {
        line.bytes[line.length] = b;
        line.length += 1;
    } else {
        line.length = 21;
    }
    line
}

// The line is whole: an empty one follows.
pub fn next_line(line: Line) -> Line
    ensures { result ≡ next_line line }
{
    Line {
        length: 0,
        number: line.number.saturating_add(1),
        ..line
    }
}
