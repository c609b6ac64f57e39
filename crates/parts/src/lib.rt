// Where the parts of a line, or the lines of a text, end.
#![tactic(auto)]

ghost use Rattle.std.specs.Prelude.{◌≡◌, ◌+◌, drop};
ghost use Rattle.parts.specs.Parts.{part_length};

// The end of the part that starts at a place: the first such byte from there on, or the end; the place itself where it lies behind the end.
pub fn part_end(bytes: &[u8], at: usize, byte: u8) -> usize
    ensures { result ≡ at + part_length byte (drop at bytes.now) }
{
    if bytes.len() < at {
        return at;
    }
    let rest = &bytes[at..];
    at + rest.iter().position(|b| *b == byte).unwrap_or(rest.len())
}
