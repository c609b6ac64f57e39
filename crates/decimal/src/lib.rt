// Decimal numbers read from bytes, and boards and scores as scripts say them: a number beyond the type still reaches the call, which refuses it.
#![tactic(auto)]

ghost use Rattle.std.specs.Prelude.{◌≡◌};
ghost use Rattle.decimal.specs.Numbers.{number_on};
ghost use Rattle.decimal.specs.Scores.{board_in, plus_in, minus_in, score_on};

// The number that one to five digits say; leading zeros are read.
pub fn read_number(bytes: &[u8]) -> Option<u32>
    ensures { result ≡ number_on bytes.now }
{
    if bytes.is_empty() || 5 < bytes.len() {
        return None;
    }
    let mut n: u32 = 0;
    for b in bytes {
        if !b.is_ascii_digit() {
            return None;
        }
        n = 10 * n + u32::from(*b - b'0');
    }
    Some(n)
}

// A number as a board; 0 where it is beyond the type.
pub fn board_in(n: u32) -> u8
    ensures { result ≡ board_in n }
{
    u8::try_from(n).unwrap_or(0)
}

// A number as a score; the largest of the type where it is beyond it.
fn plus_in(n: u32) -> i16
    ensures { result ≡ plus_in n }
{
    i16::try_from(n).unwrap_or(i16::MAX)
}

// A number with a minus as a score; the least of the type where it is beyond it.
fn minus_in(n: u32) -> i16
    ensures { result ≡ minus_in n }
{
    match i16::try_from(n) {
        Ok(score) => -score,
        Err(_) => i16::MIN,
    }
}

// The score that the bytes say, with an optional minus.
pub fn read_score(bytes: &[u8]) -> Option<i16>
    ensures { result ≡ score_on bytes.now }
{
    if bytes.starts_with(b"-") {
        return Some(minus_in(read_number(&bytes[1..])?));
    }
    Some(plus_in(read_number(bytes)?))
}
