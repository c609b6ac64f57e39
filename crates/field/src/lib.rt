// A bit field of a byte slice, read by whole bytes. Bit 0 is the most significant bit of the first byte.
#![tactic(auto)]

ghost use Rattle.std.specs.Prelude.{◌≡◌, ◌+◌, ◌*◌, ◌^◌, ◌≤◌, ◌<◌};
ghost use Rattle.laws.specs.Reading.{number_at};
ghost use Rattle.laws.specs.Refusals.{placed};
ghost use Rattle.laws.specs.Refused.{placed_of};
ghost use Rattle.field.specs.Field.{Byte, field_at};

use laws::{Refusal, Refused};

// The byte at a place, 0 past the end.
fn byte_at(bytes: &[u8], i: usize) -> u32
    ensures { Byte bytes.now i result }
{
    match bytes.get(i) {
        Some(b) => u32::from(*b),
        None => 0,
    }
}

// Three bytes from a place on, as one number: the three of them read at once where they are all there.
fn three_at(bytes: &[u8], first: usize) -> u32
    requires { first < 2 ^ 61 }
    ensures { result ≡ number_at bytes.now (8 * first) 24 }
{
    if first + 2 < bytes.len() {
        return u32::from(bytes[first]) * 65536
            + u32::from(bytes[first + 1]) * 256
            + u32::from(bytes[first + 2]);
    }
    byte_at(bytes, first) * 65536 + byte_at(bytes, first + 1) * 256 + byte_at(bytes, first + 2)
}

// The field of `width` bits that starts behind the first `skipped` bits of a byte: that byte and the next two hold it.
fn window(bytes: &[u8], first: usize, skipped: usize, width: usize) -> u16
    requires skipped { skipped < 8 }
    requires width { width ≤ 16 }
    requires first { first < 2 ^ 61 }
    ensures { result ≡ number_at bytes.now (8 * first + skipped) width }
{
    let from_here = three_at(bytes, first) >> (24 - skipped - width);
    (from_here % (1 << width)) as u16
}

// The field of `width` bits from bit `at` on, where it lies whole within the bytes. Where three bytes are there from its first one on, it does.
pub fn read(bytes: &[u8], at: usize, width: usize) -> Result<u16, Refused>
    ensures { placed_of result ≡ placed (field_at bytes.now at width) }
{
    if 16 < width {
        return Err(Refusal::RecordEnds.at(0));
    }
    let first = at / 8;
    let skipped = at % 8;
    let count = bytes.len();
    if first + 2 < count {
        return Ok(window(bytes, first, skipped, width));
    }
    if count < first || count - first < (skipped + width + 7) / 8 {
        return Err(Refusal::RecordEnds.at(0));
    }
    Ok(window(bytes, first, skipped, width))
}
