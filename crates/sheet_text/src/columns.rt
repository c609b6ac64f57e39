// What stands for each side in a table: its matchpoints, or its percentage to two decimals, which are rounded half up from the exact fraction.
ghost use Rattle.std.specs.Prelude.{◌∷◌};
ghost use Rattle.laws.specs.CellSheet.{two_decimals};
ghost use Rattle.sheet_text.specs.Columns.{share_text, side_text, header_as};
ghost use Rattle.text.specs.Putting.{Put};

use text::{put_byte, put_bytes, put_digit, put_field};

// What a table gives for each side. Two functions ask which: a closure for each would have to say by a ghost member what it puts, and be no shorter.
#[derive(Clone, Copy, Debug, PartialEq, Eq)]
pub(crate) enum Columns {
    Matchpoints,
    Percentages,
}

pub(crate) fn put_header(out: &mut [u8], columns: Columns) -> usize
    ensures { Put out.old 0 (header_as columns) out.new result }
{
    match columns {
        Columns::Matchpoints => put_bytes(out, 0, b"NS-SCORE COUNT NS-MP EW-MP\n"),
        Columns::Percentages => put_bytes(out, 0, b"NS-SCORE COUNT NS-% EW-%\n"),
    }
}

// A space and so many hundredths with two decimals.
fn put_hundredths(out: &mut [u8], at: usize, n: u32) -> usize
    ensures { Put out.old at (32 ∷ two_decimals n) out.new result }
{
    let a = put_field(out, at, n / 100);
    let b = put_byte(out, a, b'.');
    let c = put_digit(out, b, u64::from(n / 10));
    put_digit(out, c, u64::from(n))
}

// A space and the percentage of so many points of so many.
fn put_share(out: &mut [u8], at: usize, points: u8, most: u16) -> usize
    ensures { Put out.old at (32 ∷ share_text points most) out.new result }
{
    if most == 0 {
        return put_bytes(out, at, b" ALONE");
    }
    let n = hundredths::share(points, most);
    put_hundredths(out, at, n)
}

// A space and what stands for a side with so many matchpoints where the other has so many.
pub(crate) fn put_side(out: &mut [u8], at: usize, columns: Columns, points: u8, other: u8) -> usize
    ensures { Put out.old at (32 ∷ side_text columns points other) out.new result }
{
    match columns {
        Columns::Matchpoints => put_field(out, at, u32::from(points)),
        Columns::Percentages => put_share(out, at, points, u16::from(points) + u16::from(other)),
    }
}
