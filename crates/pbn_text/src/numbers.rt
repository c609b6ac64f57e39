// A list of numbers that is kept as far as there is room: no more than 511 are stored, and a number beyond is counted once.
ghost use Rattle.std.specs.Prelude.{◌≡◌, List, [], ◌∷◌, ◌++◌, ℕ, ◌≤◌, take};
ghost use Rattle.pbn_text.specs.Kept.{kept_of};

use pbn_words::Row;

// They stand in an array with their count beside: a rule of the project (no heap, fixed memory).
#[derive(Clone, Copy, Default)]
pub struct Numbers {
    pub count: usize,
    pub numbers: [u8; 511],
}

// One number more.
fn with_number(mut kept: Numbers, number: u8) -> Numbers
    ensures { (l : List ℕ) → kept ≡ kept_of l → result ≡ kept_of (l ++ (number ∷ [])) }
{
    if 511 <= kept.count {
        kept.count = 512;
        return kept;
    }
    kept.numbers[kept.count] = number;
    kept.count += 1;
    kept
}

// The numbers of a row more.
pub(crate) fn with_row(kept: Numbers, row: Row) -> Numbers
    requires { row.count ≤ 4 }
    ensures { (l : List ℕ) → kept ≡ kept_of l → result ≡ kept_of (l ++ take row.count row.numbers) }
{
    let mut all = kept;
    for number in &row.numbers[..row.count] {
        all = with_number(all, *number);
    }
    all
}
