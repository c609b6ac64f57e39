// Texts put into bytes: at a place, as far as there is room, and to lent bytes, whole or not at all. Each put answers the place after what it put.
// Numbers are put digit by digit: `write!` into lent bytes tells no such place.
#![tactic(auto)]

ghost use Rattle.std.specs.Prelude.{◌≡◌, [], ◌∷◌, ◌%◌, length};
ghost use Rattle.laws.specs.Decimal.{digit, decimal, signed_decimal};
ghost use Rattle.laws.specs.Sheet.{refusal};
ghost use Rattle.laws.specs.Slip.{line, refusal_line};
ghost use Rattle.text.specs.Refused.{refused_text};
ghost use Rattle.text.specs.Putting.{Put, written, length_within, left_in};

pub fn put_bytes(out: &mut [u8], at: usize, bytes: &[u8]) -> usize
    ensures { Put out.old at bytes.now out.new result }
{
    let start = at.min(out.len());
    let n = bytes.len().min(out.len() - start);
    // Byte by byte: a slice of any length copied at once asks for `memmove` from outside the archive for C.
    for i in 0..n {
        out[start + i] = bytes[i];
    }
    at.saturating_add(bytes.len())
}

pub fn put_byte(out: &mut [u8], at: usize, b: u8) -> usize
    ensures { Put out.old at (b ∷ []) out.new result }
{
    put_bytes(out, at, &[b])
}

// The last digit of a number.
pub fn put_digit(out: &mut [u8], at: usize, n: u64) -> usize
    ensures { Put out.old at (digit (n % 10) ∷ []) out.new result }
{
    put_byte(out, at, b'0' + (n % 10) as u8)
}

pub fn put_decimal(out: &mut [u8], at: usize, n: u64) -> usize
    ensures { Put out.old at (decimal n) out.new result }
{
    if n < 10 {
        return put_digit(out, at, n);
    }
    let next = put_decimal(out, at, n / 10);
    put_digit(out, next, n)
}

// A number in decimal, with a minus where it is negative.
pub fn put_signed(out: &mut [u8], at: usize, n: i32) -> usize
    ensures { Put out.old at (signed_decimal n) out.new result }
{
    let size = u64::from(n.unsigned_abs());
    if n < 0 {
        let next = put_byte(out, at, b'-');
        return put_decimal(out, next, size);
    }
    put_decimal(out, at, size)
}

pub fn put_score(out: &mut [u8], at: usize, score: i16) -> usize
    ensures { Put out.old at (signed_decimal score) out.new result }
{
    put_signed(out, at, i32::from(score))
}

// A space and a number.
pub fn put_field(out: &mut [u8], at: usize, n: u32) -> usize
    ensures { Put out.old at (32 ∷ decimal n) out.new result }
{
    let next = put_byte(out, at, b' ');
    put_decimal(out, next, u64::from(n))
}

// A name, a space, a score and a newline.
pub fn put_named(out: &mut [u8], at: usize, name: &[u8], score: i16) -> usize
    ensures { Put out.old at (line name.now score) out.new result }
{
    let a = put_bytes(out, at, name);
    let b = put_byte(out, a, b' ');
    let c = put_score(out, b, score);
    put_byte(out, c, b'\n')
}

// Two numbers with a space between them, and a newline.
pub fn put_pair(out: &mut [u8], a: u32, b: u32) -> usize
    ensures { Put out.old 0 (refusal_line a b) out.new result }
{
    let next = put_decimal(out, 0, u64::from(a));
    let end = put_field(out, next, b);
    put_byte(out, end, b'\n')
}

// Copies a text to lent bytes where it fits them, and tells its length.
pub fn lend(text: &[u8], out: &mut [u8]) -> Option<usize>
    ensures answer { written result ≡ length_within text.now (length out.old) }
    ensures bytes { out.new ≡ left_in out.old text.now }
{
    let n = text.len();
    if out.len() < n {
        return None;
    }
    out[..n].copy_from_slice(text);
    Some(n)
}

// Writes two numbers with a space between them and a newline to lent bytes, and tells how many bytes. 22 bytes are enough.
pub fn write_pair(a: u32, b: u32, out: &mut [u8]) -> Option<usize>
    ensures answer { written result ≡ length_within (refusal_line a b) (length out.old) }
    ensures bytes { out.new ≡ left_in out.old (refusal_line a b) }
{
    let mut text = [0u8; 22];
    let n = put_pair(&mut text, a, b);
    lend(&text[..n], out)
}

// That a line is refused.
pub fn put_refusal(out: &mut [u8], k: u64) -> usize
    ensures { Put out.old 0 (refusal k) out.new result }
{
    let number = put_bytes(out, 0, b"line ");
    let end = put_decimal(out, number, k);
    put_bytes(out, end, b" refused\n")
}

// That a call is refused with a number.
pub fn put_refused(out: &mut [u8], n: u8) -> usize
    ensures { Put out.old 0 (refused_text n) out.new result }
{
    let number = put_bytes(out, 0, b"refused ");
    let end = put_decimal(out, number, u64::from(n));
    put_byte(out, end, b'\n')
}
