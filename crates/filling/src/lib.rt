// Lent bytes filled from a reader, up to its end or theirs.
#![tactic(auto)]

ghost use Rattle.std.specs.Prelude.{◌≡◌, ◌≤◌, ◌<◌, IfOk, length, take};
ghost use Rattle.std.specs.Io.KnownBytes.{Consumes, IsAtEnd};

use std::io;
use std::io::Read;

// Reads until the bytes are full or the reader is at its end, and tells how many were read: they are the reader's next, in order, and fewer than are lent
// only where it has no more. An error is the reader's; some of the bytes may be read by then. The place goes on by what each read gave: no range of the
// library counts it. The programs that answer what they read once have a `main` each: one function for all would take a trait with two lengths and the
// answer, and its impl in each program is as long as the `main`.
pub fn fill<R: Read>(reader: &mut R, bytes: &mut [u8]) -> io::Result<usize>
    ensures within { IfOk result (λ n. n ≤ length bytes.old) }
    ensures next { IfOk result (λ n. Consumes (R.remaining reader.old) (R.remaining reader.new) (take n bytes.new)) }
    ensures end { IfOk result (λ n. n < length bytes.old → IsAtEnd (R.remaining reader.new)) }
    ensures same_length { length bytes.new ≡ length bytes.old }
{
    let mut n: usize = 0;
    while n < bytes.len() {
        let got = reader.read(&mut bytes[n..])?;
        if got == 0 {
            return Ok(n);
        }
        n += got;
    }
    Ok(n)
}
