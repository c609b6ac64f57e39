// What the program `pbn` prints of its input: the table's number on the first line, then a text of Portable Bridge Notation. It prints the record's bytes as
// they are; or the refusal's number, a space, its place and a newline.
#![tactic(auto)]

ghost use Rattle.std.specs.Prelude.{◌≡◌, length};
ghost use Rattle.laws.specs.PbnReading.{parse};
ghost use Rattle.laws.specs.Pbn.{pbn_outcome};
ghost use Rattle.laws.specs.PbnInput.{table_on, printed, pbn_printed};
ghost use Rattle.text.specs.Putting.{written, length_within, left_in};

use decimal::read_number;
use laws::Refusal;
use pbn_record::read_pbn;
use pbn_text::line_end;
use text::{lend, write_pair};

// The table that a line says, 0 where it says none, which is no table: `pbn_record` refuses it as it refuses table 0.
fn table_on(line: &[u8]) -> u32
    ensures { result ≡ table_on line.now }
{
    let Some(n) = read_number(line) else {
        return 0;
    };
    if 3 < line.len() {
        return 0;
    }
    if line[0] == b'0' {
        return 0;
    }
    n
}

// Writes what is printed of a text at a table to lent bytes.
fn write_text(text: &[u8], table: u32, out: &mut [u8]) -> Option<usize>
    ensures answer { written result ≡ length_within (printed (pbn_outcome (parse text.now) table)) (length out.old) }
    ensures bytes { out.new ≡ left_in out.old (printed (pbn_outcome (parse text.now) table)) }
{
    let mut record = [0u8; 505];
    match read_pbn(text, table, &mut record) {
        Ok(size) => lend(&record[..size], out),
        Err(refused) => write_pair(refused.refusal.number() as u32, refused.place as u32, out),
    }
}

// Writes what is printed of an input to lent bytes. 505 bytes are enough for every input, and its first 65,537 bytes decide it.
pub fn write(input: &[u8], out: &mut [u8]) -> Option<usize>
    ensures answer { written result ≡ length_within (pbn_printed input.now) (length out.old) }
    ensures bytes { out.new ≡ left_in out.old (pbn_printed input.now) }
{
    if 65536 < input.len() {
        return lend(b"over 65536 bytes\n", out);
    }
    let end = line_end(input);
    if end == input.len() {
        return write_pair(Refusal::OutsideSubset.number() as u32, 1, out);
    }
    let table = table_on(&input[..end]);
    let start = end + 1;
    write_text(&input[start..], table, out)
}
