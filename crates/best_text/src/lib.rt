// What best play would give from a table record, as text: the tricks, or the refusal's number, a space and its place; and a newline.
#![tactic(auto)]

ghost use Rattle.std.specs.Prelude.{◌≡◌, ◌<◌, length};
ghost use Rattle.laws.specs.BestText.{tricks_line, best_text};
ghost use Rattle.text.specs.Putting.{written, length_within, left_in};

use best_record::best_tricks;
use text::{lend, write_pair};

// Writes a number of one digit and a newline to lent bytes.
fn write_tricks(tricks: u16, out: &mut [u8]) -> Option<usize>
    requires { tricks < 10 }
    ensures answer { written result ≡ length_within (tricks_line tricks) (length out.old) }
    ensures bytes { out.new ≡ left_in out.old (tricks_line tricks) }
{
    let text = [48 + tricks as u8, 10];
    lend(&text, out)
}

// Writes the text of a table record to lent bytes. 8 bytes are enough for every record.
pub fn write(bytes: &[u8], out: &mut [u8]) -> Option<usize>
    ensures answer { written result ≡ length_within (best_text bytes.now) (length out.old) }
    ensures bytes { out.new ≡ left_in out.old (best_text bytes.now) }
{
    match best_tricks(bytes) {
        Ok(tricks) => write_tricks(tricks, out),
        Err(refused) => write_pair(refused.refusal.number() as u32, refused.place as u32, out),
    }
}
