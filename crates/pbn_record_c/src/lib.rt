// A table record from a text of Portable Bridge Notation, as C calls it.
#![tactic(auto)]

ghost use Rattle.std.specs.Prelude.{◌≡◌, length};
ghost use Rattle.laws.specs.Writing.{number_of, record_left};
ghost use Rattle.laws.specs.Pbn.{read_pbn};

// Reads a text of Portable Bridge Notation and writes its record at a table over the front of a buffer. The answer is how many bytes were written, which is
// below 1024; or a refusal × 1024 + its place, with the buffer as it was: 32 and the line where the text leaves the subset, and then what the writer refuses
// its contents with, 32 for the seat of a tag among it.
#[unsafe(no_mangle)]
pub extern "C" fn judge_read_pbn(text: &[u8], table: u32, out: &mut [u8]) -> u32
    ensures number { result ≡ number_of (read_pbn text.now table (length out.old)) }
    ensures left { out.new ≡ record_left (read_pbn text.now table (length out.old)) out.old }
{
    pbn_record::judge_read_pbn(text, table, out)
}
