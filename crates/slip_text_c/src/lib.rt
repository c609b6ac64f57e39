// The slip of a table record, as C calls it.
#![tactic(auto)]

ghost use Rattle.std.specs.Prelude.{◌≡◌, length};
ghost use Rattle.laws.specs.Writing.{number_of, record_left};
ghost use Rattle.slip_text.specs.Call.{slip_call};

// Writes the slip of a table record over the front of a buffer. The answer is how many bytes were written, at most 72; or a refusal × 1024 + its place, with
// the buffer as it was: the judge's, or, last, 22 for a buffer that is too short.
#[unsafe(no_mangle)]
pub extern "C" fn judge_slip(bytes: &[u8], text: &mut [u8]) -> u32
    ensures number { result ≡ number_of (slip_call bytes.now (length text.old)) }
    ensures left { text.new ≡ record_left (slip_call bytes.now (length text.old)) text.old }
{
    slip_text::judge_slip(bytes, text)
}
