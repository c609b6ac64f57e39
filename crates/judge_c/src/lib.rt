// The judge of table records, as C calls it.
#![tactic(auto)]

ghost use Rattle.std.specs.Prelude.{◌≡◌};
ghost use Rattle.laws.specs.Judge.{judge_of, number_of};
ghost use Rattle.laws.specs.Lent.{rooms_of, answer_left, list_left, failures_left, winners_left};

// Judges a table record. The answer is 0, with seven bytes in answer, a byte for each revoke in list, 52 bytes of the plays against Law 50C or 50D1 in
// failures, and winner and winning card of each complete trick in winners; or a refusal × 1024 + its place, with all four as they were.
#[unsafe(no_mangle)]
pub extern "C" fn judge_record(
    bytes: &[u8],
    answer: &mut [u8],
    list: &mut [u8],
    failures: &mut [u8],
    winners: &mut [u8],
) -> u32
    ensures number { result
        ≡ number_of (judge_of bytes.now
        (rooms_of answer.old list.old failures.old winners.old)) }
    ensures answered { answer.new
        ≡ answer_left (judge_of bytes.now
        (rooms_of answer.old list.old failures.old winners.old)) answer.old }
    ensures listed { list.new
        ≡ list_left (judge_of bytes.now
        (rooms_of answer.old list.old failures.old winners.old)) list.old }
    ensures failed { failures.new
        ≡ failures_left (judge_of bytes.now
        (rooms_of answer.old list.old failures.old winners.old)) failures.old }
    ensures won { winners.new
        ≡ winners_left (judge_of bytes.now
        (rooms_of answer.old list.old failures.old winners.old)) winners.old }
{
    judge::judge_record(bytes, answer, list, failures, winners)
}
