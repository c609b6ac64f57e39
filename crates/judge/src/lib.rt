// The judge of table records, for C: the record judged, and the answer written to what was lent.
#![tactic(auto)]

ghost use Rattle.std.specs.Prelude.{◌≡◌, ◌++◌, map, ◌*◌, ◌≤◌, length, take, drop};
ghost use Rattle.laws.specs.Record.{bytes_of};
ghost use Rattle.laws.specs.Judge.{judge_of, number_of};
ghost use Rattle.laws.specs.Judgement.{won_bytes};
ghost use Rattle.laws.specs.Lent.{rooms_of, answer_left, list_left, failures_left, winners_left};
ghost use Rattle.play.specs.History.{law_of};

use judgement::judge;
use laws::Refusal;
use play::Tricks;

// The last seven bytes of x over the front of answer.
fn put7(answer: &mut [u8], x: u64)
    requires { 7 ≤ length answer.old }
    ensures { answer.new ≡ bytes_of 7 x ++ drop 7 answer.old }
{
    let bytes = x.to_be_bytes();
    answer[..7].copy_from_slice(&bytes[1..]);
}

// Revokes over the front of list.
fn put_list(list: &mut [u8], revokes: &[u8])
    requires { length revokes.now ≤ length list.old }
    ensures { list.new ≡ revokes.now ++ drop (length revokes.now) list.old }
{
    list[..revokes.len()].copy_from_slice(revokes);
}

// The 52 bytes of the plays against Law 50 over the front of failures.
fn put_failures(failures: &mut [u8], told: [u8; 52])
    requires { 52 ≤ length failures.old }
    ensures { failures.new ≡ told ++ drop 52 failures.old }
{
    failures[..52].copy_from_slice(&told);
}

// Two bytes for each complete trick over the front of winners: who won it, and the card that won.
fn put_winners(winners: &mut [u8], ts: Tricks)
    requires few { ts.count ≤ 13 }
    requires room { 26 ≤ length winners.old }
    ensures { winners.new ≡ take (2 * ts.count) (won_bytes (map law_of ts.answers)) ++ drop (2 * ts.count) winners.old }
{
    for i in 0..ts.count as usize {
        let won = ts.answers[i];
        winners[2 * i] = won.seat;
        winners[2 * i + 1] = won.card;
    }
}

// Judges a table record. The answer is 0, with seven bytes in answer, a byte for each revoke in list, 52 bytes of the plays against Law 50C or 50D1 in
// failures, and winner and winning card of each complete trick in winners; or a refusal × 1024 + its place, with all four as they were.
pub fn judge_record(
    bytes: &[u8],
    answer: &mut [u8],
    list: &mut [u8],
    failures: &mut [u8],
    winners: &mut [u8],
) -> u32
    ensures number { result
        ≡ number_of (judge_of bytes.now
        (rooms_of answer.old list.old failures.old winners.old)) }
    ensures answered { answer.new
        ≡ answer_left (judge_of bytes.now
        (rooms_of answer.old list.old failures.old winners.old)) answer.old }
    ensures listed { list.new
        ≡ list_left (judge_of bytes.now
        (rooms_of answer.old list.old failures.old winners.old)) list.old }
    ensures failed { failures.new
        ≡ failures_left (judge_of bytes.now
        (rooms_of answer.old list.old failures.old winners.old)) failures.old }
    ensures won { winners.new
        ≡ winners_left (judge_of bytes.now
        (rooms_of answer.old list.old failures.old winners.old)) winners.old }
{
    if answer.len() < 7 {
        return u32::from(Refusal::ShortBuffer.at(0));
    }
    if list.len() < 48 {
        return u32::from(Refusal::ShortBuffer.at(1));
    }
    if failures.len() < 52 {
        return u32::from(Refusal::ShortBuffer.at(2));
    }
    if winners.len() < 26 {
        return u32::from(Refusal::ShortBuffer.at(3));
    }
    match judge(bytes) {
        Ok(judged) => {
            put7(answer, judged.bits);
            let revokes = judged.revokes.list;
            put_list(list, &revokes[..judged.revokes.count as usize]);
            put_failures(failures, judged.failures);
            put_winners(winners, judged.tricks);
            0
        }
        Err(refused) => u32::from(refused),
    }
}
