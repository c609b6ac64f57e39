// The judgement's numbers: tricks after Law 64, score by Law 77, and the 56 bits of the answer.
ghost use Rattle.std.specs.Prelude.{◌≡◌, ◌<◌, ◌^◌, nat_abs};
ghost use Rattle.laws.specs.Record.{number};
ghost use Rattle.laws.specs.Judgement.{twos_complement};
ghost use Rattle.judgement.specs.Settled.{head_fields, play_fields, won_in, settled_fields};

use auction::Contract;
use law77::{Stake, declarer_score, ns_score};
use play::Tricks;
use position::Listed;

// A score as 16 bits, two's complement. The clause speaks of numbers over 16 bits too, which `as u16` would cut.
fn score_word(score: i64) -> u64
    requires { nat_abs score < 10000000000000 }
    ensures { (result ≡ twos_complement score) × (result < 10000000000000) }
{
    let size = score.unsigned_abs();
    if 0 <= score {
        return size;
    }
    65536u64.saturating_sub(size)
}

// Board and table at the head of the answer.
fn heading_bits(board: u8, table: u16) -> u64
    ensures { (result ≡ number (head_fields board table)) × (result < 2 ^ 60) }
{
    board as u64 * 562949953421312 + table as u64 * 1099511627776
}

// What follows them where there is a contract.
fn contract_bits(k: Contract, won: u16, after: u32, revokes: u8, word: u64) -> u64
    requires { (after < 131072) × (word < 10000000000000) }
    ensures { (result ≡ number (play_fields k won after revokes word)) × (result < 2 ^ 60) }
{
    let contract = k.level as u64 * 137438953472
        + k.strain as u64 * 17179869184
        + k.doubling as u64 * 4294967296
        + k.declarer as u64 * 1073741824;
    let tricks = won as u64 * 67108864 + after as u64 * 4194304;
    contract + tricks + revokes as u64 * 65536 + word
}

// Tricks won by declarer's side, claimed ones included.
#[tactic(auto, unfolding(crate::specs::Settled::won_in))]
fn won(ts: Tricks, declarer: u8, claim: u8) -> u16
    ensures { result ≡ won_in ts declarer claim }
{
    let side = (declarer % 2) as usize;
    u16::from(ts.won[side]) + u16::from(claim)
}

// The answer's bits on a board that was passed out.
pub(crate) fn settle_passed_out(board: u8, table: u16) -> u64
    ensures { result ≡ number (head_fields board table) }
{
    heading_bits(board, table)
}

// The answer's bits where there is a contract.
pub(crate) fn settle(
    board: u8,
    table: u16,
    k: Contract,
    ts: Tricks,
    rs: Listed,
    claim: u8,
    left: u8,
) -> u64
    ensures { result ≡ number (settled_fields board table k ts rs claim left) }
{
    let declarer = k.declarer;
    let taken = won(ts, declarer, claim);
    let moved = transfer::transferred(rs, ts, declarer, claim, left);
    let after = transfer::tricks_after(rs, declarer, taken, moved);
    let stake = Stake {
        level: k.level,
        strain: k.strain,
        doubling: k.doubling,
        vulnerable: deal::vulnerable(board, declarer),
    };
    let score = ns_score(declarer_score(stake, after), declarer);
    let word = score_word(score);
    heading_bits(board, table) + contract_bits(k, taken, after, rs.count, word)
}
