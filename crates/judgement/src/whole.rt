// The whole record judged: the claim behind its last card, then the answer's bits, the revokes, the plays against Law 50 and the complete tricks.
ghost use Rattle.std.specs.Prelude.{◌≡◌, List, ℕ, ◌<◌, ◌≤◌};
ghost use Rattle.laws.specs.Events.{Event};
ghost use Rattle.laws.specs.Record.{number};
ghost use Rattle.laws.specs.Judge.{read_record};
ghost use Rattle.laws.specs.Refused.{placed_of};
ghost use Rattle.judgement.specs.Whole.{judged_of, board_fields, OfCards, after_cards};

use crate::claim::{is_padding, read_claim};
use crate::settle::{settle, settle_passed_out};
use auction::Contract;
use last_card::{Reached, read_to_last_card};
use laws::{Refusal, Refused};
use play::Tricks;
use position::Listed;

// The answer's bits, the revokes, the 52 bytes of the plays against Law 50 and the complete tricks.
#[derive(Clone, Copy, Debug, PartialEq, Eq)]
pub struct Judged {
    pub bits: u64,
    pub revokes: Listed,
    pub failures: [u8; 52],
    pub tricks: Tricks,
}

// The answer's bits, passed out or with a contract, with so many tricks claimed or without a claim.
#[tactic(auto, unfolding(crate::specs::Whole::board_fields))]
fn settle_board(
    board: u8,
    table: u16,
    out: bool,
    k: Contract,
    ts: Tricks,
    rs: Listed,
    claimed: Option<u8>,
    left: u8,
) -> u64
    ensures { result ≡ number (board_fields board table out k ts rs claimed left) }
{
    if out {
        return settle_passed_out(board, table);
    }
    match claimed {
        Some(tricks) => settle(board, table, k, ts, rs, tricks, left),
        None => settle(board, table, k, ts, rs, 0, 0),
    }
}

// The claim and the padding, and then the judgement.
fn judge_claim(bytes: &[u8], reached: Reached, at: usize) -> Result<Judged, Refused>
    requires played { reached.after.play.played ≤ 52 }
    requires at { at < 32768 }
    ensures { (deal h : List ℕ) (e : List Event) → OfCards reached.board reached.out reached.contract deal h e reached.after
        → placed_of result ≡ judged_of (after_cards reached.board reached.table deal h e bytes.now at) }
{
    let t = reached.after;
    let p = t.play;
    let played = p.played as u8;
    let claim = read_claim(bytes, reached.out, played, at)?;
    if !is_padding(bytes, claim.next) {
        return Err(Refusal::NotPadding.at(0));
    }
    let ts = p.tricks();
    let rs = t.revokes();
    let found = t.found;
    let bits = settle_board(
        reached.board,
        reached.table,
        reached.out,
        reached.contract,
        ts,
        rs,
        claim.value,
        claims::tricks_left(played),
    );
    Ok(Judged {
        bits,
        revokes: rs,
        failures: found.failure_bytes(),
        tricks: ts,
    })
}

// The whole record.
pub fn judge(bytes: &[u8]) -> Result<Judged, Refused>
    ensures { placed_of result ≡ judged_of (read_record bytes.now 0) }
{
    let reached = read_to_last_card(bytes)?;
    judge_claim(bytes, reached.value, reached.next)
}
