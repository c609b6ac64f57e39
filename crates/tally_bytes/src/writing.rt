// The parts of a tally, written at their places in 398 bytes.
ghost use Rattle.std.specs.Prelude.{◌≡◌, ◌+◌, ◌*◌, ◌%◌};
ghost use Rattle.std.proofs.lemmas.List.Edits.{sets};
ghost use Rattle.tally.specs.InBytes.{deal_bytes, score_bytes};

use super::TALLY_LENGTH;

// Four holders as a byte, of each the last two bits.
fn byte_of(a: u8, b: u8, c: u8, d: u8) -> u8
    ensures { result ≡ a % 4 * 64 + b % 4 * 16 + c % 4 * 4 + d % 4 }
{
    a % 4 * 64 + b % 4 * 16 + c % 4 * 4 + d % 4
}

// The deal, from the second byte on.
pub(crate) fn put_deal(out: &mut [u8; TALLY_LENGTH], holders: [u8; 52])
    ensures { out.new ≡ sets out.old 1 (deal_bytes holders) }
{
    for i in 0..13 {
        let k = 4 * i;
        out[1 + i] = byte_of(holders[k], holders[k + 1], holders[k + 2], holders[k + 3]);
    }
}

// The scores behind it.
pub(crate) fn put_scores(out: &mut [u8; TALLY_LENGTH], scores: [i16; 128])
    ensures { out.new ≡ sets out.old 14 (score_bytes scores) }
{
    for i in 0..128 {
        let [high, low] = scores[i].to_be_bytes();
        out[14 + 2 * i] = high;
        out[15 + 2 * i] = low;
    }
}

// The counts behind them.
pub(crate) fn put_counts(out: &mut [u8; TALLY_LENGTH], counts: [u8; 128])
    ensures { out.new ≡ sets out.old 270 counts }
{
    out[270..].copy_from_slice(&counts);
}
