// The parts of a tally in 398 bytes, read.
ghost use Rattle.std.specs.Prelude.{◌≡◌, drop};
ghost use Rattle.std.proofs.Math.Seq.{slice};
ghost use Rattle.tally.specs.InBytes.{deal_in, scores_in_bytes};

use super::TALLY_LENGTH;

// The holders of the 52 cards: two bits each of the byte that has four of them.
pub(crate) fn deal_in(bytes: &[u8; TALLY_LENGTH]) -> [u8; 52]
    ensures { result ≡ deal_in (slice 1 14 bytes.now) }
{
    let mut row = [0u8; 52];
    for i in 0..52 {
        let behind = 6 - 2 * (i % 4);
        row[i] = (bytes[1 + i / 4] >> behind) % 4;
    }
    row
}

// The 128 scores: two bytes each, two's complement.
pub(crate) fn scores_in(bytes: &[u8; TALLY_LENGTH]) -> [i16; 128]
    ensures { result ≡ scores_in_bytes (slice 14 270 bytes.now) }
{
    let mut row = [0i16; 128];
    for i in 0..128 {
        row[i] = i16::from_be_bytes([bytes[14 + 2 * i], bytes[15 + 2 * i]]);
    }
    row
}

// The 128 counts.
pub(crate) fn counts_in(bytes: &[u8; TALLY_LENGTH]) -> [u8; 128]
    ensures { result ≡ drop 270 bytes.now }
{
    let mut row = [0u8; 128];
    row.copy_from_slice(&bytes[270..]);
    row
}
