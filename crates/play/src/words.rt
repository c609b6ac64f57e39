// Words of the play: bits, entries of a few bits each with the last one lowest, and the card of each place.
ghost use Rattle.std.specs.Prelude.{◌≡◌};
ghost use Rattle.play.specs.Words.{with_bit, with_four, with_entry};

// The card of each place.
pub(crate) const CARDS: [u8; 52] = [
    0, 1, 2, 3, 4, 5, 6, 7, 8, 9, 10, 11, 12, 13, 14, 15, 16, 17, 18, 19, 20, 21, 22, 23, 24, 25,
    26, 27, 28, 29, 30, 31, 32, 33, 34, 35, 36, 37, 38, 39, 40, 41, 42, 43, 44, 45, 46, 47, 48, 49,
    50, 51,
];

// The word with one bit more, lowest.
#[tactic(auto, unfolding(crate::specs::Words::with_bit))]
pub fn with_bit(word: u64, bit: u64) -> u64
    ensures { result ≡ with_bit word bit }
{
    word % 9223372036854775808 * 2 + bit % 2
}

// The word with four bits more, lowest.
#[tactic(auto, unfolding(crate::specs::Words::with_four))]
pub(crate) fn with_four(word: u64, bits: u64) -> u64
    ensures { result ≡ with_four word bits }
{
    word % 1152921504606846976 * 16 + bits % 16
}

// The word with one trick more, lowest: its winner 2 bits, and the suit led 2.
#[tactic(auto, unfolding(crate::specs::Words::with_entry))]
pub(crate) fn entered(word: u64, winner: u64, led: u64) -> u64
    ensures { result ≡ with_entry word winner led }
{
    word % 1152921504606846976 * 16 + winner % 4 * 4 + led % 4
}
