// Sets of cards as words, a bit for each of the 52 cards.
ghost use Rattle.std.specs.Prelude.{◌≡◌, ◌≤◌, ◌<◌, ◌^◌, ◌*◌};
ghost use Rattle.penalty.specs.Words.{card_word, suit_word, meets, without};

// The set of one card; none for a number from 52 on.
pub(crate) fn card_word(card: u8) -> u64
    ensures { result ≡ card_word card }
{
    if 52 <= card {
        return 0;
    }
    1u64 << card
}

// The cards of a suit; none for a number from 4 on.
#[tactic(auto, unfolding(crate::specs::Words::suit_word))]
pub(crate) fn suit_word(suit: u64) -> u64
    ensures { result ≡ suit_word suit }
{
    if 4 <= suit {
        return 0;
    }
    8191u64 << (13 * suit)
}

// Whether two sets have a card in common.
#[tactic(auto, unfolding(crate::specs::Words::meets))]
pub(crate) fn meets(a: u64, b: u64) -> bool
    ensures { result ≡ meets a b }
{
    u64::count_ones(a & b) != 0
}

// The cards of a set that are not in another.
#[tactic(auto, unfolding(crate::specs::Words::without))]
pub(crate) fn without(a: u64, b: u64) -> u64
    ensures { result ≡ without a b }
{
    a & (4503599627370495 ^ b)
}
