// The words of a line, each read as the number that it is the word of.
ghost use Rattle.std.specs.Prelude.{◌≡◌, ◌∷◌, ◌<◌};
ghost use Rattle.laws.specs.Decimal.{digit};
ghost use Rattle.laws.specs.PbnText.{letter_of, suit_letters, rank_letters, strain_word, call_word, card_word};
ghost use Rattle.laws.specs.PbnReading.{same_bytes};
ghost use Rattle.pbn_words.specs.WordNumbers.{if_read, word_in};

const SUIT_LETTERS: [u8; 4] = [b'C', b'D', b'H', b'S'];

const RANK_LETTERS: [u8; 13] = [
    b'2', b'3', b'4', b'5', b'6', b'7', b'8', b'9', b'T', b'J', b'Q', b'K', b'A',
];

// The letter of a suit; 0 for a number that is none, as `letter_of` of the Laws has it.
fn suit_letter(suit: usize) -> u8
    ensures { result ≡ letter_of suit_letters suit }
{
    SUIT_LETTERS.get(suit).copied().unwrap_or(0)
}

// The letter of a rank; 0 for a number that is none, as `letter_of` of the Laws has it.
pub fn rank_letter(rank: usize) -> u8
    ensures { result ≡ letter_of rank_letters rank }
{
    RANK_LETTERS.get(rank).copied().unwrap_or(0)
}

// The word of a bid.
fn is_bid(word: &[u8], level: u8, strain: u8) -> bool
    requires { level < 200 }
    ensures { result ≡ same_bytes (digit level ∷ strain_word strain) word.now }
{
    let first = b'0' + level;
    if strain == 4 {
        return word == [first, b'N', b'T'].as_slice();
    }
    word == [first, suit_letter(strain as usize)].as_slice()
}

// The word of a call.
fn is_call(word: &[u8], call: u8) -> bool
    ensures { result ≡ same_bytes (call_word call) word.now }
{
    match call {
        0 => word == b"Pass".as_slice(),
        1 => word == b"X".as_slice(),
        2 => word == b"XX".as_slice(),
        _ => is_bid(word, (call - 3) / 5 + 1, (call - 3) % 5),
    }
}

// The word of a card.
fn is_card(word: &[u8], card: u8) -> bool
    ensures { result ≡ same_bytes (card_word card) word.now }
{
    word == [
        suit_letter((card / 13) as usize),
        rank_letter((card % 13) as usize),
    ]
    .as_slice()
}

// The call, or the card, whose word it is. A flag chooses, as the clause of `row_in` does, which speaks of both.
pub(crate) fn number_in(word: &[u8], cards: bool) -> Option<u8>
    ensures { result ≡ if_read (word_in cards word.now) }
{
    if cards {
        return (0..52).rev().find(|card| is_card(word, *card));
    }
    (0..38).rev().find(|call| is_call(word, *call))
}
