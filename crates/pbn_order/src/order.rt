// The order of play of cards that are listed in columns: each trick's winner by Law 44 leads to the next.
ghost use Rattle.std.specs.Prelude.{◌≡◌, [], ◌∷◌, ◌<◌, ◌/◌, ◌%◌, max, eqb, if◌then◌else◌};
ghost use Rattle.laws.specs.Law44.{is_of, highest, winning_card, winner};
ghost use Rattle.laws.specs.PbnOrder.{places_to, order_of_play};

// The higher of a card and the best so far, where it is of the suit.
fn higher(suit: u8, card: u8, best: u8) -> u8
    ensures { result ≡ (if is_of suit card then max card best else best) }
{
    if card / 13 == suit {
        card.max(best)
    } else {
        best
    }
}

// The highest card of a suit in a trick, 0 for none.
fn highest(suit: u8, a: u8, b: u8, c: u8, d: u8) -> u8
    ensures { result ≡ highest suit (d ∷ c ∷ b ∷ a ∷ []) }
{
    let first = higher(suit, a, 0);
    let second = higher(suit, b, first);
    let third = higher(suit, c, second);
    higher(suit, d, third)
}

// The card that wins a trick.
fn winning_card(trump: u8, a: u8, b: u8, c: u8, d: u8) -> u8
    ensures { result ≡ winning_card trump (d ∷ c ∷ b ∷ a ∷ []) }
{
    let led = highest(a / 13, a, b, c, d);
    if d / 13 == trump {
        return highest(trump, a, b, c, d);
    }
    if c / 13 == trump {
        return highest(trump, a, b, c, d);
    }
    if b / 13 == trump {
        return highest(trump, a, b, c, d);
    }
    if a / 13 == trump {
        return highest(trump, a, b, c, d);
    }
    led
}

// The seat that wins a trick of four cards in order of play.
fn winner(trump: u8, leader: u8, a: u8, b: u8, c: u8, d: u8) -> u8
    requires { leader < 4 }
    ensures { (result ≡ winner trump leader (d ∷ c ∷ b ∷ a ∷ [])) × (result < 4) }
{
    let card = winning_card(trump, a, b, c, d);
    if d == card {
        return (leader + 3) % 4;
    }
    if c == card {
        return (leader + 2) % 4;
    }
    if b == card {
        return (leader + 1) % 4;
    }
    leader
}

// How many places clockwise it is from a seat to another.
fn places_to(from: u8, seat: u8) -> usize
    requires { (from < 4) × (seat < 4) }
    ensures { (result ≡ places_to from seat) × (result < 4) }
{
    ((seat + 4 - from) % 4) as usize
}

// The order of play of cards that are listed in columns from a seat, which leads first.
pub fn order_of_play(cards: [u8; 52], trump: u8, seat: u8) -> [u8; 52]
    ensures { result ≡ order_of_play trump (seat % 4) cards }
{
    let mut order = [0u8; 52];
    let first = seat % 4;
    let mut leader = first;
    for trick in 0..13 {
        let at = 4 * trick;
        let a = cards[at + places_to(first, leader)];
        let b = cards[at + places_to(first, (leader + 1) % 4)];
        let c = cards[at + places_to(first, (leader + 2) % 4)];
        let d = cards[at + places_to(first, (leader + 3) % 4)];
        order[at] = a;
        order[at + 1] = b;
        order[at + 2] = c;
        order[at + 3] = d;
        leader = winner(trump, leader, a, b, c, d);
    }
    order
}
