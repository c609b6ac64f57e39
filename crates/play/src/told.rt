// What a position tells at the end: the complete tricks with their answers, and the byte of a revoke.
ghost use Rattle.std.specs.Prelude.{◌≡◌, ◌+◌, ◌<◌, ◌≤◌, ◌*◌, ◌^◌};
ghost use Rattle.play.specs.Told.{complete_in, tricks_in, entries_in, byte_after};

use crate::words::entered;
use crate::{Play, Tricks, Won};

impl Play {
    // How many tricks are complete; there are thirteen.
    #[tactic(auto, unfolding(crate::specs::Told::complete_in))]
    fn complete(self) -> u8
        ensures value { result ≡ complete_in self }
        ensures most { result ≤ 13 }
    {
        if self.played < 52 {
            return (self.played / 4) as u8;
        }
        13
    }

    // The complete tricks.
    pub fn tricks(self) -> Tricks
        ensures { result ≡ tricks_in self }
    {
        let count = self.complete();
        let none = Won { seat: 0, card: 0 };
        let mut answers = [none; 13];
        let mut rest = self.tricks;
        let mut low = self.low;
        let mut high = self.high;
        let mut east: u8 = 0;
        for i in (0..count).rev() {
            let seat = (rest / 4 % 4) as u8;
            let card = (high % 16 * 16 + low % 16) as u8;
            rest = rest / 16;
            low = low / 16;
            high = high / 16;
            answers[i as usize] = Won { seat, card };
            east += seat % 2;
        }
        Tricks {
            count,
            won: [count - east, east],
            answers,
        }
    }

    // The entries of the tricks, with the trick under way where there is one; its winner is not told.
    #[tactic(auto, unfolding(crate::specs::Told::entries_in))]
    pub fn entries(self) -> u64
        ensures { result ≡ entries_in self }
    {
        if self.played % 4 == 0 {
            return self.tricks;
        }
        entered(self.tricks, 0, self.led)
    }
}

// The byte of a revoke at a card with so many cards after it, by the entries and the number of cards played.
#[tactic(auto, unfolding(crate::specs::Told::byte_after, crate::specs::Told::revoke_byte))]
pub fn byte_after(entries: u64, played: u64, later: u64) -> u8
    ensures { result ≡ byte_after entries played later }
{
    let card = (played % 64 + 63 - later % 64) % 64;
    let from = ((played % 64 + 3) / 4 + 15 - card / 4) % 16;
    let here = entries >> (4 * from);
    ((card / 4 + 1) % 16 * 16 + (here / 64 % 4 + card % 4) % 4 * 4 + here % 4) as u8
}
