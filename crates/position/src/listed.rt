// The revokes as they are listed, leads among them, and which of them Law 64B3 excuses.
ghost use Rattle.std.specs.Prelude.{◌≡◌};
ghost use Rattle.position.specs.Listed.{listed_byte, flag_at, revokes_in};

use crate::Table;
use play::byte_after;

// The revokes in order of play: how many, and for each a byte (trick 4 bits, seat 2, suit 2) and 1 where it is excused.
// Two rows of bytes with one count: memory is fixed, and the bytes are lent to C as they stand.
#[derive(Clone, Copy, Debug, PartialEq, Eq)]
pub struct Listed {
    pub count: u8,
    pub list: [u8; 48],
    pub excused: [u8; 48],
}

// The byte of a revoke at the card with so many cards after it: with the suit required, where it is a lead against a requirement.
#[tactic(auto, unfolding(crate::specs::Listed::listed_byte, crate::specs::Listed::told_of))]
fn listed_byte(entries: u64, played: u64, named: u64, later: u64) -> u8
    ensures { result ≡ listed_byte entries played named later }
{
    let byte = byte_after(entries, played, later);
    let card = (played % 64 + 63 - later % 64) % 64;
    let from = ((played % 64 + 3) / 4 + 15 - card / 4) % 16;
    let told = ((named >> (3 * from)) % 8) as u8;
    if card % 4 != 0 {
        return byte;
    }
    if told < 4 {
        return byte;
    }
    byte / 4 * 4 + told % 4
}

// The bit of a card with so many cards after it.
#[tactic(auto, unfolding(crate::specs::Listed::flag_at))]
fn flag_at(word: u64, later: u64) -> u8
    ensures { result ≡ flag_at word later }
{
    ((word >> (later % 64)) % 2) as u8
}

impl Table {
    // The revokes, from the last card played to the first.
    pub fn revokes(self) -> Listed
        ensures { result ≡ revokes_in self }
    {
        let p = self.play;
        let f = self.found;
        let named = f.named;
        let free = f.excused;
        let mut list = [0u8; 48];
        let mut excused = [0u8; 48];
        let entries = p.entries();
        let played = p.played;
        let mut rest = p.revoked | f.leads;
        let mut n = rest.count_ones() as usize;
        if 48 < n {
            return Listed {
                count: 0,
                list,
                excused,
            };
        }
        let count = n as u8;
        let mut later: u64 = 0;
        // A turn takes the lowest bit that is left, which no range of the library counts.
        while rest != 0 {
            let low = rest.trailing_zeros() as u64;
            rest = (rest >> low) / 2;
            let byte = listed_byte(entries, played, named, later + low);
            let flag = flag_at(free, later + low);
            later = later + low + 1;
            n -= 1;
            list[n] = byte;
            excused[n] = flag;
        }
        Listed {
            count,
            list,
            excused,
        }
    }
}
