// What is told at the end: the plays against Law 50, as bytes.
ghost use Rattle.std.specs.Prelude.{◌≡◌};
ghost use Rattle.found.specs.Told.{popped, failure_bytes_in};

use crate::Found;

// The five words without their lowest entry.
#[tactic(auto, unfolding(crate::specs::Told::pop_word, crate::specs::Told::popped))]
fn popped(words: [u64; 5]) -> [u64; 5]
    ensures { result ≡ popped words }
{
    [
        words[0] / 4096 % 281474976710656 + words[1] % 4096 * 281474976710656,
        words[1] / 4096 % 281474976710656 + words[2] % 4096 * 281474976710656,
        words[2] / 4096 % 281474976710656 + words[3] % 4096 * 281474976710656,
        words[3] / 4096 % 281474976710656 + words[4] % 4096 * 281474976710656,
        words[4] / 4096,
    ]
}

impl Found {
    // The plays against Law 50, from the last to the first: two bytes each, trick 4 bits, seat 2, card 6, four zeros. The rest is zero.
    pub fn failure_bytes(self) -> [u8; 52]
        ensures { result ≡ failure_bytes_in self }
    {
        let mut bytes = [0u8; 52];
        let mut words = self.failed;
        for i in (0..self.failures % 27).rev() {
            let entry = words[0] % 4096;
            words = popped(words);
            let at = (2 * i) as usize;
            bytes[at + 1] = (entry % 16 * 16) as u8;
            bytes[at] = (entry / 16) as u8;
        }
        bytes
    }
}
