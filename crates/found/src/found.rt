// What is found of the cards played: leads that are revokes, revokes that are excused, and plays against Law 50.
// A word of entries has the last entry lowest.
ghost use Rattle.std.specs.Prelude.{◌≡◌, ◌<◌};
ghost use Rattle.found.specs.Found.{none_found, named_by, with_revoke, with_lead, pushed, with_failure};

use play::with_bit;

#[derive(Clone, Copy, Debug, PartialEq, Eq)]
pub struct Found {
    // A bit for each card: 1 for a lead that is a revoke, and 1 for a revoke that is excused.
    pub leads: u64,
    pub excused: u64,
    // Three bits for each lead: 4 + the suit required where that is a revoke, else 0.
    pub named: u64,
    // The plays against Law 50: how many, and twelve bits for each in words of five. A list would need memory that is not fixed.
    pub failures: u64,
    pub failed: [u64; 5],
}

// What is told of a lead: 4 + the suit required where it is a revoke against a requirement, else 0.
fn named_by(revoke: bool, required: u64) -> u64
    ensures value { result ≡ named_by revoke required }
    ensures bound { result < 8 }
{
    if revoke {
        if required < 4 {
            return 4 + required;
        }
        return 0;
    }
    0
}

// The five words with one entry of twelve bits more, lowest.
#[tactic(auto, unfolding(crate::specs::Found::last_of, crate::specs::Found::push_word, crate::specs::Found::pushed))]
fn pushed(words: [u64; 5], entry: u64) -> [u64; 5]
    ensures { result ≡ pushed words entry }
{
    [
        words[0] % 281474976710656 * 4096 + entry % 4096,
        words[1] % 281474976710656 * 4096 + words[0] / 281474976710656 % 4096,
        words[2] % 281474976710656 * 4096 + words[1] / 281474976710656 % 4096,
        words[3] % 281474976710656 * 4096 + words[2] / 281474976710656 % 4096,
        words[4] % 281474976710656 * 4096 + words[3] / 281474976710656 % 4096,
    ]
}

impl Found {
    #[tactic(auto, unfolding(crate::specs::Found::none_found))]
    pub fn new() -> Self
        ensures { result ≡ none_found }
    {
        Found {
            leads: 0,
            excused: 0,
            named: 0,
            failures: 0,
            failed: [0u64; 5],
        }
    }

    // With a card that is a revoke or not, a lead or not, and by a seat that is excused or not.
    #[tactic(auto, unfolding(crate::specs::Found::with_revoke))]
    pub fn with_revoke(mut self, lead: bool, revoke: bool, excused: bool) -> Self
        ensures { result ≡ with_revoke self lead revoke excused }
    {
        self.leads = with_bit(self.leads, u64::from(lead & revoke));
        self.excused = with_bit(self.excused, u64::from(revoke & excused));
        self
    }

    // With a lead, where the card is one.
    #[tactic(auto, unfolding(crate::specs::Found::with_lead))]
    pub fn with_lead(mut self, lead: bool, revoke: bool, required: u64) -> Self
        ensures { result ≡ with_lead self lead revoke required }
    {
        if lead {
            self.named = self.named % 1152921504606846976 * 8 + named_by(revoke, required);
            return self;
        }
        self
    }

    // With a play against Law 50.
    #[tactic(auto, unfolding(crate::specs::Found::with_failure))]
    pub fn with_failure(mut self, entry: u64) -> Self
        ensures { result ≡ with_failure self entry }
    {
        let words = self.failed;
        let more = pushed(words, entry);
        self.failed = more;
        self.failures = self.failures % 64 + 1;
        self
    }
}
