// What a play begins from.
ghost use Rattle.std.specs.Prelude.{◌≡◌, ◌<◌};
ghost use Rattle.deal.specs.Hands.{words_of};
ghost use Rattle.position.specs.History.{ThirteenEach};

use play::Play;

// The deal with its hands, the trump, and the seat that leads first.
#[derive(Clone, Copy, Debug)]
pub struct Start {
    pub holders: [u8; 52],
    pub hands: [u64; 4],
    pub trump: u8,
    pub opening: u8,
    pub ghost words: { hands ≡ words_of holders },
    pub ghost thirteen: { ThirteenEach holders },
    pub ghost seat: { opening < 4 },
}

impl Start {
    ghost use Rattle.play.specs.Position.{start_of};

    // The position before the first card.
    pub fn play(self) -> Play
        ensures { result ≡ start_of self.holders self.hands self.trump self.opening }
    {
        Play::new(self.holders, self.hands, self.trump, self.opening)
    }
}
