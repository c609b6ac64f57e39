// A run of cards: each read and played on those before it, up to the first that is refused.
ghost use Rattle.std.specs.Prelude.{◌≡◌, ◌-◌, ◌*◌, ◌<◌, ◌≤◌, length};
ghost use Rattle.last_card.specs.Sections.{run_of};

use crate::codes::code_ending;
use laws::Refusal;
use play::Play;

// A code, and what it is refused with as a card.
#[derive(Clone, Copy, Debug, PartialEq, Eq)]
pub struct NotPlayed {
    pub code: u8,
    pub refusal: Refusal,
}

// The position after the run, the place and the bit behind it, and what it stopped at, where it did.
#[derive(Clone, Copy, Debug, PartialEq, Eq)]
pub struct Run {
    pub play: Play,
    pub place: u16,
    pub next: usize,
    pub stopped: Option<NotPlayed>,
}

// The run of so many cards from a bit on, all of which lie whole within the bytes. A card is asked about and then played, which `Play::take` does in one: with
// the position in a Result at each card the judge takes two to three parts in a hundred longer, and docs/PERFORMANCE.md has it behind its time before.
pub(crate) fn read_run(bytes: &[u8], first: Play, at: usize, count: u16) -> Run
    requires to { at < 65536 }
    requires whole { 6 * count ≤ 8 * length bytes.now - at }
    ensures { result ≡ run_of bytes.now first at 0 count }
{
    let mut play = first;
    let mut next = at;
    for place in 0..count {
        let code = code_ending(bytes, next + 5);
        match play.verdict(code) {
            Ok(()) => play = play.play(code),
            Err(refusal) => {
                return Run {
                    play,
                    place,
                    next,
                    stopped: Some(NotPlayed { code, refusal }),
                };
            }
        }
        next += 6;
    }
    Run {
        play,
        place: count,
        next,
        stopped: None,
    }
}
