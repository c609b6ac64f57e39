// A run of cards: each taken from the list and played on those before it, up to the first that is refused.
ghost use Rattle.std.specs.Prelude.{◌≡◌, length};
ghost use Rattle.contents.specs.Checked.{run_of};

use laws::Refusal;
use play::Play;

// The position after the run, and the place behind it; and what the one there is refused with as a card, where one is.
#[derive(Clone, Copy, Debug, PartialEq, Eq)]
pub struct Run {
    pub play: Play,
    pub place: usize,
    pub stopped: Option<Refusal>,
}

// The run of the cards of the list. A card is asked about and then played, as the judge's are: a position in a Result at each card takes time.
pub(crate) fn take_run(plays: &[u8], first: Play) -> Run
    ensures { result ≡ run_of plays.now first 0 (length plays.now) }
{
    let mut play = first;
    for (place, card) in plays.iter().enumerate() {
        match play.verdict(*card) {
            Ok(()) => play = play.play(*card),
            Err(refusal) => {
                return Run {
                    play,
                    place,
                    stopped: Some(refusal),
                };
            }
        }
    }
    Run {
        play,
        place: plays.len(),
        stopped: None,
    }
}
