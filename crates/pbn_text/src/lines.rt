// A line read at any stage.
ghost use Rattle.std.specs.Prelude.{◌≡◌};
ghost use Rattle.laws.specs.Decimal.{starts_with};
ghost use Rattle.pbn_text.specs.TextOf.{StepsOn};

use crate::state::{
    Stage, Text, auction_line, board_line, calls_line, cards_line, deal_line, play_line,
};

// The line begins with a bracket.
fn has_bracket(line: &[u8]) -> bool
    ensures { result ≡ starts_with 91 line.now }
{
    line.starts_with(b"[")
}

// A line at any stage.
pub(crate) fn line_in(t: Text, line: &[u8]) -> Option<Text>
    ensures { StepsOn t line.now result }
{
    match t.stage {
        Stage::Board => board_line(t, line),
        Stage::Deal => deal_line(t, line),
        Stage::Auction => auction_line(t, line),
        Stage::FirstCalls => calls_line(t, line),
        Stage::Calls => {
            if has_bracket(line) {
                return play_line(t, line);
            }
            calls_line(t, line)
        }
        Stage::CallsOver => play_line(t, line),
        Stage::Cards { rows } => cards_line(t, rows, line),
    }
}
