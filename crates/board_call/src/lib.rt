// What Law 2 says of a board, for C: its dealer, and which sides are vulnerable.
#![tactic(auto)]

ghost use Rattle.std.specs.Prelude.{◌≡◌};
ghost use Rattle.board_call.specs.Asked.{is_board, dealer_asked, vulnerable_asked};
ghost use Rattle.deal.specs.Sides.{sides_of};
ghost use Rattle.laws.specs.Law2.{vulnerability};

use deal::Vulnerability;
use laws::{Refusal, Refused};

const NO_BOARD: Refused = Refused {
    refusal: Refusal::NoBoardOrTable,
    place: 0,
};

// Whether a number is that of a board, 1 to 127.
#[tactic(auto, unfolding(crate::specs::Asked::is_board))]
fn is_board(board: u32) -> bool
    ensures { result ≡ is_board board }
{
    board != 0 && board <= 127
}

// The dealer of a board, a seat from 0 to 3; 3 with place 0 for a number that is not 1 to 127.
pub fn judge_dealer(board: u32) -> u32
    ensures { result ≡ dealer_asked board }
{
    if is_board(board) {
        return deal::dealer(board as u8) as u32;
    }
    u32::from(NO_BOARD)
}

// The vulnerable sides of a board: 0 none, 1 North-South, 2 East-West, 3 both.
fn sides(board: u8) -> u32
    ensures { result ≡ sides_of (vulnerability board) }
{
    match deal::vulnerable_sides(board) {
        Vulnerability::Neither => 0,
        Vulnerability::NorthSouth => 1,
        Vulnerability::EastWest => 2,
        Vulnerability::Both => 3,
    }
}

// The vulnerable sides of a board, as above; 3 with place 0 for a number that is not 1 to 127.
pub fn judge_vulnerable(board: u32) -> u32
    ensures { result ≡ vulnerable_asked board }
{
    if is_board(board) {
        return sides(board as u8);
    }
    u32::from(NO_BOARD)
}
