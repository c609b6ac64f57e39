// What Law 2 says of a board, as C calls it.
#![tactic(auto)]

ghost use Rattle.std.specs.Prelude.{◌≡◌};
ghost use Rattle.board_call.specs.Asked.{dealer_asked, vulnerable_asked};

// The dealer of a board, a seat from 0 to 3; 3 with place 0 for a number that is not 1 to 127.
#[unsafe(no_mangle)]
pub extern "C" fn judge_dealer(board: u32) -> u32
    ensures { result ≡ dealer_asked board }
{
    board_call::judge_dealer(board)
}

// The vulnerable sides of a board: 0 none, 1 North-South, 2 East-West, 3 both; 3 with place 0, as a refusal, for a number that is not 1 to 127.
#[unsafe(no_mangle)]
pub extern "C" fn judge_vulnerable(board: u32) -> u32
    ensures { result ≡ vulnerable_asked board }
{
    board_call::judge_vulnerable(board)
}
