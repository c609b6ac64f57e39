// The Board line.
ghost use Rattle.std.specs.Prelude.{◌≡◌, ◌-◌, ◌≤◌};
ghost use Rattle.laws.specs.PbnText.{board_line};
ghost use Rattle.laws.specs.PbnReading.{same_bytes, board_in};
ghost use Rattle.pbn_words.specs.WordNumbers.{if_read, board_said};

// The value of a digit; 0 for a byte below the digits.
fn value_of(b: u8) -> u32
    ensures { (result ≡ b - 48) × (result ≤ 207) }
{
    b.saturating_sub(b'0') as u32
}

// What one to three digits in a Board line's place say; 0 for none, as for a board of 0, which `board_in` takes neither.
fn board_said(line: &[u8]) -> u32
    ensures { result ≡ board_said line.now }
{
    if line.len() == 11 {
        return value_of(line[8]);
    }
    if line.len() == 12 {
        return 10 * value_of(line[8]) + value_of(line[9]);
    }
    if line.len() == 13 {
        return 100 * value_of(line[8]) + 10 * value_of(line[9]) + value_of(line[10]);
    }
    0
}

// The line of a board.
fn is_board_line(line: &[u8], board: u32) -> bool
    requires { board ≤ 999 }
    ensures { result ≡ same_bytes (board_line board) line.now }
{
    if !line.starts_with(b"[Board \"") {
        return false;
    }
    let said = &line[8..];
    let units = b'0' + (board % 10) as u8;
    if board < 10 {
        return said == &[units, b'"', b']'][..];
    }
    let tens = b'0' + (board / 10 % 10) as u8;
    if board < 100 {
        return said == &[tens, units, b'"', b']'][..];
    }
    let hundreds = b'0' + (board / 100) as u8;
    said == &[hundreds, tens, units, b'"', b']'][..]
}

// The board whose line it is.
pub fn board_in(line: &[u8]) -> Option<u32>
    ensures { result ≡ if_read (board_in line.now) }
{
    let board = board_said(line);
    if board == 0 {
        return None;
    }
    if 999 < board {
        return None;
    }
    if is_board_line(line, board) {
        return Some(board);
    }
    None
}
