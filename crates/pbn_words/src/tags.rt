// The lines of tags: each is read as the number that it is the line of.
ghost use Rattle.std.specs.Prelude.{◌≡◌, ◌<◌};
ghost use Rattle.laws.specs.PbnText.{letter_of, seat_letters, seat_line};
ghost use Rattle.laws.specs.PbnReading.{same_bytes, number_of};
ghost use Rattle.pbn_words.specs.WordNumbers.{if_read};

const SEAT_LETTERS: [u8; 4] = [b'N', b'E', b'S', b'W'];

// The letter of a seat; 0 for a number that is none, as `letter_of` of the Laws has it.
pub fn seat_letter(seat: usize) -> u8
    ensures { result ≡ letter_of seat_letters seat }
{
    SEAT_LETTERS.get(seat).copied().unwrap_or(0)
}

// The line of a seat's tag.
fn is_seat_line(line: &[u8], tag: &[u8], seat: u8) -> bool
    ensures { result ≡ same_bytes (seat_line tag.now seat) line.now }
{
    if !line.starts_with(tag) {
        return false;
    }
    &line[tag.len()..] == &[seat_letter(seat as usize), b'"', b']'][..]
}

// The seat whose line it is.
pub fn seat_in(line: &[u8], tag: &[u8]) -> Option<u8>
    ensures { result ≡ if_read (number_of (seat_line tag.now) 4 line.now) }
{
    (0..4).rev().find(|seat| is_seat_line(line, tag, *seat))
}
