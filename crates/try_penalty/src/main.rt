// A worked play with penalty cards. It prints the number that each code is refused with, 0 for none; then the revokes (trick, seat, suit, excused) and the
// plays against Law 50 (their bytes).
// A card is 13 × suit + rank: clubs from 0, diamonds from 13, hearts from 26, spades from 39, the two first. Seats are 0 North to 3 West.
#![tactic(auto)]

use laws::Refusal;
use position::{Listed, Table};
use std::io;
use std::io::Write;

// A rank and a suit make the seat, in turn: North has the 2 6 T A of clubs, the 5 9 K of diamonds, the 4 8 Q of hearts and the 3 7 J of spades;
// East the 3 7 J, 2 6 T A, 5 9 K and 4 8 Q; South the 4 8 Q, 3 7 J, 2 6 T A and 5 9 K; West the 5 9 K, 4 8 Q, 3 7 J and 2 6 T A.
const HOLDERS: [u8; 52] = [
    0, 1, 2, 3, 0, 1, 2, 3, 0, 1, 2, 3, 0, 1, 2, 3, 0, 1, 2, 3, 0, 1, 2, 3, 0, 1, 2, 3, 0, 1, 2, 3,
    0, 1, 2, 3, 0, 1, 2, 3, 0, 1, 2, 3, 0, 1, 2, 3, 0, 1, 2, 3,
];

// What a code makes of a position: its refusal is printed, 0 for none, and the position stands where it is refused.
fn stand<W: Write>(out: &mut W, t: Table, taken: Result<Table, Refusal>) -> io::Result<Table> {
    match taken {
        Ok(next) => {
            writeln!(out, "0")?;
            Ok(next)
        }
        Err(refusal) => {
            writeln!(out, "{}", refusal.number())?;
            Ok(t)
        }
    }
}

// The exposure of a card.
fn expose<W: Write>(out: &mut W, t: Table, card: u8, deliberate: bool) -> io::Result<Table> {
    stand(out, t, t.take_exposure(card, deliberate))
}

// A lead choice.
fn choose<W: Write>(out: &mut W, t: Table, kind: u8, suit: u8) -> io::Result<Table> {
    stand(out, t, t.take_choice(kind, suit))
}

fn trick(t: Table, a: u8, b: u8, c: u8, d: u8) -> Table {
    let one = t.play(a);
    let two = one.play(b);
    let three = two.play(c);
    three.play(d)
}

// South is declarer in notrump, so West leads. A card of South's is no penalty card. East's ten of diamonds is exposed: no spade can be required, a diamond is.
// West leads a spade though he has diamonds.
fn first_trick<W: Write>(out: &mut W, t: Table) -> io::Result<Table> {
    let mine = expose(out, t, 2, false)?;
    let faced = expose(out, mine, 21, false)?;
    let spade = choose(out, faced, 0, 3)?;
    let asked = choose(out, spade, 0, 1)?;
    Ok(trick(asked, 39, 40, 41, 42))
}

// East's three of clubs is exposed by accident: it is minor. South leads a club, and East plays the seven.
fn second_trick<W: Write>(out: &mut W, t: Table) -> io::Result<Table> {
    let faced = expose(out, t, 1, false)?;
    Ok(trick(faced, 2, 3, 0, 5))
}

// East is to lead, West's jack of hearts is exposed, and hearts are forbidden. East leads a heart, with the three of clubs on the table.
fn third_trick<W: Write>(out: &mut W, t: Table) -> io::Result<Table> {
    let faced = expose(out, t, 35, false)?;
    let asked = choose(out, faced, 1, 2)?;
    Ok(trick(asked, 29, 26, 27, 28))
}

fn show_revoke<W: Write>(out: &mut W, byte: u8, excused: u8) -> io::Result<()> {
    writeln!(out, "{},{},{},{excused}", byte / 16, byte / 4 % 4, byte % 4)
}

fn show_revokes<W: Write>(out: &mut W, rs: Listed) -> io::Result<()> {
    writeln!(out, "{}", rs.count)?;
    for (byte, excused) in rs.list.iter().zip(&rs.excused).take(2) {
        show_revoke(out, *byte, *excused)?;
    }
    Ok(())
}

fn show_failures<W: Write>(out: &mut W, bytes: [u8; 52]) -> io::Result<()> {
    for byte in bytes.iter().take(3) {
        writeln!(out, "{byte}")?;
    }
    Ok(())
}

fn main(rt: HostRuntime) -> io::Result<()> {
    let mut out = rt.stdout();
    let holders = HOLDERS;
    let dealt = deal::hands(holders);
    let start = Table::new(holders, dealt, 4, 3);
    let one = first_trick(&mut out, start)?;
    let two = second_trick(&mut out, one)?;
    let end = third_trick(&mut out, two)?;
    show_revokes(&mut out, end.revokes())?;
    let found = end.found;
    show_failures(&mut out, found.failure_bytes())
}
