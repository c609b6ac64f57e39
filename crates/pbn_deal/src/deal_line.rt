// The Deal line, read: the seat that it starts from and the holders that it says, where it is their line.
ghost use Rattle.std.specs.Prelude.{◌≡◌, ◌<◌};
ghost use Rattle.laws.specs.PbnText.{deal_line};
ghost use Rattle.laws.specs.PbnReading.{same_bytes};
ghost use Rattle.pbn_deal.specs.DealOn.{deal_on};

use crate::held::{held_by, place_among};
use crate::walk::{over_byte, over_hands};
use deal::are_seats;
use pbn_words::seat_letter;

// The seat and the holders.
#[derive(Clone, Copy, Debug, PartialEq, Eq)]
pub struct Deal {
    pub first: u8,
    pub holders: [u8; 52],
}

// The line of a seat and holders.
fn is_deal_line(line: &[u8], first: u8, holders: [u8; 52]) -> bool
    requires { first < 4 }
    ensures { result ≡ same_bytes (deal_line first holders) line.now }
{
    if !line.starts_with(b"[Deal \"") {
        return false;
    }
    let seat = over_byte(line, Some(7), seat_letter(first as usize));
    let colon = over_byte(line, seat, b':');
    let hands = over_hands(line, colon, holders, first);
    let quote = over_byte(line, hands, b'"');
    match over_byte(line, quote, b']') {
        Some(end) => line.len() <= end,
        None => false,
    }
}

// What a Deal line says.
pub fn deal_in(line: &[u8]) -> Option<Deal>
    ensures { result ≡ deal_on line.now }
{
    if line.len() < 11 {
        return None;
    }
    let first = place_among(b"NESW", line[7]) as u8;
    if first == 4 {
        return None;
    }
    let end = line.len() - 2;
    let holders = held_by(&line[9..end], first).holders;
    if !are_seats(&holders) {
        return None;
    }
    if !is_deal_line(line, first, holders) {
        return None;
    }
    Some(Deal { first, holders })
}
