// The claim and the padding, read in order as the Laws' sections of these names are.
ghost use Rattle.std.specs.Prelude.{◌≡◌, not, [], ◌<◌};
ghost use Rattle.laws.specs.Reading.{overfull};
ghost use Rattle.laws.specs.Refused.{placed_of};
ghost use Rattle.judgement.specs.Claims.{claim_of, no_claim_by, marked_by, claim_by};

use last_card::Read;
use laws::{Refusal, Refused};

// Where no claim is marked.
fn read_no_claim(out: bool, played: u8, at: usize) -> Result<Read<Option<u8>>, Refused>
    ensures { placed_of result ≡ claim_of (no_claim_by out played [] at) }
{
    if !out {
        if played != 52 {
            return Err(Refusal::PlayUnfinished.at(u16::from(played)));
        }
    }
    Ok(Read {
        value: None,
        next: at,
    })
}

// The tricks of a marked claim.
fn read_marked_claim(
    bytes: &[u8],
    out: bool,
    played: u8,
    at: usize,
) -> Result<Read<Option<u8>>, Refused>
    requires { at < 65536 }
    ensures { placed_of result ≡ claim_of (marked_by out played bytes.now at) }
{
    if !claims::may_claim(out, played) {
        return Err(Refusal::NoClaimPoint.at(u16::from(played)));
    }
    let tricks = field::read(bytes, at, 4)?;
    if u16::from(claims::tricks_left(played)) < tricks {
        return Err(Refusal::ClaimTooMany.at(tricks));
    }
    Ok(Read {
        value: Some(tricks as u8),
        next: at + 4,
    })
}

// The claim's mark, and the tricks claimed, where there is a claim.
pub(crate) fn read_claim(
    bytes: &[u8],
    out: bool,
    played: u8,
    at: usize,
) -> Result<Read<Option<u8>>, Refused>
    requires { at < 32768 }
    ensures { placed_of result ≡ claim_of (claim_by out played bytes.now at) }
{
    let mark = field::read(bytes, at, 1)?;
    if mark == 0 {
        return read_no_claim(out, played, at + 1);
    }
    read_marked_claim(bytes, out, played, at + 1)
}

// Whether nothing but padding stands from a bit on.
pub(crate) fn is_padding(bytes: &[u8], at: usize) -> bool
    ensures { result ≡ not (overfull bytes.now at) }
{
    let used = at % 8;
    if bytes.len() <= at / 8 {
        return true;
    }
    if used == 0 {
        return false;
    }
    if bytes.len() != at / 8 + 1 {
        return false;
    }
    match field::read(bytes, at, 8 - used) {
        Ok(rest) => rest == 0,
        Err(_) => false,
    }
}
