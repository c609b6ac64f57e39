// Codes of six bits: how many of them are whole, and each by the byte of its last bit and the one before, where there is one.
ghost use Rattle.std.specs.Prelude.{◌≡◌, ◌-◌, ◌*◌, ◌/◌, ◌<◌, ◌≤◌, min, length};
ghost use Rattle.laws.specs.Reading.{number_at};

// How many of so many codes from a bit on lie whole within the bytes.
pub(crate) fn whole_codes(bytes: &[u8], at: usize, count: u16) -> u16
    requires { count < 512 }
    ensures { result ≡ min ((8 * length bytes.now - at) / 6) count }
{
    let first = at / 8;
    let all = bytes.len();
    if all <= first {
        return 0;
    }
    let there = (all - first).min(512);
    ((there * 8 - at % 8) / 6).min(usize::from(count)) as u16
}

// The code whose last bit is given.
pub(crate) fn code_ending(bytes: &[u8], last: usize) -> u8
    requires from { 5 ≤ last }
    requires to { last < 8 * length bytes.now }
    ensures { result ≡ number_at bytes.now (last - 5) 6 }
{
    let at = last / 8;
    let two = u32::from(bytes[at.saturating_sub(1)]) * 256 + u32::from(bytes[at]);
    ((two >> (7 - last % 8)) % 64) as u8
}
