// Bit fields written one after the other over the front of a lent buffer, the most significant bit first, by whole bytes.
#![tactic(auto)]

ghost use Rattle.std.specs.Prelude.{◌≡◌, ◌+◌, ◌-◌, ◌≤◌, min, length, set};
ghost use Rattle.std.proofs.lemmas.List.Edits.{sets};
ghost use Rattle.laws.specs.Record.{field, row, bytes_of};
ghost use Rattle.packing.specs.Packed.{new_packer, packer_after, bytes_after, packer_after_all, bytes_after_all, bytes_finished};

// How many bytes are stored, and the bits that wait for the rest of their byte: as a number, and how many they are.
#[derive(Clone, Copy, Debug, PartialEq, Eq)]
pub struct Packer {
    pub at: usize,
    pub pending: u8,
    pub count: usize,
}

// Stores a byte at a place where the buffer has that place. The answer is the place behind what is stored.
fn store(out: &mut [u8], at: usize, byte: u8) -> usize
    ensures value { result ≡ at + min 1 (length out.old - at) }
    ensures out_after { out.new ≡ set out.old at byte }
{
    if at < out.len() {
        out[at] = byte;
        return at + 1;
    }
    at
}

// Stores the last bytes of a number, at most two of them, from a place on.
fn store_last(out: &mut [u8], at: usize, bytes: usize, number: u64) -> usize
    requires { bytes ≤ 2 }
    ensures value { result ≡ at + min bytes (length out.old - at) }
    ensures out_after { out.new ≡ sets out.old at (bytes_of bytes number) }
{
    if bytes == 0 {
        return at;
    }
    if bytes == 1 {
        return store(out, at, (number % 256) as u8);
    }
    let next = store(out, at, (number / 256 % 256) as u8);
    store(out, next, (number % 256) as u8)
}

impl Packer {
    // Nothing is stored, and no bit waits.
    pub fn new() -> Self
        ensures { result ≡ new_packer }
    {
        Self {
            at: 0,
            pending: 0,
            count: 0,
        }
    }

    // Puts the last `width` bits of a value behind what was put. A width over 16 puts nothing; what the buffer has no room for is not stored.
    pub fn put(self, out: &mut [u8], width: usize, value: u64) -> Self
        ensures packer { result ≡ packer_after (length out.old) self (field width value) }
        ensures bytes { out.new ≡ bytes_after self (field width value) out.old }
    {
        if 16 < width {
            return self;
        }
        let span = 1u64 << width;
        let number = u64::from(self.pending) * span + value % span;
        let waiting = self.count % 8 + width;
        let rest = waiting % 8;
        let at = store_last(out, self.at, waiting / 8, number >> rest);
        Self {
            at,
            pending: (number % (1 << rest)) as u8,
            count: rest,
        }
    }

    // Puts values of one width, one after the other.
    pub fn put_row(mut self, out: &mut [u8], width: usize, values: &[u8]) -> Self
        ensures packer { result ≡ packer_after_all (length out.old) self (row width values.now) }
        ensures bytes { out.new ≡ bytes_after_all self (row width values.now) out.old }
    {
        for value in values {
            self = self.put(out, width, u64::from(*value));
        }
        self
    }

    // Fills the last byte up with zero bits.
    pub fn finish(self, out: &mut [u8])
        ensures { out.new ≡ bytes_finished self out.old }
    {
        self.put(out, (8 - self.count % 8) % 8, 0);
    }
}
