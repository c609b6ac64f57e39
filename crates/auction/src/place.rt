// A place in the word of first players: one for each side and strain.
ghost use Rattle.std.specs.Prelude.{◌≡◌, ◌+◌, ◌*◌, ◌%◌, ◌<◌};

// 5 × side + strain.
#[derive(Clone, Copy)]
pub(crate) struct Place {
    pub at: u8,
    pub ghost within: { at < 10 },
}

impl Place {
    // The place of a seat's side and a strain.
    pub fn of(seat: u8, strain: u8) -> Self
        ensures { result.at ≡ seat % 2 * 5 + strain % 5 }
    {
        Place {
            at: seat % 2 * 5 + strain % 5,
        }
    }
}
