// The pitch of a device: to how many bytes its rows are aligned.
ghost use Rattle.std.specs.Prelude.{◌≡◌, true, false, MatchOption};
ghost use Rattle.texture.specs.Runs.{pitch_fits};

#[derive(Clone, Copy)]
pub(crate) struct Pitch {
    bytes: u32,
    ghost fits: { pitch_fits bytes ≡ true },
}

impl Pitch {
    const MAX: u32 = 256;

    // A pitch of so many bytes, where they are 1 to 256.
    pub(crate) fn new(bytes: u32) -> Option<Pitch>
        ensures { MatchOption result (pitch_fits bytes ≡ false) (λ pitch. pitch.bytes ≡ bytes) }
    {
        // An if: the closure of a `then` would have to require again what was tried.
        if (1..=Self::MAX).contains(&bytes) {
            Some(Pitch { bytes })
        } else {
            None
        }
    }

    pub(crate) fn bytes(self) -> u32
        ensures { result ≡ self.bytes }
    {
        self.bytes
    }
}
