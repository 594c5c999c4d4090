ghost use Rattle.std.specs.Prelude.{[], ◌∷◌, length};
ghost use Rattle.serialization.specs.Writing.{Room, Puts};

// The front of a scratch, with bytes in it up to `at`.
#[derive(Drop)]
pub(crate) struct Writer<'a> {
    pub(crate) out: &'a mut [u8],
    pub(crate) at: usize,
}

impl Writer<'_> {
    pub(crate) fn push(&mut self, byte: u8)
        requires { Room 1 self.old }
        ensures puts { Puts (byte ∷ []) self.old self.new }
    {
        self.out[self.at] = byte;
        self.at += 1;
    }

    pub(crate) fn extend(&mut self, bytes: &[u8])
        requires { Room (length bytes.now) self.old }
        ensures puts { Puts bytes.now self.old self.new }
    {
        let end = self.at + bytes.len();
        self.out[self.at..end].copy_from_slice(bytes);
        self.at = end;
    }
}
