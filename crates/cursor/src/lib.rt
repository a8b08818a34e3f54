// A lent buffer, and the place up to which it is written.
#![tactic(auto)]

ghost use Rattle.std.specs.Prelude.{[], ◌∷◌, ◌+◌, length};
ghost use Rattle.cursor.specs.Puts.{Puts, Room};

#[derive(Drop)]
pub struct Cursor<'a> {
    pub out: &'a mut [u8],
    pub at: usize,
}

impl<'a> Cursor<'a> {
    pub fn put_byte(&mut self, byte: u8)
        requires { Room self.old 1 }
        ensures { Puts (byte ∷ []) self.old self.new }
    {
        self.out[self.at] = byte;
        self.at += 1;
    }

    // An array is written by one store where it is short.
    pub fn put<const N: usize>(&mut self, bytes: [u8; N])
        requires { Room self.old N }
        ensures { Puts bytes.entry self.old self.new }
    {
        self.put_bytes(&bytes);
    }

    pub fn put_bytes(&mut self, bytes: &[u8])
        requires { Room self.old (length bytes.now) }
        ensures { Puts bytes.now self.old self.new }
    {
        let end = self.at + bytes.len();
        self.out[self.at..end].copy_from_slice(bytes);
        self.at = end;
    }
}
