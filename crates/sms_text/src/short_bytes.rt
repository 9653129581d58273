// A few bytes, kept on the stack.
ghost use Rattle.std.specs.Prelude.{◌≡◌, ℕ, ◌+◌, ◌≤◌, List, [], ◌++◌, length, take};

use std::marker::Model;

// At most N bytes.
#[derive(Debug, Drop)]
pub(crate) struct ShortBytes<const N: usize> {
    bytes: [u8; N],
    len: usize,
}

impl<const N: usize> Model for ShortBytes<N> {
    ghost Value = { List ℕ };

    ghost view = { λ g. take g.len g.bytes };

    ghost invariant = { λ g. g.len ≤ N };
}

impl<const N: usize> ShortBytes<N> {
    pub(crate) fn new() -> ShortBytes<N>
        ensures { result ≡ [] }
    {
        ShortBytes {
            bytes: [0; N],
            len: 0,
        }
    }

    // How many more bytes there is room for.
    pub(crate) fn room(&self) -> usize
        ensures { result + length self.now ≡ N }
    {
        N - self.len
    }

    pub(crate) fn push(&mut self, part: &[u8])
        requires { length self.old + length part.now ≤ N }
        ensures { self.new ≡ self.old ++ part.now }
    {
        let start = self.len;
        let end = start + part.len();
        let bytes = &mut self.bytes[..];
        bytes[start..end].copy_from_slice(part);
        self.len = end;
    }

    pub(crate) fn clear(&mut self)
        ensures { self.new ≡ [] }
    {
        self.len = 0;
    }

    pub(crate) fn bytes(&self) -> &[u8]
        ensures value { result.now ≡ self.now }
        ensures bound { length result.now ≤ N }
    {
        &self.bytes[..self.len]
    }
}
