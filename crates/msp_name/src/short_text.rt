// A text of few bytes, kept without memory.
ghost use Rattle.std.specs.Prelude.{◌≡◌, ◌+◌, ◌≤◌, ◌++◌, [], length};

use std::marker::Model;

/// A text of at most `ROOM` bytes.
#[derive(Drop)]
pub struct ShortText<const ROOM: usize> {
    buffer: [u8; ROOM],
    len: usize,
}

impl<const ROOM: usize> Model for ShortText<ROOM> {
    ghost use Rattle.std.specs.Prelude.{ℕ, List, ◌≤◌, take};

    ghost Value = { List ℕ };

    ghost view = { λ t. take t.len t.buffer };

    ghost invariant = { λ t. t.len ≤ ROOM };
}

impl<const ROOM: usize> ShortText<ROOM> {
    pub fn new() -> ShortText<ROOM>
        ensures { result ≡ [] }
    {
        ShortText {
            buffer: [0; ROOM],
            len: 0,
        }
    }

    /// A text of these bytes.
    pub fn of(bytes: &[u8]) -> ShortText<ROOM>
        requires { length bytes.now ≤ ROOM }
        ensures { result ≡ bytes.now }
    {
        let mut text = ShortText::new();
        text.put(bytes);
        text
    }

    /// Puts bytes at the end.
    pub fn put(&mut self, text: &[u8])
        requires { length self.old + length text.now ≤ ROOM }
        ensures { self.new ≡ self.old ++ text.now }
    {
        let end = self.len + text.len();
        let buffer = &mut self.buffer[..];
        buffer[self.len..end].copy_from_slice(text);
        self.len = end;
    }

    pub fn bytes(&self) -> &[u8]
        ensures value { result.now ≡ self.now }
        ensures short { length self.now ≤ ROOM }
    {
        let buffer = &self.buffer[..];
        &buffer[..self.len]
    }
}
