// What is printed, into memory of a fixed size.
ghost use Rattle.std.specs.Prelude.{◌≡◌, ◌≤◌, [], ◌∷◌, length};

use crate::print;
use crate::print::Reply;

// A text in a buffer of its own. What finds no room in it is not stored.
#[derive(Drop)]
pub struct Text<const N: usize> {
    bytes: [u8; N],
    len: usize,
    ghost size: { length bytes ≡ N },
    ghost within: { len ≤ N },
}

impl<const N: usize> Text<N> {
    ghost use Rattle.script.specs.Print.{held, Printed, decimal, until, reply_line};

    pub fn new() -> Text<N>
        ensures { held result ≡ [] }
    {
        Text {
            bytes: [0; N],
            len: 0,
        }
    }

    pub fn as_slice(&self) -> &[u8]
        ensures { result.now ≡ held self.now }
    {
        &self.bytes[..self.len]
    }

    pub fn clear(&mut self)
        ensures { held self.new ≡ [] }
    {
        self.len = 0;
    }

    // Each of these prints behind what the text holds.

    // By itself: with no room it stores nothing, and not the length again either, as it would by `print::byte`.
    pub fn byte(&mut self, b: u8)
        ensures { Printed self.old (b ∷ []) self.new }
    {
        if self.len < N {
            self.bytes[self.len] = b;
            self.len += 1;
        }
    }

    pub fn number(&mut self, n: u8)
        ensures { Printed self.old (decimal n) self.new }
    {
        self.len = print::number(&mut self.bytes, self.len, n);
    }

    pub fn text(&mut self, bytes: &[u8])
        ensures { Printed self.old bytes.now self.new }
    {
        self.len = print::text(&mut self.bytes, self.len, bytes);
    }

    // The bytes before the first `stop`, or all where there is none: how many they are.
    // At once: one by one, each would wait for the length that the one before it leaves in memory.
    pub fn until(&mut self, bytes: &[u8], stop: u8) -> usize
        ensures within { result ≤ length bytes.now }
        ensures counts { result ≡ length (until stop bytes.now) }
        ensures prints { Printed self.old (until stop bytes.now) self.new }
    {
        let taken = bytes.iter().position(|b| *b == stop).unwrap_or(bytes.len());
        let kept = taken.min(N - self.len);
        let end = self.len + kept;
        let buffer = &mut self.bytes[..];
        buffer[self.len..end].copy_from_slice(&bytes[..kept]);
        self.len = end;
        taken
    }

    pub fn answer(&mut self, reply: Reply)
        ensures { Printed self.old (reply_line reply) self.new }
    {
        self.len = print::answer(&mut self.bytes, self.len, reply);
    }
}
