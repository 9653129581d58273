// A source for the tests of reading.

use sms_text::{Pulled, Source};

/// A source that gives at most so many bytes at a time, and notes whether it was offered 65,536 each time.
#[derive(Drop)]
pub struct Pieces<'a> {
    rest: &'a [u8],
    piece: usize,
    whole: bool,
}

impl<'a> Pieces<'a> {
    pub fn of(text: &'a [u8], piece: usize) -> Pieces<'a> {
        Pieces {
            rest: text,
            piece,
            whole: true,
        }
    }

    pub fn is_whole(&self) -> bool {
        self.whole
    }
}

impl<'a> Source for Pieces<'a> {
    ghost use Rattle.std.specs.Prelude.{None};

    ghost state = { λ s. record { left = None; faults = 0 } };

    fn pull(&mut self, buffer: &mut [u8]) -> Pulled {
        self.whole = self.whole && buffer.len() == 65_536;
        let count = self.rest.len().min(self.piece).min(buffer.len());
        if count == 0 {
            return Pulled::End;
        }
        let (front, rest) = self.rest.split_at(count);
        buffer[..count].copy_from_slice(front);
        self.rest = rest;
        Pulled::Got(count)
    }
}
