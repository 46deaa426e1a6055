//! The bytes of a feed that are at hand.
ghost use Rattle.std.specs.Prelude.{◌≡◌, ◌+◌, ◌≤◌, length, drop, [], IfOk};

use crate::streams::read_some;
use std::io;
use std::io::Read;

/// Bytes that have come in and are not settled yet: a part of a buffer.
#[derive(Drop)]
pub(crate) struct Window<'a> {
    buffer: &'a mut [u8],
    start: usize,
    end: usize,
    /// Where the first of them stands in the feed.
    offset: u64,
    ghost ordered: { start ≤ end },
    ghost within: { end ≤ length buffer.now },
}

impl<'a> Window<'a> {
    ghost use Rattle.statement.specs.Windows.{at_hand_lem};

    /// No bytes yet, of a feed from its first byte on.
    pub(crate) fn new(buffer: &'a mut [u8]) -> Window<'a>
        ensures bytes { at_hand_lem result ≡ [] }
        ensures offset { result.offset ≡ 0 }
    {
        Window {
            buffer,
            start: 0,
            end: 0,
            offset: 0,
        }
    }

    /// The bytes at hand.
    pub(crate) fn at_hand(&self) -> &[u8]
        ensures { result.now ≡ at_hand_lem self.now }
    {
        &self.buffer[self.start..self.end]
    }

    /// Where the first of them stands in the feed.
    pub(crate) fn offset(&self) -> u64
        ensures { result ≡ self.now.offset }
    {
        self.offset
    }

    /// Moves the bytes at hand to the front of the buffer.
    fn shift(&mut self)
        ensures start { self.new.start ≡ 0 }
        ensures bytes { at_hand_lem self.new ≡ at_hand_lem self.old }
        ensures offset { self.new.offset ≡ self.old.offset }
    {
        let left = self.end - self.start;
        self.buffer.copy_within(self.start..self.end, 0);
        self.start = 0;
        self.end = left;
    }

    /// Reads more bytes behind those at hand, and answers how many; 0 at the end of the feed.
    pub(crate) fn refill<R: Read>(&mut self, input: &mut R) -> io::Result<usize>
        ensures more { IfOk result (λ count. length (at_hand_lem self.new) ≡ length (at_hand_lem self.old) + count) }
        ensures offset { self.new.offset ≡ self.old.offset }
    {
        self.shift();
        let count = read_some(input, &mut self.buffer[self.end..])?;
        self.end += count;
        Ok(count)
    }

    /// Lets go of the first bytes at hand. The next stands at this offset of the feed.
    pub(crate) fn pass(&mut self, bytes: usize, next: u64)
        requires { bytes ≤ length (at_hand_lem self.old) }
        ensures bytes { at_hand_lem self.new ≡ drop bytes (at_hand_lem self.old) }
        ensures offset { self.new.offset ≡ next }
    {
        self.start += bytes;
        self.offset = next;
    }
}
