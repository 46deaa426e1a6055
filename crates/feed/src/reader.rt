//! Where a reader of a feed stands. Reading stands in the module below.
ghost use Rattle.std.specs.Prelude.{◌≡◌, ◌+◌, ◌-◌, ◌^◌, ◌<◌, min, length};

mod reading;

/// Some bytes of a feed that are still to be read, and the offset of the first of them in the
/// whole feed.
#[derive(Clone, Copy)]
pub struct Reader<'a> {
    offset: u64,
    rest: &'a [u8],
    ghost counted: { offset + length rest.now < 2 ^ 64 },
}

impl<'a> Reader<'a> {
    /// A reader of the bytes, of which the first stands at the offset of the whole feed. A feed has
    /// fewer than 2^64 bytes: where the offset leaves no room for these, the last that does is taken.
    pub fn new(bytes: &'a [u8], offset: u64) -> Reader<'a>
        ensures offset { result.offset ≡ min offset (2 ^ 64 - 1 - length bytes.now) }
        ensures rest { result.rest.now ≡ bytes.now }
    {
        Reader {
            offset: offset.min(u64::MAX - bytes.len() as u64),
            rest: bytes,
        }
    }

    /// The offset of the next record in the whole feed.
    pub fn offset(&self) -> u64
        ensures { result ≡ self.now.offset }
    {
        self.offset
    }

    /// The bytes that are still to be read.
    pub fn rest(&self) -> &'a [u8]
        ensures { result.now ≡ self.now.rest.now }
    {
        self.rest
    }
}
