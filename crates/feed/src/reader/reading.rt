//! Reading record by record.
ghost use Rattle.std.specs.Prelude.{◌≡◌, ◌+◌, ◌-◌, length, drop};
ghost use Rattle.feed.specs.Front.{front, body_front, size};
ghost use Rattle.feed.specs.Reading.{answer, answered, long_answer, long_answered, Within, Onward};

use crate::kind::Kind;
use crate::reader::Reader;
use crate::record::Record;
use crate::record::body::read_body;
use faults::Fault;

/// The record of which the header is read and `rest` is left, and its length.
// Kind and sizes as a struct would be taken apart at once: `body_says` takes them so.
fn read_sized<'a>(
    kind: Kind,
    n: usize,
    m: usize,
    rest: &'a [u8],
    offset: u64,
) -> Result<Option<(Record<'a>, usize)>, Fault>
    ensures told { long_answered result ≡ long_answer offset (body_front kind n m rest.now) }
    ensures within { Within result (5 + length rest.now) }
{
    let Some(length) = kind.body_length(n, m) else {
        return Err(Fault::SizeNotAllowed { offset });
    };
    if rest.len() < length {
        return Err(Fault::Truncated { offset });
    }
    Ok(Some((read_body(kind, n, m, &rest[0..length]), 5 + length)))
}

/// The record at the front of the bytes, and its length.
fn read_front<'a>(bytes: &'a [u8], offset: u64) -> Result<Option<(Record<'a>, usize)>, Fault>
    ensures told { long_answered result ≡ long_answer offset (front bytes.now) }
    ensures within { Within result (length bytes.now) }
{
    if bytes.is_empty() {
        return Ok(None);
    }
    let [kind, n0, n1, m0, m1, rest @ ..] = bytes else {
        return Err(Fault::Truncated { offset });
    };
    let Some(kind) = Kind::from_code(*kind) else {
        return Err(Fault::UnknownKind { offset });
    };
    let n = u16::from_le_bytes([*n0, *n1]) as usize;
    let m = u16::from_le_bytes([*m0, *m1]) as usize;
    read_sized(kind, n, m, rest, offset)
}

impl<'a> Reader<'a> {
    /// The next record, or none at the end. A record that is handed out is passed over; a refusal
    /// tells the record's offset, and the reader stays there.
    pub fn next(&mut self) -> Result<Option<Record<'a>>, Fault>
        ensures told { answered result ≡ answer self.old.offset (front self.old.rest.now) }
        ensures moved { self.new.offset ≡ self.old.offset + size (front self.old.rest.now) }
        ensures left { self.new.rest.now ≡ drop (size (front self.old.rest.now)) self.old.rest.now }
        ensures onward { Onward result self.old.offset self.new.offset }
    {
        let bytes = self.rest;
        match read_front(bytes, self.offset)? {
            None => Ok(None),
            Some((record, length)) => {
                self.offset += length as u64;
                self.rest = &bytes[length..];
                Ok(Some(record))
            }
        }
    }
}
