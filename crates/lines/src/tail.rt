//! Bytes and numbers, each written right before the text so far.
ghost use Rattle.std.specs.Prelude.{◌≡◌, ◌+◌, ◌<◌, ◌≤◌, [], ◌∷◌, length, ◌-ℤ◌, drop, decimal};

/// The text so far, which ends its buffer.
#[derive(Drop)]
pub(crate) struct Tail<'a> {
    out: &'a mut [u8],
    /// Where the text begins.
    start: usize,
    ghost within: { start ≤ length out.now },
}

impl<'a> Tail<'a> {
    ghost use Rattle.lines.specs.Tails.{Grown};
    ghost use Rattle.lines.specs.Texts.{field, signed_field, most_amount};

    /// No text yet.
    pub(crate) fn new(out: &'a mut [u8]) -> Tail<'a>
        ensures same { result.out.ghost_name ≡ out.entry.ghost_name }
        ensures bytes { result.out.now ≡ out.old }
        ensures start { result.start ≡ length out.old }
    {
        let start = out.len();
        Tail { out, start }
    }

    /// Where the text begins.
    pub(crate) fn start(&self) -> usize
        ensures { result ≡ self.now.start }
    {
        self.start
    }

    /// The text.
    pub(crate) fn text(&self) -> &[u8]
        ensures { result.now ≡ drop self.now.start self.now.out.now }
    {
        &self.out[self.start..]
    }

    /// One byte.
    pub(crate) fn byte(&mut self, byte: u8)
        requires { 0 < self.old.start }
        ensures { Grown (byte ∷ []) self.old self.new }
    {
        self.start -= 1;
        self.out[self.start] = byte;
    }

    /// The digits of a number, by hand: `Display` begins with the first digit, and a text that ends its buffer
    /// is written from its last byte.
    fn decimal(&mut self, n: u64)
        requires { length (decimal n) ≤ self.old.start }
        ensures { Grown (decimal n) self.old self.new }
    {
        self.byte(b'0' + (n % 10) as u8);
        if n >= 10 {
            self.decimal(n / 10);
        }
    }

    /// A number after a blank.
    pub(crate) fn field(&mut self, n: u64)
        requires { length (field n) ≤ self.old.start }
        ensures { Grown (field n) self.old self.new }
    {
        self.decimal(n);
        self.byte(b' ');
    }

    /// How much more the second amount is than the first, after a blank.
    pub(crate) fn difference(&mut self, before: i64, after: i64)
        requires { most_amount ≤ self.old.start }
        ensures grown { Grown (signed_field (after -ℤ before)) self.old self.new }
        ensures short { self.old.start ≤ self.new.start + most_amount }
    {
        self.decimal(after.abs_diff(before));
        if after < before {
            self.byte(b'-');
        }
        self.byte(b' ');
    }
}
