//! The kinds of record.
ghost use Rattle.std.specs.Prelude.{◌≡◌};
ghost use Rattle.feed.specs.Kinds.{code_of, kind_of_lem, IsKindOf, allowed, allowed_length};

use accounts::UnknownKind;

/// What a record asks for.
#[derive(Clone, Copy, Debug, PartialEq, Eq)]
pub enum Kind {
    Supplier,
    Customer,
    Open,
    Clear,
    Interval,
    Close,
    Void,
}

/// Kinds by the byte that a record of them begins with.
impl TryFrom<u8> for Kind {
    type Error = UnknownKind<u8>;

    ghost try_from_gives = { IsKindOf };

    fn try_from(code: u8) -> Result<Kind, UnknownKind<u8>> {
        match code {
            1 => Ok(Kind::Supplier),
            2 => Ok(Kind::Customer),
            3 => Ok(Kind::Open),
            4 => Ok(Kind::Clear),
            5 => Ok(Kind::Interval),
            6 => Ok(Kind::Close),
            7 => Ok(Kind::Void),
            _ => Err(UnknownKind(code)),
        }
    }
}

impl From<Kind> for u8 {
    ghost from_gives = { λ kind code. code ≡ code_of kind };

    fn from(kind: Kind) -> u8 {
        match kind {
            Kind::Supplier => 1,
            Kind::Customer => 2,
            Kind::Open => 3,
            Kind::Clear => 4,
            Kind::Interval => 5,
            Kind::Close => 6,
            Kind::Void => 7,
        }
    }
}

impl Kind {
    /// The kind that a record's first byte stands for.
    // A name for the conversion, as of the byte below, whose contract says which kind.
    pub fn from_code(code: u8) -> Option<Kind>
        ensures { result ≡ kind_of_lem code }
    {
        Kind::try_from(code).ok()
    }

    /// The byte that a record of this kind begins with.
    pub fn code(self) -> u8
        ensures { result ≡ code_of self }
    {
        u8::from(self)
    }

    /// Whether a record of this kind may have the sizes `n` and `m`.
    fn allows(self, n: usize, m: usize) -> bool
        ensures { result ≡ allowed self n m }
    {
        match self {
            Kind::Supplier | Kind::Customer | Kind::Open | Kind::Void => n == 0 && m == 0,
            Kind::Clear | Kind::Interval => 1 <= n && n <= 32 && m <= 128,
            Kind::Close => n == 0 && m <= 256,
        }
    }

    /// How many bytes follow the header of a record of the sizes `n` and `m`, or none if a record
    /// of this kind may not have them.
    pub fn body_length(self, n: usize, m: usize) -> Option<usize>
        ensures { result ≡ allowed_length self n m }
    {
        if !self.allows(n, m) {
            return None;
        }
        Some(match self {
            Kind::Supplier => 16,
            Kind::Customer | Kind::Open => 4,
            Kind::Clear => 8 * n + 24 * m,
            Kind::Interval => 4 + 8 * n + 24 * m,
            Kind::Close => 16 * m,
            Kind::Void => 0,
        })
    }
}
