// The kinds of rows (01, The rule file; 02, [1] and [6]), as the first byte of a row has them.
ghost use Rattle.std.specs.Prelude.{◌≡◌};
ghost use Rattle.decoding.specs.Kinds.{kind_named};

// A kind of row; as a number it is the byte.
#[derive(Clone, Copy, PartialEq, Eq, Debug)]
pub enum Kind {
    // A name, and not that name.
    Atomic = 1,
    Negated = 2,
    // Both rows, and either.
    Conj = 3,
    Disj = 4,
    // All along a role, and some.
    Univ = 5,
    Exist = 6,
    // A role is narrower than another.
    Inclusion = 7,
    // In drafts only: not the left row; if left then right.
    Neg = 8,
    Impl = 9,
}

// The same as bytes.
pub const ATOMIC: u8 = Kind::Atomic as u8;

pub const NEGATED: u8 = Kind::Negated as u8;

pub const CONJ: u8 = Kind::Conj as u8;

pub const DISJ: u8 = Kind::Disj as u8;

pub const UNIV: u8 = Kind::Univ as u8;

pub const EXIST: u8 = Kind::Exist as u8;

pub const INCLUSION: u8 = Kind::Inclusion as u8;

pub const NEG: u8 = Kind::Neg as u8;

pub const IMPL: u8 = Kind::Impl as u8;

impl Kind {
    // The kind that a byte says, none if it says none.
    pub fn of(byte: u8) -> Option<Kind>
        ensures { result ≡ kind_named byte }
    {
        match byte {
            ATOMIC => Some(Kind::Atomic),
            NEGATED => Some(Kind::Negated),
            CONJ => Some(Kind::Conj),
            DISJ => Some(Kind::Disj),
            UNIV => Some(Kind::Univ),
            EXIST => Some(Kind::Exist),
            INCLUSION => Some(Kind::Inclusion),
            NEG => Some(Kind::Neg),
            IMPL => Some(Kind::Impl),
            _ => None,
        }
    }
}
