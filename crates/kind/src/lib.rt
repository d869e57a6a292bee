// Which kind a controller is of (document 02, request 2): the DBC98C51, or the CDP1020 of older backplanes; and the
// numbers that the naming call has for them (document 03, "Naming the kind").
#![tactic(auto)]

ghost use Rattle.std.specs.Prelude.{◌≡◌};
ghost use Rattle.kind.specs.Kind.{is_second, kind_by, kind_number, numbered};

#[derive(Clone, Copy, PartialEq, Eq)]
pub enum Kind {
    First,
    Second,
}

// A number that names neither kind.
#[derive(Clone, Copy, PartialEq, Eq)]
pub struct UnknownKind;

impl Kind {
    pub fn is_second(self) -> bool
        ensures { result ≡ is_second self }
    {
        self == Kind::Second
    }

    // The second kind, or else the first.
    pub fn by(second: bool) -> Kind
        ensures { result ≡ kind_by second }
    {
        if second { Kind::Second } else { Kind::First }
    }

    pub fn number(self) -> u8
        ensures { result ≡ kind_number self }
    {
        match self {
            Kind::First => 1,
            Kind::Second => 2,
        }
    }
}

impl TryFrom<u8> for Kind {
    type Error = UnknownKind;

    ghost try_from_gives = { λ number answer. answer ≡ numbered number };

    #[tactic(auto, unfolding(crate::specs::Kind::numbered))]
    fn try_from(number: u8) -> Result<Kind, UnknownKind> {
        match number {
            1 => Ok(Kind::First),
            2 => Ok(Kind::Second),
            _ => Err(UnknownKind),
        }
    }
}
