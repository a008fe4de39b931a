// What the check finds wrong, and where.
ghost use Rattle.std.specs.Prelude.{◌≡◌};
ghost use Rattle.checker.specs.Faults.{number};

// The refusals of document 01, in the order of their numbers from 1 on.
#[derive(Clone, Copy, Debug, PartialEq, Eq)]
pub(crate) enum Refusal {
    // too few bytes or too many, or a wrong length field
    Size,
    Version,
    // an item or region passes the end of its region
    Short,
    // a count outside its limits
    Count,
    // an environment above 32 entries
    Wide,
    // a kind, code or operation that there is not, or a number at an `ext`
    Unknown,
    // a signature, symbol, label or position that there is not
    Unnamed,
    // a typing premise fails
    Untyped,
    // a wrong clause count or clause symbol
    Clause,
    // a clause deeper than 48
    Deep,
    // bytes left in a region, or behind the last body
    Left,
}

// A refusal, and the offset at which it comes.
#[derive(Clone, Copy, Debug, PartialEq, Eq)]
pub(crate) struct Fault {
    pub refusal: Refusal,
    pub offset: usize,
}

impl Refusal {
    pub(crate) fn at(self, offset: usize) -> Fault
        ensures { result ≡ record { refusal = self; offset = offset } }
    {
        Fault {
            refusal: self,
            offset,
        }
    }

    // The number that document 01 gives it.
    pub(crate) fn number(self) -> u8
        ensures { result ≡ number self }
    {
        match self {
            Refusal::Size => 1,
            Refusal::Version => 2,
            Refusal::Short => 3,
            Refusal::Count => 4,
            Refusal::Wide => 5,
            Refusal::Unknown => 6,
            Refusal::Unnamed => 7,
            Refusal::Untyped => 8,
            Refusal::Clause => 9,
            Refusal::Deep => 10,
            Refusal::Left => 11,
        }
    }
}
