// The codes of document 01: what a statement's first byte, and an operation's, stand for.
ghost use Rattle.std.specs.Prelude.{◌≡◌};
ghost use Rattle.checker.specs.Codes.{FormOf, OperationOf, argument_count, clause_count, gaining};

// A byte that is no code.
#[derive(Clone, Copy, Debug, PartialEq, Eq)]
pub struct UnknownCode(pub u8);

// The forms of statements, in the order of their codes from 0 on.
#[derive(Clone, Copy, Debug, PartialEq, Eq)]
pub enum Form {
    Jump,
    Substitute,
    Extern,
    Let,
    New,
    Switch,
    Invoke,
}

// The one place where forms are numbers.
impl TryFrom<u8> for Form {
    type Error = UnknownCode;

    ghost try_from_gives = { FormOf };

    fn try_from(code: u8) -> Result<Self, UnknownCode> {
        match code {
            0 => Ok(Form::Jump),
            1 => Ok(Form::Substitute),
            2 => Ok(Form::Extern),
            3 => Ok(Form::Let),
            4 => Ok(Form::New),
            5 => Ok(Form::Switch),
            6 => Ok(Form::Invoke),
            _ => Err(UnknownCode(code)),
        }
    }
}

// The operations of extern, in the order of their codes from 0 on.
#[derive(Clone, Copy, Debug, PartialEq, Eq)]
pub enum Operation {
    Lit,
    Add,
    Sub,
    Mul,
    Ifz,
    Less,
    Exit,
}

// The one place where operations are numbers.
impl TryFrom<u8> for Operation {
    type Error = UnknownCode;

    ghost try_from_gives = { OperationOf };

    fn try_from(code: u8) -> Result<Self, UnknownCode> {
        match code {
            0 => Ok(Operation::Lit),
            1 => Ok(Operation::Add),
            2 => Ok(Operation::Sub),
            3 => Ok(Operation::Mul),
            4 => Ok(Operation::Ifz),
            5 => Ok(Operation::Less),
            6 => Ok(Operation::Exit),
            _ => Err(UnknownCode(code)),
        }
    }
}

impl Operation {
    // How many integers it takes.
    pub(crate) fn arguments(self) -> usize
        ensures { result ≡ argument_count self }
    {
        match self {
            Operation::Lit => 0,
            Operation::Ifz | Operation::Exit => 1,
            Operation::Add | Operation::Sub | Operation::Mul | Operation::Less => 2,
        }
    }

    // How many clauses it has.
    pub(crate) fn clauses(self) -> usize
        ensures { result ≡ clause_count self }
    {
        match self {
            Operation::Exit => 0,
            Operation::Lit | Operation::Add | Operation::Sub | Operation::Mul => 1,
            Operation::Ifz | Operation::Less => 2,
        }
    }

    // Whether each of its clauses gains an integer.
    pub(crate) fn gains(self) -> bool
        ensures { result ≡ gaining self }
    {
        match self {
            Operation::Lit | Operation::Add | Operation::Sub | Operation::Mul => true,
            Operation::Ifz | Operation::Less | Operation::Exit => false,
        }
    }
}
