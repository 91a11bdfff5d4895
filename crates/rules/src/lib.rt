// What every pass answers, and how often x = x is free in a file. The rules themselves stand in specs/, as definitions.
#![tactic(auto)]

ghost use Rattle.std.specs.Prelude.{◌≡◌};
ghost use Rattle.rules.specs.code.Decoded.{Decodes};
ghost use Rattle.rules.specs.Incompatible.{allowance, free};
ghost use Rattle.rules.specs.Outcome.{number_of, place_of};
ghost use Rattle.rules.specs.declared.Refusal.TheVariants.{Tree};

// The words of a record; the counts of a tally, and the last code; the words of work room that names needs.
pub const WIDTH: usize = 10;

pub const CODES: usize = 17;

pub const LAST_CODE: u32 = CODES as u32;

pub const WORK_WORDS: usize = 32768;

// The codes of warnings: names 1 to 6, flow 7 to 13, incompatible 14 and 15, dubious 16 and 17.
#[derive(Clone, Copy, Debug, PartialEq, Eq)]
pub enum Code {
    UnusedLoad = 1,
    UnusedAssign = 2,
    UnusedArgument = 3,
    UsingUnassigned = 4,
    UsingUndefined = 5,
    UsingMaybeUndefined = 6,
    MissingReturnExpression = 7,
    MissingReturn = 8,
    Unreachable = 9,
    RedundantReturn = 10,
    RedundantContinue = 11,
    MisplacedLoad = 12,
    NoEffect = 13,
    IncompatibleTypeCheck = 14,
    DuplicateTopLevelAssign = 15,
    DuplicateKey = 16,
    IdentAsStatement = 17,
}

// A number that is no code.
#[derive(Clone, Copy, Debug, PartialEq, Eq)]
pub struct UnknownCode(pub u32);

impl TryFrom<u32> for Code {
    type Error = UnknownCode;

    ghost try_from_gives = { Decodes };

    fn try_from(number: u32) -> Result<Self, UnknownCode> {
        match number {
            1 => Ok(Code::UnusedLoad),
            2 => Ok(Code::UnusedAssign),
            3 => Ok(Code::UnusedArgument),
            4 => Ok(Code::UsingUnassigned),
            5 => Ok(Code::UsingUndefined),
            6 => Ok(Code::UsingMaybeUndefined),
            7 => Ok(Code::MissingReturnExpression),
            8 => Ok(Code::MissingReturn),
            9 => Ok(Code::Unreachable),
            10 => Ok(Code::RedundantReturn),
            11 => Ok(Code::RedundantContinue),
            12 => Ok(Code::MisplacedLoad),
            13 => Ok(Code::NoEffect),
            14 => Ok(Code::IncompatibleTypeCheck),
            15 => Ok(Code::DuplicateTopLevelAssign),
            16 => Ok(Code::DuplicateKey),
            17 => Ok(Code::IdentAsStatement),
            _ => Err(UnknownCode(number)),
        }
    }
}

// How often x = x of a loaded name is free.
#[derive(Clone, Copy, Debug, PartialEq, Eq)]
pub enum Allowance {
    Once,
    Always,
}

impl Allowance {
    // That of a tree file's version.
    pub fn of(version: usize) -> Allowance
        ensures { result ≡ allowance version }
    {
        match version {
            2 => Allowance::Always,
            _ => Allowance::Once,
        }
    }

    // Whether x = x is free; before: it was free already.
    pub fn free(self, before: bool) -> bool
        ensures { result ≡ free self before }
    {
        self == Allowance::Always || !before
    }
}

// Why a call is refused: the tree, the work room, the answer room with the records that it needs, or another lent room with what it needs.
// Specs' number_of and place_of give 01's numbers.
#[derive(Clone, Copy, Debug, PartialEq, Eq)]
pub enum Refusal {
    Tree(tree::Refusal),
    WorkRoom,
    AnswerRoom(usize),
    OtherRoom(usize),
}

impl Refusal {
    // 01's number.
    pub fn number(self) -> usize
        ensures { result ≡ number_of self }
    {
        match self {
            Refusal::Tree(why) => why.number(),
            Refusal::WorkRoom => 10,
            Refusal::AnswerRoom(_) => 11,
            Refusal::OtherRoom(_) => 12,
        }
    }

    // 01's place; for 11 the records needed, for 12 what the other room needs.
    pub fn place(self) -> usize
        ensures { result ≡ place_of self }
    {
        match self {
            Refusal::Tree(why) => why.place(),
            Refusal::WorkRoom => 0,
            Refusal::AnswerRoom(n) | Refusal::OtherRoom(n) => n,
        }
    }
}

impl From<tree::Refusal> for Refusal {
    ghost from_gives = { λ why r. r ≡ Tree why };

    fn from(why: tree::Refusal) -> Self {
        Refusal::Tree(why)
    }
}

// How many records are listed, or why none is; and of a refusal too a tally, all zero.
#[derive(Clone, Copy, Debug, PartialEq, Eq)]
pub struct Answer {
    pub outcome: Result<usize, Refusal>,
    pub tally: [usize; CODES],
}
