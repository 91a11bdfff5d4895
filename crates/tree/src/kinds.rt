// What the numbers of a node's kind and role and of a value's kind stand for. A file may hold any number: `as` gives the number to compare.
ghost use Rattle.tree.specs.code.Kinds.{Decodes};

// A node's kind: statements from 1 on, expressions from 20 on, targets, parameters and clauses from 40 on.
#[derive(Clone, Copy, Debug, PartialEq, Eq)]
pub enum Kind {
    Break = 1,
    Continue = 2,
    Pass = 3,
    Return = 4,
    Expression = 5,
    Assign = 6,
    AssignModify = 7,
    Statements = 8,
    If = 9,
    IfElse = 10,
    For = 11,
    Def = 12,
    Load = 13,
    Identifier = 20,
    Literal = 21,
    Ellipsis = 22,
    Call = 23,
    Lambda = 24,
    ListComprehension = 25,
    DictComprehension = 26,
    Tuple = 27,
    List = 28,
    Dict = 29,
    Conditional = 30,
    Equal = 31,
    NotEqual = 32,
    Other = 33,
    Name = 40,
    Several = 41,
    IndexOrDot = 42,
    NamedParameter = 43,
    UnnamedParameter = 44,
    ForClause = 45,
    IfClause = 46,
    LoadedName = 47,
}

// A node's role below its parent. Item: one of any number. First: a body, or what stands left; Second: an else, or what stands right.
#[derive(Clone, Copy, Debug, PartialEq, Eq)]
pub enum Role {
    Item = 0,
    First = 1,
    Second = 2,
    Type = 3,
    Expression = 4,
    Target = 5,
    Name = 6,
    Function = 7,
    Key = 8,
}

// A value's kind.
#[derive(Clone, Copy, Debug, PartialEq, Eq)]
pub enum ValueKind {
    Name = 0,
    String = 1,
    Bytes = 2,
    Integer = 3,
    Float = 4,
}

// A number that is no value's kind.
#[derive(Clone, Copy, Debug, PartialEq, Eq)]
pub struct UnknownKind(pub usize);

impl TryFrom<usize> for ValueKind {
    type Error = UnknownKind;

    ghost try_from_gives = { Decodes };

    fn try_from(number: usize) -> Result<Self, UnknownKind> {
        match number {
            0 => Ok(ValueKind::Name),
            1 => Ok(ValueKind::String),
            2 => Ok(ValueKind::Bytes),
            3 => Ok(ValueKind::Integer),
            4 => Ok(ValueKind::Float),
            _ => Err(UnknownKind(number)),
        }
    }
}
