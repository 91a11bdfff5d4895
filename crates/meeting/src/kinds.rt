// The kinds that the names walk tells apart, as numbers: a match takes no cast.
use tree::kinds::Kind;

pub(crate) const BREAK: usize = Kind::Break as usize;

pub(crate) const CONTINUE: usize = Kind::Continue as usize;

pub(crate) const RETURN: usize = Kind::Return as usize;

pub(crate) const EXPRESSION: usize = Kind::Expression as usize;

pub(crate) const ASSIGN: usize = Kind::Assign as usize;

pub(crate) const ASSIGN_MODIFY: usize = Kind::AssignModify as usize;

pub(crate) const STATEMENTS: usize = Kind::Statements as usize;

pub(crate) const IF: usize = Kind::If as usize;

pub(crate) const IF_ELSE: usize = Kind::IfElse as usize;

pub(crate) const FOR: usize = Kind::For as usize;

pub(crate) const DEF: usize = Kind::Def as usize;

pub(crate) const LOAD: usize = Kind::Load as usize;

pub(crate) const IDENTIFIER: usize = Kind::Identifier as usize;

pub(crate) const LAMBDA: usize = Kind::Lambda as usize;

pub(crate) const LIST_COMPREHENSION: usize = Kind::ListComprehension as usize;

pub(crate) const DICT_COMPREHENSION: usize = Kind::DictComprehension as usize;

pub(crate) const NAME: usize = Kind::Name as usize;

pub(crate) const SEVERAL: usize = Kind::Several as usize;

pub(crate) const NAMED_PARAMETER: usize = Kind::NamedParameter as usize;

pub(crate) const LOADED_NAME: usize = Kind::LoadedName as usize;
