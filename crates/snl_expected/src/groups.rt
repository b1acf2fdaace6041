//! Sets of kinds that the language's description has one word for.

ghost use Rattle.std.specs.Prelude.{◌≡◌};
ghost use Rattle.snl_expected.specs.Groups as spec;

use snl_syntax::Kind;

/// Kinds that a description of the language has one word for.
#[derive(Clone, Copy, Debug, PartialEq, Eq)]
pub enum Group {
    /// What a block may have.
    Statement,
    Item,
    /// What may follow an operand, an assignment too.
    Operator,
    /// What a state may have.
    Member,
    /// What may follow an operand where nothing can be assigned.
    OperatorAlone,
    Type,
    /// What an expression may begin with.
    Operand,
    Clause,
}

/// All groups, from the widest to the narrowest.
pub const GROUPS: &[Group] = &[
    Group::Statement,
    Group::Item,
    Group::Operator,
    Group::Member,
    Group::OperatorAlone,
    Group::Type,
    Group::Operand,
    Group::Clause,
];

// A type begins with it.
fn is_type(kind: Kind) -> bool
    ensures { result ≡ spec.is_type kind }
{
    matches!(
        kind,
        Kind::Const
            | Kind::Void
            | Kind::Char
            | Kind::Short
            | Kind::Int
            | Kind::Long
            | Kind::Unsigned
            | Kind::Int8
            | Kind::Uint8
            | Kind::Int16
            | Kind::Uint16
            | Kind::Int32
            | Kind::Uint32
            | Kind::Float
            | Kind::Double
            | Kind::String
            | Kind::Evflag
            | Kind::Enum
            | Kind::Struct
            | Kind::Union
            | Kind::Typename
    )
}

// A clause begins with it.
fn is_clause(kind: Kind) -> bool
    ensures { result ≡ spec.is_clause kind }
{
    matches!(
        kind,
        Kind::Assign | Kind::Monitor | Kind::Sync | Kind::Syncq | Kind::SyncqCapital
    )
}

// An expression begins with it.
fn is_operand(kind: Kind) -> bool
    ensures { result ≡ spec.is_operand kind }
{
    matches!(
        kind,
        Kind::Name
            | Kind::Integer
            | Kind::Floating
            | Kind::Text
            | Kind::Character
            | Kind::OpenParen
            | Kind::PlusPlus
            | Kind::MinusMinus
            | Kind::Exclamation
            | Kind::Tilde
            | Kind::Plus
            | Kind::Minus
            | Kind::Star
            | Kind::Ampersand
            | Kind::Sizeof
    )
}

// It assigns.
fn is_assignment(kind: Kind) -> bool
    ensures { result ≡ spec.is_assignment kind }
{
    matches!(
        kind,
        Kind::Equal
            | Kind::PlusEqual
            | Kind::MinusEqual
            | Kind::StarEqual
            | Kind::SlashEqual
            | Kind::PercentEqual
            | Kind::AmpersandEqual
            | Kind::BarEqual
            | Kind::CaretEqual
            | Kind::LessLessEqual
            | Kind::GreaterGreaterEqual
    )
}

// It follows an operand, and assigns nothing.
fn is_operator(kind: Kind) -> bool
    ensures { result ≡ spec.is_operator kind }
{
    matches!(
        kind,
        Kind::OpenBracket
            | Kind::OpenParen
            | Kind::Dot
            | Kind::Arrow
            | Kind::PlusPlus
            | Kind::MinusMinus
            | Kind::Plus
            | Kind::Minus
            | Kind::Star
            | Kind::Slash
            | Kind::Percent
            | Kind::Ampersand
            | Kind::Bar
            | Kind::Caret
            | Kind::AmpersandAmpersand
            | Kind::BarBar
            | Kind::LessLess
            | Kind::GreaterGreater
            | Kind::Less
            | Kind::Greater
            | Kind::LessEqual
            | Kind::GreaterEqual
            | Kind::EqualEqual
            | Kind::NotEqual
            | Kind::Question
    )
}

// An item begins with it that begins with no type and is no clause.
fn begins_item_alone(kind: Kind) -> bool
    ensures { result ≡ spec.begins_item_alone kind }
{
    matches!(
        kind,
        Kind::Program
            | Kind::Ss
            | Kind::CloseBrace
            | Kind::Semicolon
            | Kind::CCode
            | Kind::Foreign
            | Kind::Option
            | Kind::Entry
            | Kind::Exit
            | Kind::State
    )
}

// A member of a state begins with it that begins with no type and is no clause.
fn begins_member_alone(kind: Kind) -> bool
    ensures { result ≡ spec.begins_member_alone kind }
{
    matches!(
        kind,
        Kind::Foreign
            | Kind::Option
            | Kind::Entry
            | Kind::Exit
            | Kind::When
            | Kind::CCode
            | Kind::Semicolon
    )
}

// A statement begins with it that is neither a declaration nor an expression.
fn begins_statement_alone(kind: Kind) -> bool
    ensures { result ≡ spec.begins_statement_alone kind }
{
    matches!(
        kind,
        Kind::OpenBrace
            | Kind::Semicolon
            | Kind::If
            | Kind::While
            | Kind::For
            | Kind::Break
            | Kind::Continue
            | Kind::Return
            | Kind::State
            | Kind::CCode
    )
}

impl Group {
    /// Whether a token of this kind is one that it stands for.
    pub fn has(self, kind: Kind) -> bool
        ensures { result ≡ spec.has self kind }
    {
        match self {
            Group::Statement => begins_statement_alone(kind) || is_type(kind) || is_operand(kind),
            Group::Item => begins_item_alone(kind) || is_type(kind) || is_clause(kind),
            Group::Operator => is_operator(kind) || is_assignment(kind),
            Group::Member => begins_member_alone(kind) || is_type(kind) || is_clause(kind),
            Group::OperatorAlone => is_operator(kind),
            Group::Type => is_type(kind),
            Group::Operand => is_operand(kind),
            Group::Clause => is_clause(kind),
        }
    }

    /// Its name in a message.
    pub fn phrase(self) -> &'static str
        ensures { result.now ≡ spec.group_phrase self }
    {
        match self {
            Group::Statement => "a statement",
            Group::Item => "an item",
            Group::Operator => "an operator",
            Group::Member => "a member of a state",
            Group::OperatorAlone => "an operator",
            Group::Type => "a type",
            Group::Operand => "an operand",
            Group::Clause => "a clause",
        }
    }
}
