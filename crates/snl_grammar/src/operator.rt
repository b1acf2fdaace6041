//! The operators of expressions, and the tables of the tokens that they are spelled by.

ghost use Rattle.std.specs.Prelude.{◌≡◌};
ghost use Rattle.snl_grammar.specs.Operators as spec;

use snl_lex::Kind;

/// An operator between two operands.
#[derive(Clone, Copy, Debug, PartialEq, Eq)]
pub enum Binary {
    Or,
    And,
    BitOr,
    BitXor,
    BitAnd,
    Equal,
    NotEqual,
    Less,
    Greater,
    LessEqual,
    GreaterEqual,
    ShiftLeft,
    ShiftRight,
    Add,
    Subtract,
    Multiply,
    Divide,
    Remainder,
}

/// An operator that assigns, alone or with a binary operator.
#[derive(Clone, Copy, Debug, PartialEq, Eq)]
pub enum Assignment {
    Plain,
    Add,
    Subtract,
    Multiply,
    Divide,
    Remainder,
    BitAnd,
    BitOr,
    BitXor,
    ShiftLeft,
    ShiftRight,
}

/// An operator of one token before an operand.
#[derive(Clone, Copy, Debug, PartialEq, Eq)]
pub enum Sign {
    Plus,
    Minus,
    Not,
    Complement,
    Dereference,
    Address,
    Increment,
    Decrement,
}

/// How tightly an operator binds, from 1 to 10: a lower tier binds tighter.
pub fn tier(op: Binary) -> usize
    ensures { result ≡ spec.tier op }
{
    match op {
        Binary::Or => 10,
        Binary::And => 9,
        Binary::BitOr => 8,
        Binary::BitXor => 7,
        Binary::BitAnd => 6,
        Binary::Equal => 5,
        Binary::NotEqual => 5,
        Binary::Less => 4,
        Binary::Greater => 4,
        Binary::LessEqual => 4,
        Binary::GreaterEqual => 4,
        Binary::ShiftLeft => 3,
        Binary::ShiftRight => 3,
        Binary::Add => 2,
        Binary::Subtract => 2,
        Binary::Multiply => 1,
        Binary::Divide => 1,
        Binary::Remainder => 1,
    }
}

/// The token of an operator.
pub fn binary_kind(op: Binary) -> Kind
    ensures { result ≡ spec.binary_kind op }
{
    match op {
        Binary::Or => Kind::BarBar,
        Binary::And => Kind::AmpersandAmpersand,
        Binary::BitOr => Kind::Bar,
        Binary::BitXor => Kind::Caret,
        Binary::BitAnd => Kind::Ampersand,
        Binary::Equal => Kind::EqualEqual,
        Binary::NotEqual => Kind::NotEqual,
        Binary::Less => Kind::Less,
        Binary::Greater => Kind::Greater,
        Binary::LessEqual => Kind::LessEqual,
        Binary::GreaterEqual => Kind::GreaterEqual,
        Binary::ShiftLeft => Kind::LessLess,
        Binary::ShiftRight => Kind::GreaterGreater,
        Binary::Add => Kind::Plus,
        Binary::Subtract => Kind::Minus,
        Binary::Multiply => Kind::Star,
        Binary::Divide => Kind::Slash,
        Binary::Remainder => Kind::Percent,
    }
}

/// The operator that a token is between two operands.
pub fn binary_of(kind: Kind) -> Option<Binary>
    ensures { result ≡ spec.binary_of kind }
{
    match kind {
        Kind::BarBar => Some(Binary::Or),
        Kind::AmpersandAmpersand => Some(Binary::And),
        Kind::Bar => Some(Binary::BitOr),
        Kind::Caret => Some(Binary::BitXor),
        Kind::Ampersand => Some(Binary::BitAnd),
        Kind::EqualEqual => Some(Binary::Equal),
        Kind::NotEqual => Some(Binary::NotEqual),
        Kind::Less => Some(Binary::Less),
        Kind::Greater => Some(Binary::Greater),
        Kind::LessEqual => Some(Binary::LessEqual),
        Kind::GreaterEqual => Some(Binary::GreaterEqual),
        Kind::LessLess => Some(Binary::ShiftLeft),
        Kind::GreaterGreater => Some(Binary::ShiftRight),
        Kind::Plus => Some(Binary::Add),
        Kind::Minus => Some(Binary::Subtract),
        Kind::Star => Some(Binary::Multiply),
        Kind::Slash => Some(Binary::Divide),
        Kind::Percent => Some(Binary::Remainder),
        _ => None,
    }
}

/// The token of an operator that assigns.
pub fn assignment_kind(op: Assignment) -> Kind
    ensures { result ≡ spec.assignment_kind op }
{
    match op {
        Assignment::Plain => Kind::Equal,
        Assignment::Add => Kind::PlusEqual,
        Assignment::Subtract => Kind::MinusEqual,
        Assignment::Multiply => Kind::StarEqual,
        Assignment::Divide => Kind::SlashEqual,
        Assignment::Remainder => Kind::PercentEqual,
        Assignment::BitAnd => Kind::AmpersandEqual,
        Assignment::BitOr => Kind::BarEqual,
        Assignment::BitXor => Kind::CaretEqual,
        Assignment::ShiftLeft => Kind::LessLessEqual,
        Assignment::ShiftRight => Kind::GreaterGreaterEqual,
    }
}

/// The operator that a token is after what is assigned to.
pub fn assignment_of(kind: Kind) -> Option<Assignment>
    ensures { result ≡ spec.assignment_of kind }
{
    match kind {
        Kind::Equal => Some(Assignment::Plain),
        Kind::PlusEqual => Some(Assignment::Add),
        Kind::MinusEqual => Some(Assignment::Subtract),
        Kind::StarEqual => Some(Assignment::Multiply),
        Kind::SlashEqual => Some(Assignment::Divide),
        Kind::PercentEqual => Some(Assignment::Remainder),
        Kind::AmpersandEqual => Some(Assignment::BitAnd),
        Kind::BarEqual => Some(Assignment::BitOr),
        Kind::CaretEqual => Some(Assignment::BitXor),
        Kind::LessLessEqual => Some(Assignment::ShiftLeft),
        Kind::GreaterGreaterEqual => Some(Assignment::ShiftRight),
        _ => None,
    }
}

/// The token of a sign.
pub fn sign_kind(op: Sign) -> Kind
    ensures { result ≡ spec.sign_kind op }
{
    match op {
        Sign::Plus => Kind::Plus,
        Sign::Minus => Kind::Minus,
        Sign::Not => Kind::Exclamation,
        Sign::Complement => Kind::Tilde,
        Sign::Dereference => Kind::Star,
        Sign::Address => Kind::Ampersand,
        Sign::Increment => Kind::PlusPlus,
        Sign::Decrement => Kind::MinusMinus,
    }
}
