//! Steps over the tokens of an item.

ghost use Rattle.std.specs.Prelude.{◌≡◌, ◌<◌, List, get_or, length, suc, IfOk, Ok};
ghost use Rattle.snl_lex.specs.declared.kind.Kind.{Kind};
ghost use Rattle.snl_grammar.specs.Tokens as spec;
ghost use Rattle.snl_grammar.specs.Tokens.{ahead};
ghost use Rattle.snl_grammar.specs.Steps as read;
ghost use Rattle.snl_grammar.specs.Steps.{Outcome, and_then, pure};
ghost use Rattle.snl_expression.specs.Reads.{Reads, ReadsPast, ReadsToken};

use crate::stop::Stop;
use snl_lex::Kind;

fn code(kind: Kind) -> u8
    ensures { result ≡ spec.code kind }
{
    match kind {
        Kind::Name => 0,
        Kind::Integer => 1,
        Kind::Floating => 2,
        Kind::Text => 3,
        Kind::Character => 4,
        Kind::CCode => 5,
        Kind::Bad => 6,
        Kind::Program => 7,
        Kind::Ss => 8,
        Kind::State => 9,
        Kind::Entry => 10,
        Kind::Exit => 11,
        Kind::When => 12,
        Kind::Option => 13,
        Kind::Assign => 14,
        Kind::To => 15,
        Kind::Monitor => 16,
        Kind::Sync => 17,
        Kind::Syncq => 18,
        Kind::SyncqCapital => 19,
        Kind::Foreign => 20,
        Kind::If => 21,
        Kind::Else => 22,
        Kind::While => 23,
        Kind::For => 24,
        Kind::Break => 25,
        Kind::Continue => 26,
        Kind::Return => 27,
        Kind::Sizeof => 28,
        Kind::Const => 29,
        Kind::Void => 30,
        Kind::Char => 31,
        Kind::Short => 32,
        Kind::Int => 33,
        Kind::Long => 34,
        Kind::Unsigned => 35,
        Kind::Int8 => 36,
        Kind::Uint8 => 37,
        Kind::Int16 => 38,
        Kind::Uint16 => 39,
        Kind::Int32 => 40,
        Kind::Uint32 => 41,
        Kind::Float => 42,
        Kind::Double => 43,
        Kind::String => 44,
        Kind::Evflag => 45,
        Kind::Enum => 46,
        Kind::Struct => 47,
        Kind::Union => 48,
        Kind::Typename => 49,
        Kind::OpenBrace => 50,
        Kind::CloseBrace => 51,
        Kind::OpenParen => 52,
        Kind::CloseParen => 53,
        Kind::OpenBracket => 54,
        Kind::CloseBracket => 55,
        Kind::Semicolon => 56,
        Kind::Comma => 57,
        Kind::Dot => 58,
        Kind::Arrow => 59,
        Kind::PlusPlus => 60,
        Kind::MinusMinus => 61,
        Kind::Exclamation => 62,
        Kind::Tilde => 63,
        Kind::Plus => 64,
        Kind::Minus => 65,
        Kind::Star => 66,
        Kind::Slash => 67,
        Kind::Percent => 68,
        Kind::Ampersand => 69,
        Kind::Bar => 70,
        Kind::Caret => 71,
        Kind::AmpersandAmpersand => 72,
        Kind::BarBar => 73,
        Kind::LessLess => 74,
        Kind::GreaterGreater => 75,
        Kind::Less => 76,
        Kind::Greater => 77,
        Kind::LessEqual => 78,
        Kind::GreaterEqual => 79,
        Kind::EqualEqual => 80,
        Kind::NotEqual => 81,
        Kind::Equal => 82,
        Kind::PlusEqual => 83,
        Kind::MinusEqual => 84,
        Kind::StarEqual => 85,
        Kind::SlashEqual => 86,
        Kind::PercentEqual => 87,
        Kind::AmpersandEqual => 88,
        Kind::BarEqual => 89,
        Kind::CaretEqual => 90,
        Kind::LessLessEqual => 91,
        Kind::GreaterGreaterEqual => 92,
        Kind::Question => 93,
        Kind::Colon => 94,
    }
}

/// The kind of the token with this number, if there is one.
pub fn kind_at(kinds: &[Kind], at: usize) -> Option<Kind>
    ensures { result ≡ read.kind_at (ahead kinds.now at) }
{
    if at < kinds.len() {
        Some(kinds[at])
    } else {
        None
    }
}

// Whether the token with this number is of this kind, as it is then the one to be taken.
fn sees(kinds: &[Kind], at: usize, kind: Kind) -> bool
    requires { at < length kinds.now }
    ensures { result ≡ spec.same (get_or kinds.now at kind) kind }
{
    code(kinds[at]) == code(kind)
}

/// The number after that of a token of this kind, which has to be there.
pub fn expect(kinds: &[Kind], at: usize, kind: Kind) -> Result<usize, Stop>
    ensures { ReadsToken kinds.now at result (read.expect kind (ahead kinds.now at)) }
{
    if at < kinds.len() && sees(kinds, at, kind) {
        Ok(at + 1)
    } else {
        Err(Stop::Here(at))
    }
}

/// The same beside a value that is held until then. Its type is any, so that the proof of what is
/// freed on the way out looks into no tree.
pub fn past<T: Drop>(kinds: &[Kind], at: usize, kind: Kind, held: T) -> Result<(T, usize), Stop>
    ensures token { ReadsPast kinds.now at result (read.expect kind (ahead kinds.now at)) }
    ensures held { IfOk result (λ r. r.0 ≡ held) }
{
    let at = expect(kinds, at, kind)?;
    Ok((held, at))
}

/// What was read, beside a value that was held meanwhile. Its type is any, too.
pub fn beside<T: Drop, A: Drop>(
    held: T,
    read: Result<(A, usize), Stop>,
) -> Result<((T, A), usize), Stop>
    ensures { (kinds : List Kind) (outcome : Outcome _) → Reads kinds read outcome →
        Reads kinds result (and_then outcome (λ a. pure (held, a))) }
{
    match read {
        Ok((found, at)) => Ok(((held, found), at)),
        Err(stop) => Err(stop),
    }
}

/// Whether a token of this kind comes next, and the number of the token to go on with.
pub fn accept(kinds: &[Kind], at: usize, kind: Kind) -> (bool, usize)
    ensures { read.accept kind (ahead kinds.now at) ≡ Ok (result.0, ahead kinds.now result.1) }
{
    if at < kinds.len() && sees(kinds, at, kind) {
        (true, at + 1)
    } else {
        (false, at)
    }
}

/// How many elements a list can have at most that begins at a token, and one more.
pub fn turns(kinds: &[Kind], at: usize) -> usize
    ensures { result ≡ suc (length (ahead kinds.now at)) }
{
    kinds.len().saturating_sub(at) + 1
}
