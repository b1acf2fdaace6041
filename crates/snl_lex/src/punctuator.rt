//! The punctuators of the language, as braces and operators: the bytes of one come in, what it is
//! to the grammar goes out.

ghost use Rattle.snl_lex.specs.Kinds.{look_up, punctuators, punctuators_of_1, punctuators_of_2, punctuators_of_3};
ghost use Rattle.std.specs.Prelude.{◌≡◌, [], ◌∷◌};

use crate::kind::Kind;

fn punctuator_of_one(byte: u8) -> Kind
    ensures { result ≡ look_up punctuators_of_1 (byte ∷ []) }
{
    match byte {
        b'{' => Kind::OpenBrace,
        b'}' => Kind::CloseBrace,
        b'(' => Kind::OpenParen,
        b')' => Kind::CloseParen,
        b'[' => Kind::OpenBracket,
        b']' => Kind::CloseBracket,
        b';' => Kind::Semicolon,
        b',' => Kind::Comma,
        b'.' => Kind::Dot,
        b'!' => Kind::Exclamation,
        b'~' => Kind::Tilde,
        b'+' => Kind::Plus,
        b'-' => Kind::Minus,
        b'*' => Kind::Star,
        b'/' => Kind::Slash,
        b'%' => Kind::Percent,
        b'&' => Kind::Ampersand,
        b'|' => Kind::Bar,
        b'^' => Kind::Caret,
        b'<' => Kind::Less,
        b'>' => Kind::Greater,
        b'=' => Kind::Equal,
        b'?' => Kind::Question,
        b':' => Kind::Colon,
        _ => Kind::Bad,
    }
}

fn punctuator_of_two(bytes: &[u8]) -> Kind
    ensures { result ≡ look_up punctuators_of_2 bytes.now }
{
    match bytes {
        b"->" => Kind::Arrow,
        b"++" => Kind::PlusPlus,
        b"--" => Kind::MinusMinus,
        b"&&" => Kind::AmpersandAmpersand,
        b"||" => Kind::BarBar,
        b"<<" => Kind::LessLess,
        b">>" => Kind::GreaterGreater,
        b"<=" => Kind::LessEqual,
        b">=" => Kind::GreaterEqual,
        b"==" => Kind::EqualEqual,
        b"!=" => Kind::NotEqual,
        b"+=" => Kind::PlusEqual,
        b"-=" => Kind::MinusEqual,
        b"*=" => Kind::StarEqual,
        b"/=" => Kind::SlashEqual,
        b"%=" => Kind::PercentEqual,
        b"&=" => Kind::AmpersandEqual,
        b"|=" => Kind::BarEqual,
        b"^=" => Kind::CaretEqual,
        _ => Kind::Bad,
    }
}

fn punctuator_of_three(bytes: &[u8]) -> Kind
    ensures { result ≡ look_up punctuators_of_3 bytes.now }
{
    match bytes {
        b"<<=" => Kind::LessLessEqual,
        b">>=" => Kind::GreaterGreaterEqual,
        _ => Kind::Bad,
    }
}

/// What a punctuator is to the grammar.
pub fn punctuator_kind(bytes: &[u8]) -> Kind
    ensures { result ≡ look_up punctuators bytes.now }
{
    match bytes.len() {
        1 => punctuator_of_one(bytes[0]),
        2 => punctuator_of_two(bytes),
        3 => punctuator_of_three(bytes),
        _ => Kind::Bad,
    }
}
