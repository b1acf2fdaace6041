//! The words of the language: the bytes of a word come in, what it is to the grammar goes out.
//! A word is looked for among the few that begin as it does: most names are told by their first
//! byte and their length.

ghost use Rattle.snl_lex.specs.Kinds.{◌is◌, is_word, look_up, words, words_on};
ghost use Rattle.std.specs.Prelude.{◌≡◌, [], ◌∷◌, codes, slice_index};

use crate::alphabet::byte_at;
use crate::kind::Kind;
use snl_facts::are_same_bytes;

// The word that alone begins with its first byte.
#[inline(always)]
fn lone_word(word: &[u8], spelling: &[u8], kind: Kind) -> Kind
    ensures { result ≡ look_up ((spelling.now is kind) ∷ []) word.now }
{
    if are_same_bytes(word, spelling) {
        kind
    } else {
        Kind::Bad
    }
}

fn word_on_c(word: &[u8]) -> Kind
    ensures { result ≡ look_up (words_on (codes "c")) word.now }
{
    if are_same_bytes(word, b"char") {
        Kind::Char
    } else if are_same_bytes(word, b"const") {
        Kind::Const
    } else if are_same_bytes(word, b"continue") {
        Kind::Continue
    } else {
        Kind::Bad
    }
}

fn word_on_e(word: &[u8]) -> Kind
    ensures { result ≡ look_up (words_on (codes "e")) word.now }
{
    if are_same_bytes(word, b"exit") {
        Kind::Exit
    } else if are_same_bytes(word, b"else") {
        Kind::Else
    } else if are_same_bytes(word, b"enum") {
        Kind::Enum
    } else if are_same_bytes(word, b"entry") {
        Kind::Entry
    } else if are_same_bytes(word, b"evflag") {
        Kind::Evflag
    } else {
        Kind::Bad
    }
}

fn word_on_f(word: &[u8]) -> Kind
    ensures { result ≡ look_up (words_on (codes "f")) word.now }
{
    if are_same_bytes(word, b"for") {
        Kind::For
    } else if are_same_bytes(word, b"float") {
        Kind::Float
    } else if are_same_bytes(word, b"foreign") {
        Kind::Foreign
    } else {
        Kind::Bad
    }
}

fn word_on_i(word: &[u8]) -> Kind
    ensures { result ≡ look_up (words_on (codes "i")) word.now }
{
    if are_same_bytes(word, b"if") {
        Kind::If
    } else if are_same_bytes(word, b"int") {
        Kind::Int
    } else if are_same_bytes(word, b"int8_t") {
        Kind::Int8
    } else if are_same_bytes(word, b"int16_t") {
        Kind::Int16
    } else if are_same_bytes(word, b"int32_t") {
        Kind::Int32
    } else {
        Kind::Bad
    }
}

fn word_on_st(word: &[u8]) -> Kind
    ensures { result ≡ look_up (words_on (codes "st")) word.now }
{
    if are_same_bytes(word, b"state") {
        Kind::State
    } else if are_same_bytes(word, b"string") {
        Kind::String
    } else if are_same_bytes(word, b"struct") {
        Kind::Struct
    } else {
        Kind::Bad
    }
}

fn word_on_sy(word: &[u8]) -> Kind
    ensures { result ≡ look_up (words_on (codes "sy")) word.now }
{
    if are_same_bytes(word, b"sync") {
        Kind::Sync
    } else if are_same_bytes(word, b"syncq") {
        Kind::Syncq
    } else if are_same_bytes(word, b"syncQ") {
        Kind::SyncqCapital
    } else {
        Kind::Bad
    }
}

fn word_on_t(word: &[u8]) -> Kind
    ensures { result ≡ look_up (words_on (codes "t")) word.now }
{
    if are_same_bytes(word, b"to") {
        Kind::To
    } else if are_same_bytes(word, b"typename") {
        Kind::Typename
    } else {
        Kind::Bad
    }
}

fn word_on_u(word: &[u8]) -> Kind
    ensures { result ≡ look_up (words_on (codes "u")) word.now }
{
    if are_same_bytes(word, b"union") {
        Kind::Union
    } else if are_same_bytes(word, b"uint8_t") {
        Kind::Uint8
    } else if are_same_bytes(word, b"unsigned") {
        Kind::Unsigned
    } else if are_same_bytes(word, b"uint16_t") {
        Kind::Uint16
    } else if are_same_bytes(word, b"uint32_t") {
        Kind::Uint32
    } else {
        Kind::Bad
    }
}

fn word_on_w(word: &[u8]) -> Kind
    ensures { result ≡ look_up (words_on (codes "w")) word.now }
{
    if are_same_bytes(word, b"when") {
        Kind::When
    } else if are_same_bytes(word, b"while") {
        Kind::While
    } else {
        Kind::Bad
    }
}

fn word_on_s(word: &[u8]) -> Kind
    requires { slice_index word.now 0 ≡ 115 }
    ensures { result ≡ look_up words word.now }
{
    match byte_at(word, 1) {
        b's' => lone_word(word, b"ss", Kind::Ss),
        b't' => word_on_st(word),
        b'y' => word_on_sy(word),
        b'h' => lone_word(word, b"short", Kind::Short),
        b'i' => lone_word(word, b"sizeof", Kind::Sizeof),
        _ => Kind::Bad,
    }
}

/// What a word is to the grammar.
pub fn word_kind(word: &[u8]) -> Kind
    ensures { result ≡ look_up words word.now }
{
    match byte_at(word, 0) {
        b'a' => lone_word(word, b"assign", Kind::Assign),
        b'b' => lone_word(word, b"break", Kind::Break),
        b'c' => word_on_c(word),
        b'd' => lone_word(word, b"double", Kind::Double),
        b'e' => word_on_e(word),
        b'f' => word_on_f(word),
        b'i' => word_on_i(word),
        b'l' => lone_word(word, b"long", Kind::Long),
        b'm' => lone_word(word, b"monitor", Kind::Monitor),
        b'o' => lone_word(word, b"option", Kind::Option),
        b'p' => lone_word(word, b"program", Kind::Program),
        b'r' => lone_word(word, b"return", Kind::Return),
        b's' => word_on_s(word),
        b't' => word_on_t(word),
        b'u' => word_on_u(word),
        b'v' => lone_word(word, b"void", Kind::Void),
        b'w' => word_on_w(word),
        _ => Kind::Bad,
    }
}

/// Whether a name is one of the words.
pub fn is_word(name: &[u8]) -> bool
    ensures { result ≡ is_word name.now }
{
    !matches!(word_kind(name), Kind::Bad)
}
