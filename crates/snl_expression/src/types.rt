//! Reads types and names of types.
#![tactic(auto, unfolding(crate::proofs::Opened::Types::types))]

ghost use Rattle.std.specs.Prelude.{◌≡◌};
ghost use Rattle.snl_lex.specs.declared.kind.Kind.TheVariants as kind;
ghost use Rattle.snl_grammar.specs.declared.tree.types.Base.TheVariants as bases;
ghost use Rattle.snl_grammar.specs.Steps as read;
ghost use Rattle.snl_expression.specs.Reads.{ReadsFrom};
ghost use Rattle.snl_grammar.specs.Reading.Types as spec;

use crate::lists::many;
use crate::stop::Stop;
use crate::token_steps::{accept, expect, kind_at};
use snl_grammar::tree::types::{Base, Integer, Pointer, QualifiedType, TypeName};
use snl_lex::Kind;
use sqlite_items::Items;
use std::alloc::Global;

// "char" | "int"
// char
fn integer_word(
    kinds: &[Kind],
    at: usize,
    word: Kind,
    integer: Integer,
) -> Result<(Integer, usize), Stop>
    ensures { ReadsFrom kinds.now at result (read.word word integer) }
{
    let at = expect(kinds, at, word)?;
    Ok((integer, at))
}

// "void" | "int8_t" | .. | "evflag"
// double
fn base_word(kinds: &[Kind], at: usize, word: Kind, base: Base) -> Result<(Base, usize), Stop>
    ensures { ReadsFrom kinds.now at result (read.word word base) }
{
    let at = expect(kinds, at, word)?;
    Ok((base, at))
}

// "short" ["int"]
// short int
fn short_integer(kinds: &[Kind], at: usize) -> Result<(Integer, usize), Stop>
    ensures { ReadsFrom kinds.now at result spec.short_integer }
{
    let at = expect(kinds, at, Kind::Short)?;
    let (more, at) = accept(kinds, at, Kind::Int);
    let integer = if more {
        Integer::ShortInt
    } else {
        Integer::Short
    };
    Ok((integer, at))
}

// "long" ["int"]
// long int
fn long_integer(kinds: &[Kind], at: usize) -> Result<(Integer, usize), Stop>
    ensures { ReadsFrom kinds.now at result spec.long_integer }
{
    let at = expect(kinds, at, Kind::Long)?;
    let (more, at) = accept(kinds, at, Kind::Int);
    let integer = if more {
        Integer::LongInt
    } else {
        Integer::Long
    };
    Ok((integer, at))
}

// integer = "char" | "short" ["int"] | "int" | "long" ["int"]
// long int
fn integer(kinds: &[Kind], at: usize) -> Result<(Integer, usize), Stop>
    ensures { ReadsFrom kinds.now at result spec.integer }
{
    match kind_at(kinds, at) {
        Some(Kind::Char) => integer_word(kinds, at, Kind::Char, Integer::Char),
        Some(Kind::Short) => short_integer(kinds, at),
        Some(Kind::Int) => integer_word(kinds, at, Kind::Int, Integer::Int),
        Some(Kind::Long) => long_integer(kinds, at),
        _ => Err(Stop::Here(at)),
    }
}

fn begins_integer(kind: Option<Kind>) -> bool
    ensures { result ≡ spec.begins_integer kind }
{
    match kind {
        Some(Kind::Char) => true,
        Some(Kind::Short) => true,
        Some(Kind::Int) => true,
        Some(Kind::Long) => true,
        _ => false,
    }
}

// integer, as a base
// long int
fn plain_integer(kinds: &[Kind], at: usize) -> Result<(Base, usize), Stop>
    ensures { ReadsFrom kinds.now at result spec.plain_integer }
{
    let (integer, at) = integer(kinds, at)?;
    Ok((Base::Integer(integer), at))
}

// [integer], after `unsigned`
// short
fn unsigned_rest(kinds: &[Kind], at: usize) -> Result<(Base, usize), Stop>
    ensures { ReadsFrom kinds.now at result spec.unsigned_rest }
{
    if begins_integer(kind_at(kinds, at)) {
        let (integer, at) = integer(kinds, at)?;
        Ok((Base::UnsignedInteger(integer), at))
    } else {
        Ok((Base::Unsigned, at))
    }
}

// "unsigned" [integer]
// unsigned short
fn unsigned(kinds: &[Kind], at: usize) -> Result<(Base, usize), Stop>
    ensures { ReadsFrom kinds.now at result spec.unsigned }
{
    let at = expect(kinds, at, Kind::Unsigned)?;
    unsigned_rest(kinds, at)
}

// "enum" NAME
// enum mode
fn enum_base(kinds: &[Kind], at: usize) -> Result<(Base, usize), Stop>
    ensures { ReadsFrom kinds.now at result (spec.named kind.Enum bases.Enum) }
{
    let at = expect(kinds, at, Kind::Enum)?;
    let name = at;
    let at = expect(kinds, at, Kind::Name)?;
    Ok((Base::Enum(name), at))
}

// "struct" NAME
// struct range
fn struct_base(kinds: &[Kind], at: usize) -> Result<(Base, usize), Stop>
    ensures { ReadsFrom kinds.now at result (spec.named kind.Struct bases.Struct) }
{
    let at = expect(kinds, at, Kind::Struct)?;
    let name = at;
    let at = expect(kinds, at, Kind::Name)?;
    Ok((Base::Struct(name), at))
}

// "union" NAME
// union value
fn union_base(kinds: &[Kind], at: usize) -> Result<(Base, usize), Stop>
    ensures { ReadsFrom kinds.now at result (spec.named kind.Union bases.Union) }
{
    let at = expect(kinds, at, Kind::Union)?;
    let name = at;
    let at = expect(kinds, at, Kind::Name)?;
    Ok((Base::Union(name), at))
}

// "typename" NAME
// typename epicsTime
fn typename_base(kinds: &[Kind], at: usize) -> Result<(Base, usize), Stop>
    ensures { ReadsFrom kinds.now at result (spec.named kind.Typename bases.Typename) }
{
    let at = expect(kinds, at, Kind::Typename)?;
    let name = at;
    let at = expect(kinds, at, Kind::Name)?;
    Ok((Base::Typename(name), at))
}

// base = "void" | integer | "unsigned" [integer] | "int8_t" | .. | "evflag"
//     | ( "enum" | "struct" | "union" | "typename" ) NAME
// unsigned short
fn base(kinds: &[Kind], at: usize) -> Result<(Base, usize), Stop>
    ensures { ReadsFrom kinds.now at result spec.base }
{
    match kind_at(kinds, at) {
        Some(Kind::Void) => base_word(kinds, at, Kind::Void, Base::Void),
        Some(Kind::Char) => plain_integer(kinds, at),
        Some(Kind::Short) => plain_integer(kinds, at),
        Some(Kind::Int) => plain_integer(kinds, at),
        Some(Kind::Long) => plain_integer(kinds, at),
        Some(Kind::Unsigned) => unsigned(kinds, at),
        Some(Kind::Int8) => base_word(kinds, at, Kind::Int8, Base::Int8),
        Some(Kind::Uint8) => base_word(kinds, at, Kind::Uint8, Base::Uint8),
        Some(Kind::Int16) => base_word(kinds, at, Kind::Int16, Base::Int16),
        Some(Kind::Uint16) => base_word(kinds, at, Kind::Uint16, Base::Uint16),
        Some(Kind::Int32) => base_word(kinds, at, Kind::Int32, Base::Int32),
        Some(Kind::Uint32) => base_word(kinds, at, Kind::Uint32, Base::Uint32),
        Some(Kind::Float) => base_word(kinds, at, Kind::Float, Base::Float),
        Some(Kind::Double) => base_word(kinds, at, Kind::Double, Base::Double),
        Some(Kind::String) => base_word(kinds, at, Kind::String, Base::String),
        Some(Kind::Evflag) => base_word(kinds, at, Kind::Evflag, Base::Evflag),
        Some(Kind::Enum) => enum_base(kinds, at),
        Some(Kind::Struct) => struct_base(kinds, at),
        Some(Kind::Union) => union_base(kinds, at),
        Some(Kind::Typename) => typename_base(kinds, at),
        _ => Err(Stop::Here(at)),
    }
}

/// A type: a base, and `const` before and after it or not.
// type = ["const"] base ["const"]
// const char
pub fn type_of(kinds: &[Kind], at: usize) -> Result<(QualifiedType, usize), Stop>
    ensures { ReadsFrom kinds.now at result spec.type_of }
{
    let (leading_const, at) = accept(kinds, at, Kind::Const);
    let (base, at) = base(kinds, at)?;
    let (trailing_const, at) = accept(kinds, at, Kind::Const);
    let of = QualifiedType {
        leading_const,
        base,
        trailing_const,
    };
    Ok((of, at))
}

// [ "*" ["const"] ]
// * const
fn next_pointer(kinds: &[Kind], at: usize) -> Result<(Option<Pointer>, usize), Stop>
    ensures { ReadsFrom kinds.now at result spec.next_pointer }
{
    match kind_at(kinds, at) {
        Some(Kind::Star) => {
            let at = expect(kinds, at, Kind::Star)?;
            let (constant, at) = accept(kinds, at, Kind::Const);
            let pointer = if constant {
                Pointer::Const
            } else {
                Pointer::Plain
            };
            Ok((Some(pointer), at))
        }
        _ => Ok((None, at)),
    }
}

/// The stars after a type.
// stars = { "*" ["const"] }
// **
pub fn stars(alloc: Global, kinds: &[Kind], start: usize) -> Result<(Items<Pointer>, usize), Stop>
    ensures { ReadsFrom kinds.now start result spec.stars }
{
    many(
        alloc,
        kinds,
        start,
        Items::new(alloc),
        |kinds, at| next_pointer(kinds, at),
    )
}

/// A type and the stars after it.
// type stars
// const char *
pub fn type_name(alloc: Global, kinds: &[Kind], at: usize) -> Result<(TypeName, usize), Stop>
    ensures { ReadsFrom kinds.now at result spec.type_name }
{
    let (of, at) = type_of(kinds, at)?;
    let (pointers, at) = stars(alloc, kinds, at)?;
    Ok((TypeName { of, pointers }, at))
}

/// Whether a token begins a type.
pub fn begins_type(kind: Option<Kind>) -> bool
    ensures { result ≡ spec.begins_type kind }
{
    match kind {
        Some(Kind::Const) => true,
        Some(Kind::Void) => true,
        Some(Kind::Char) => true,
        Some(Kind::Short) => true,
        Some(Kind::Int) => true,
        Some(Kind::Long) => true,
        Some(Kind::Unsigned) => true,
        Some(Kind::Int8) => true,
        Some(Kind::Uint8) => true,
        Some(Kind::Int16) => true,
        Some(Kind::Uint16) => true,
        Some(Kind::Int32) => true,
        Some(Kind::Uint32) => true,
        Some(Kind::Float) => true,
        Some(Kind::Double) => true,
        Some(Kind::String) => true,
        Some(Kind::Evflag) => true,
        Some(Kind::Enum) => true,
        Some(Kind::Struct) => true,
        Some(Kind::Union) => true,
        Some(Kind::Typename) => true,
        _ => false,
    }
}
