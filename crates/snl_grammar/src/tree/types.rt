//! Types and names of types.

use sqlite_items::Items;

/// The integer bases that may also come after `unsigned`.
#[derive(Clone, Copy, Debug, PartialEq, Eq)]
pub enum Integer {
    Char,
    Short,
    ShortInt,
    Int,
    Long,
    LongInt,
}

/// What a type is made of. A number is that of the name's token.
#[derive(Clone, Copy, Debug, PartialEq, Eq)]
pub enum Base {
    Void,
    Integer(Integer),
    Unsigned,
    UnsignedInteger(Integer),
    Int8,
    Uint8,
    Int16,
    Uint16,
    Int32,
    Uint32,
    Float,
    Double,
    String,
    Evflag,
    Enum(usize),
    Struct(usize),
    Union(usize),
    Typename(usize),
}

/// A base, with `const` before and after it or not.
#[derive(Clone, Copy, Debug, PartialEq, Eq)]
pub struct QualifiedType {
    pub leading_const: bool,
    pub base: Base,
    pub trailing_const: bool,
}

/// A `*`, with `const` after it or not.
#[derive(Clone, Copy, Debug, PartialEq, Eq)]
pub enum Pointer {
    Plain,
    Const,
}

/// A type as casts and `sizeof` name it.
#[derive(Drop)]
pub struct TypeName {
    pub of: QualifiedType,
    pub pointers: Items<Pointer>,
}
