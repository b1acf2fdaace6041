//! Declarations, functions and structs: which tokens make one, and which number is blamed where
//! they don't.

use crate::reading::{Row, read_row, read_tables};
use std::test::Fail;

// Each base of a type.
static BASES: [&str; 29] = [
    "void",
    "char",
    "short",
    "short int",
    "int",
    "long",
    "long int",
    "unsigned",
    "unsigned char",
    "unsigned short",
    "unsigned short int",
    "unsigned int",
    "unsigned long",
    "unsigned long int",
    "int8_t",
    "uint8_t",
    "int16_t",
    "uint16_t",
    "int32_t",
    "uint32_t",
    "float",
    "double",
    "string",
    "evflag",
    "enum e",
    "struct s",
    "union u",
    "typename t",
    "const int const",
];

// What may come before and after a base.
static ROUND: [(&str, &str); 4] = [
    ("", " x;"),
    ("", " *f(const char *);"),
    ("int x = sizeof(", " *);"),
    ("int x = (", ") y;"),
];

#[test]
fn reads_bases(rt: HostRuntime) -> Result<(), Fail> {
    for base in &BASES {
        for (before, after) in &ROUND {
            let text = format!(in rt.alloc(); "{before}{base}{after}")?;
            read_row(&rt, rt.alloc(), &text, None)?;
        }
    }
    Ok(())
}

const TYPES: [Row; 16] = [
    ("int ;", Some(1)),
    ("enum ;", Some(1)),
    ("struct s;", Some(2)),
    ("enum e { a };", Some(2)),
    ("const x;", Some(1)),
    ("const const int x;", Some(1)),
    ("int const const x;", Some(2)),
    ("int int x;", Some(1)),
    ("char int x;", Some(1)),
    ("short long x;", Some(1)),
    ("unsigned float x;", Some(1)),
    ("unsigned unsigned x;", Some(1)),
    ("int8_t int x;", Some(1)),
    ("typename int x;", Some(1)),
    ("int * const * x;", None),
    ("int * const const x;", Some(3)),
];

const DECLARATIONS: [Row; 30] = [
    ("int a, *b[3] = {1, 2,};", None),
    ("int a[], b[2][c + 1];", None),
    ("int a = 1, b = c = d;", None),
    ("int a = {}, b = {{1}, {}, f(2)};", None),
    ("int a = (1, 2);", None),
    ("int a", Some(1)),
    ("int a b;", Some(2)),
    ("int *;", Some(2)),
    ("int a,;", Some(3)),
    ("int a, ,b;", Some(3)),
    ("int 1;", Some(1)),
    ("int to;", Some(1)),
    ("int a[;", Some(3)),
    ("int a[3;", Some(4)),
    ("int a[3]];", Some(5)),
    ("int a[int];", Some(3)),
    ("int a = ;", Some(3)),
    ("int a = 1 2;", Some(4)),
    ("int a = {,};", Some(4)),
    ("int a = {1,,};", Some(6)),
    ("int a = {1 2};", Some(5)),
    ("int a = {1;", Some(5)),
    ("int a = {1}, ;", Some(7)),
    ("int a = {1}[2];", Some(6)),
    ("int a = {1} + 2;", Some(6)),
    ("int a[1] = {1}, (b);", Some(10)),
    ("int a, f();", Some(4)),
    ("int (a);", Some(1)),
    ("int a; int b;", Some(3)),
    ("int a = b + = c;", Some(5)),
];

const FUNCTIONS: [Row; 21] = [
    ("int f();", None),
    ("int f(void);", None),
    ("int f(int);", None),
    (
        "int *f(int a, const char * const b[2][], struct s *) { return a; }",
        None,
    ),
    ("void f() { }", None),
    ("struct s f(struct t *x) { int y; ; y = 1; int z; }", None),
    ("int f(", Some(2)),
    ("int f(;", Some(3)),
    ("int f(a);", Some(3)),
    ("int f(int a;", Some(5)),
    ("int f(int a,);", Some(6)),
    ("int f(int a b);", Some(5)),
    ("int f(int a = 1);", Some(5)),
    ("int f(int (a));", Some(4)),
    ("int f() 1", Some(4)),
    ("int f(), g();", Some(4)),
    ("int f()[2];", Some(4)),
    ("int f() { };", Some(6)),
    ("int f() { int x; state }", Some(9)),
    ("const f();", Some(1)),
    ("f();", Some(0)),
];

const STRUCTS: [Row; 13] = [
    ("struct s { };", None),
    ("struct s { int x, *y[2]; %{c}% struct t *z; };", None),
    ("struct s { int x = 1; };", None),
    ("struct { int x; };", Some(1)),
    ("struct s ;", Some(2)),
    ("struct s { ; };", Some(3)),
    ("struct s { x; };", Some(3)),
    ("struct s { int x };", Some(5)),
    ("struct s { int f(); };", Some(5)),
    ("struct s { struct t { int x; }; };", Some(5)),
    ("struct s { foreign x; };", Some(3)),
    ("struct s { int x; } y;", Some(7)),
    ("const struct s { int x; };", Some(3)),
];

static TABLES: [&[Row]; 4] = [&TYPES, &DECLARATIONS, &FUNCTIONS, &STRUCTS];

#[test]
fn reads_declarations(rt: HostRuntime) -> Result<(), Fail> {
    read_tables(&rt, rt.alloc(), &TABLES)
}
