//! Expressions, mostly as the value of a variable, whose first token has number 3: which tokens
//! make them, and which number is blamed where they don't.

use crate::reading::{Row, read_row, read_tables};
use std::test::Fail;

const PRIMARIES: [Row; 17] = [
    ("int x = a;", None),
    ("int x = 1;", None),
    ("int x = 1.5;", None),
    ("int x = 'c';", None),
    ("int x = \"s\" \"t\";", None),
    ("int x = (a);", None),
    ("int x = sizeof(int);", None),
    ("int x = sizeof(const struct s * const *);", None),
    ("int x = ();", Some(4)),
    ("int x = (a;", Some(5)),
    ("int x = (;", Some(4)),
    ("int x = sizeof();", Some(5)),
    ("int x = sizeof(int;", Some(6)),
    ("int x = sizeof(int y);", Some(6)),
    ("int x = a b;", Some(4)),
    ("int x = 1 'c';", Some(4)),
    ("int x = %{c}%;", Some(3)),
];

const POSTFIXES: [Row; 20] = [
    ("int x = a[1];", None),
    ("int x = a[1, 2];", None),
    ("int x = f();", None),
    ("int x = f(1, a = 2);", None),
    ("int x = a.b->c++--;", None),
    ("int x = a[1](2).b->c[3];", None),
    ("int x = f(1)(2);", None),
    ("int x = \"s\"[1];", None),
    ("int x = sizeof(int)[1];", None),
    ("int x = a[];", Some(5)),
    ("int x = a[1;", Some(6)),
    ("int x = a[1)];", Some(6)),
    ("int x = f(,);", Some(5)),
    ("int x = f(1,);", Some(7)),
    ("int x = f(1;", Some(6)),
    ("int x = f(int);", Some(5)),
    ("int x = a.;", Some(5)),
    ("int x = a.1;", Some(4)),
    ("int x = a->int;", Some(5)),
    ("int x = a->1;", Some(5)),
];

const PREFIXES: [Row; 18] = [
    ("int x = + - ! ~ * & ++ -- a;", None),
    ("int x = sizeof a;", None),
    ("int x = sizeof sizeof -a++;", None),
    ("int x = sizeof (a);", None),
    ("int x = sizeof -(int) a;", None),
    ("int x = (int) a;", None),
    ("int x = (char *) (const int const) -a;", None),
    ("int x = (int) sizeof (int);", None),
    ("int x = -;", Some(4)),
    ("int x = - = a;", Some(4)),
    ("int x = sizeof;", Some(4)),
    ("int x = sizeof (int) a;", Some(7)),
    ("int x = -sizeof (int) a;", Some(8)),
    ("int x = sizeof (a) b;", Some(7)),
    ("int x = (int);", Some(6)),
    ("int x = (int b) a;", Some(5)),
    ("int x = (int[2]) a;", Some(5)),
    ("int x = (a) b;", Some(6)),
];

const LOOSE: [Row; 24] = [
    ("int x = a ? b : c;", None),
    ("int x = a ? b, c : d;", None),
    ("int x = a ? b : c ? d : e;", None),
    ("int x = a ? b ? c : d : e;", None),
    ("int x = a ? b = c : d || e;", None),
    ("int x = a ? b;", Some(6)),
    ("int x = a ? : c;", Some(5)),
    ("int x = a ? b : ;", Some(7)),
    ("int x = a ? b : c = d;", Some(8)),
    ("int x = a : b;", Some(4)),
    ("int x = a = b = c;", None),
    ("int x = a[1] = *b += -c.d;", None),
    ("int x = (a + b) = c;", None),
    ("int x = a = b ? c : d;", None),
    ("int x = a = ;", Some(5)),
    ("int x = a + b = c;", Some(6)),
    ("int x = a = b + = c;", Some(7)),
    ("int x = = a;", Some(3)),
    ("exit { a, b = c, d; }", None),
    ("exit { a,; }", Some(4)),
    ("exit { , a; }", Some(2)),
    ("int x = (a, b, c);", None),
    ("int x = (a,);", Some(6)),
    ("int x = a == b != c < d >= e << f - g % h;", None),
];

static TABLES: [&[Row]; 4] = [&PRIMARIES, &POSTFIXES, &PREFIXES, &LOOSE];

#[test]
fn reads_expressions(rt: HostRuntime) -> Result<(), Fail> {
    read_tables(&rt, rt.alloc(), &TABLES)
}

// Each operator between two operands.
static BETWEEN: [&str; 29] = [
    "||", "&&", "|", "^", "&", "==", "!=", "<", ">", "<=", ">=", "<<", ">>", "+", "-", "*", "/",
    "%", "=", "+=", "-=", "*=", "/=", "%=", "&=", "|=", "^=", "<<=", ">>=",
];

// What may come after `a` and an operator, and which number is blamed then.
static AFTER: [Row; 3] = [("b;", None), (";", Some(5)), ("/ b;", Some(5))];

#[test]
fn reads_operators(rt: HostRuntime) -> Result<(), Fail> {
    for operator in &BETWEEN {
        for (after, blamed) in &AFTER {
            let text = format!(in rt.alloc(); "int x = a {operator} {after}")?;
            read_row(&rt, rt.alloc(), &text, *blamed)?;
        }
    }
    Ok(())
}
