//! Items with what is found in them.

use crate::inside::asked::{Asked, Row, expect_answers};
use std::test::Fail;

// An item, and what occurs in it.
static ITEMS: [Row; 14] = [
    ("program p", ""),
    ("int x[y] = { z, 1 }, *w;", "x:d y:n z:n w:d "),
    ("evflag e[2], f;", "e:D f:d "),
    ("struct s { int a[b], a; %{c}% };", "a:d b:n a:d "),
    ("int f(int p[n], int n);", "n:n "),
    (
        "int f(int *p, evflag q[n], int p) { return p + q; }",
        "p:d=5v q:d=8fv n:n p:d=5v p:n=5v q:n=8fv ",
    ),
    (
        "int f(int p) { evflag p; p; { int q = p; } q; }",
        "p:d=4v p:D=8f p:n=8f q:d=14 p:n=8f q:n ",
    ),
    (
        "state i { int x, x; evflag e = 1; foreign g; assign x; when (x) { } exit }",
        "x:d=4v x:d=4v e:D=9f g:d=14fv x:n?=4v ",
    ),
    (
        "entry { int a; { break; int a = b[a]; while (a) break; } a = f(a, 1); }",
        "a:d=3 break:J a:d=9 b:s a:n=9 a:n=9 break:j a:n=3 f:c a:n=3 ",
    ),
    (
        "entry { while (1) if (a) { break; } else for (b; c; d) { continue; } continue; }",
        "a:n break:j b:n c:n d:n continue:j continue:J ",
    ),
    (
        "state i { entry { state j; } when (delay(1)) { if (a) state k; else { state l; } } state m exit { state n; } }",
        "state:S delay:c? a:n state:s k:t state:s l:t m:t state:S ",
    ),
    (
        "exit { efSet(e); efTest(e[0]); efClear((e)); pvGet(v[i][2]); pvPut(v.m); efSet(1, e); (efSet)(e); pvGet(v)(w); }",
        "efSet:c e:nf efTest:c e:if efClear:c e:n pvGet:c v:sv i:n pvPut:c v:o efSet:c e:n efSet:n e:n pvGet:c v:nv w:n ",
    ),
    (
        "exit { a = b += c ? d : e ? g : h, -i++ * sizeof j[2] - (int) k->l[m]; }",
        "a:n b:n c:n d:n e:n g:n h:n i:o j:i k:o m:n ",
    ),
    (
        "state i { when (f(a)[b] && (c = d)) { int a; a; } exit when () { a; } exit }",
        "f:c? a:n? b:n? c:n? d:n? a:d=21 a:n=21 a:n ",
    ),
];

#[test]
fn what_occurs_in_items(rt: HostRuntime) -> Result<(), Fail> {
    expect_answers(&rt, rt.alloc(), Asked::Occurrences, &ITEMS)
}
