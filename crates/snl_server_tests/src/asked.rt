//! What is at a place of a text.

ghost use Rattle.std.specs.Prelude.{◌≡◌, ◌<◌, ◌^◌, IfOk, length, vec_len};

use snl_cut::Count;
use snl_lex::{PieceList, lex};
use snl_questions::token_at;
use std::alloc::Global;
use std::process::Abort;
use std::test::Fail;

/// `int`, `x2`, `;` and `"s"` are its tokens.
const TEXT: &[u8] = b"int /*c*/ x2;\n# 3\n\"s\"";

// An offset, and where the token begins that has that byte, with its length, if there is one.
static TOKENS: [(usize, Option<(usize, usize)>); 17] = [
    (0, Some((0, 3))),
    (2, Some((0, 3))),
    (3, None),
    (4, None),
    (8, None),
    (9, None),
    (10, Some((10, 2))),
    (11, Some((10, 2))),
    (12, Some((12, 1))),
    (13, None),
    (14, None),
    (16, None),
    (17, None),
    (18, Some((18, 3))),
    (20, Some((18, 3))),
    (21, None),
    (5_000_000_000, None),
];

fn pieces_of(alloc: Global, text: &[u8]) -> Result<PieceList, Fail>
    requires { length text.now < 2 ^ 32 }
    ensures { IfOk result (λ pieces. vec_len pieces.ends ≡ vec_len pieces.kinds) }
{
    let pieces = lex(alloc, text, &mut Count::new())?;
    Ok(PieceList::of(alloc, &pieces)?)
}

fn expect_all(rt: &impl Abort, pieces: &PieceList)
    requires { vec_len pieces.now.ends ≡ vec_len pieces.now.kinds }
{
    for (offset, wanted) in &TOKENS {
        let found = match token_at(pieces, *offset) {
            Some(token) => Some((token.start, token.len)),
            None => None,
        };
        assert!(rt; found == *wanted, "at {offset}");
    }
}

#[test]
fn finds_the_token_of_a_byte(rt: HostRuntime) -> Result<(), Fail> {
    assert!(rt; TEXT.len() < 1000);
    let pieces = pieces_of(rt.alloc(), TEXT)?;
    expect_all(&rt, &pieces);
    let none = pieces_of(rt.alloc(), b"")?;
    assert!(rt; token_at(&none, 0).is_none());
    Ok(())
}
