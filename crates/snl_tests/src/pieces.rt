//! Texts with their pieces and bytes with their values, told from the language's rules.

use Class::*;
use snl_cut::{Count, Front};
use snl_lex::{Bytes, Class, Piece, int_value, lex, token_text};
use std::alloc::Global;
use std::process::Abort;
use std::test::Fail;

/// A small program without faults.
pub const PROGRAM: &[u8] =
    b"program p\nint x;\nassign x to \"dev:x\";\nmonitor x;\nevflag f;\nsync x to f;\nss a {\nstate s1 {\nwhen (efTest(f) && x > 3) {\npvPut(x);\n} state s2\n}\nstate s2 {\nwhen () { } state s1\n}\n}\n";

// Texts, and their pieces as classes and lengths.
static PIECES: [(&[u8], &[(Class, usize)]); 45] = [
    (b"1e+5", &[(Float, 4)]),
    (b"1e+", &[(Bad, 3)]),
    (b"1f", &[(Bad, 2)]),
    (b"08", &[(Bad, 2)]),
    (b"0x", &[(Bad, 2)]),
    (b"1.2.3", &[(Bad, 5)]),
    (b"0x1e+5", &[(Int, 4), (Punct, 1), (Int, 1)]),
    (b"18446744073709551615", &[(Int, 20)]),
    (b"18446744073709551616", &[(Bad, 20)]),
    (b"a.5", &[(Name, 1), (Float, 2)]),
    (b"a%%b", &[(Name, 1), (CCode, 3)]),
    (b"/*/", &[(Bad, 3)]),
    (b"\"a\\\"b\"", &[(Text, 6)]),
    (b"@$", &[(Bad, 2)]),
    (b"\"ab\\", &[(Bad, 4)]),
    (b"\"a\\\r\n\"", &[(Bad, 4), (White, 1), (Bad, 1)]),
    (b"\"a\\\n\"", &[(Text, 5)]),
    (b"\"a\nb", &[(Bad, 2), (White, 1), (Name, 1)]),
    (b"1e+e+5", &[(Bad, 4), (Punct, 1), (Int, 1)]),
    (b"0xe+5", &[(Int, 3), (Punct, 1), (Int, 1)]),
    (b"1e+.5", &[(Bad, 5)]),
    (b"5.x", &[(Bad, 3)]),
    (b".5.", &[(Bad, 3)]),
    (b"..5", &[(Punct, 1), (Float, 2)]),
    (b"09.5", &[(Float, 4)]),
    (b"0e+5", &[(Float, 4)]),
    (b"1lL", &[(Bad, 3)]),
    (b"1uLL", &[(Int, 4)]),
    (b"0xffffffffffffffff", &[(Int, 18)]),
    (b"0x10000000000000000", &[(Bad, 19)]),
    (b"01777777777777777777777", &[(Int, 23)]),
    (b"02000000000000000000000", &[(Bad, 23)]),
    (b"\0\x01\x80\xff@\\`a", &[(Bad, 7), (Name, 1)]),
    (b"@#x\n@", &[(Bad, 1), (Marker, 2), (White, 1), (Bad, 1)]),
    (b"''", &[(CharLit, 2)]),
    (b"'a", &[(Bad, 2)]),
    (b"//a\r\n/**/", &[(Comment, 4), (White, 1), (Comment, 4)]),
    (b"%{a}%%%", &[(CCode, 5), (CCode, 2)]),
    (b"%{ ss", &[(Bad, 5)]),
    (
        b"<<=>>=->--=<<>",
        &[
            (Punct, 3),
            (Punct, 3),
            (Punct, 2),
            (Punct, 2),
            (Punct, 1),
            (Punct, 2),
            (Punct, 1),
        ],
    ),
    (
        b"state states syncQ synCq int8_t _1",
        &[
            (Word, 5),
            (White, 1),
            (Name, 6),
            (White, 1),
            (Word, 5),
            (White, 1),
            (Name, 5),
            (White, 1),
            (Word, 6),
            (White, 1),
            (Name, 2),
        ],
    ),
    (b" \t\n\r\x0b\x0c", &[(White, 6)]),
    (b"1.", &[(Float, 2)]),
    (b"1.5e-3L", &[(Float, 7)]),
    (b"", &[]),
];

// Where pieces end that follow one another from the first byte on.
fn joined_end(pieces: &[Piece]) -> Option<usize> {
    let mut end = 0;
    for piece in pieces {
        if piece.start != end {
            return None;
        }
        end = piece.start.saturating_add(piece.len);
    }
    Some(end)
}

// Whether pieces have these classes and lengths.
fn are_these(pieces: &[Piece], wanted: &[(Class, usize)]) -> bool {
    pieces.len() == wanted.len()
        && pieces.iter().zip(wanted).all(|(piece, (kind, len))| piece.kind == *kind
            && piece.len == *len)
}

fn expect_pieces(
    rt: &impl Abort,
    alloc: Global,
    text: &[u8],
    wanted: &[(Class, usize)],
) -> Result<(), Fail> {
    let mut work = Count::new();
    let pieces = lex(alloc, text, &mut work)?;
    assert!(rt; are_these(&pieces, wanted), "{text:?} has {pieces:?}");
    assert!(rt; joined_end(&pieces) == Some(text.len()) && work.ticks() == wanted.len() as u64);
    Ok(())
}

#[test]
fn cuts_to_pieces(rt: HostRuntime) -> Result<(), Fail> {
    for (text, wanted) in &PIECES {
        expect_pieces(&rt, rt.alloc(), text, wanted)?;
    }
    Ok(())
}

// Each word of the language, with blanks between.
const WORDS: &[u8] =
    b"program ss state entry exit when option assign to monitor sync syncq syncQ foreign if else while for break continue return sizeof const void char short int long unsigned int8_t uint8_t int16_t uint16_t int32_t uint32_t float double string evflag enum struct union typename";

// Each punctuator, with blanks between.
const PUNCTUATORS: &[u8] =
    b"{ } ( ) [ ] ; , . -> ++ -- ! ~ + - * / % & | ^ && || << >> < > <= >= == != = += -= *= /= %= &= |= ^= <<= >>= ? :";

// Texts, and how many pieces of a class they have.
static CLASSES: [(&[u8], Class, usize); 6] = [
    (WORDS, Word, 43),
    (WORDS, White, 42),
    (PUNCTUATORS, Punct, 45),
    (PUNCTUATORS, White, 44),
    (PROGRAM, Word, 15),
    (PROGRAM, Bad, 0),
];

// How many pieces of a class a text has.
fn count_of(alloc: Global, text: &[u8], kind: Class) -> Result<usize, Fail> {
    let mut count: usize = 0;
    for piece in &lex(alloc, text, &mut Count::new())? {
        if piece.kind == kind {
            count = count.wrapping_add(1);
        }
    }
    Ok(count)
}

#[test]
fn tells_classes(rt: HostRuntime) -> Result<(), Fail> {
    for (text, kind, wanted) in &CLASSES {
        let count = count_of(rt.alloc(), text, *kind)?;
        assert_eq!(rt; count, *wanted, "{kind:?} in {text:?}");
    }
    Ok(())
}

// Bytes, and their value, if they are an integer.
static VALUES: [(&[u8], Option<u64>); 12] = [
    (b"017", Some(15)),
    (b"0x1F", Some(31)),
    (b"12ul", Some(12)),
    (b"08", None),
    (b"0", Some(0)),
    (b"18446744073709551615", Some(18446744073709551615)),
    (b"18446744073709551616", None),
    (b"0XfFLLu", Some(255)),
    (b"1uu", None),
    (b"", None),
    (b"1 ", None),
    (b"1e5", None),
];

#[test]
fn tells_values(rt: HostRuntime) {
    for (bytes, wanted) in &VALUES {
        assert_eq!(rt; int_value(bytes), *wanted, "{bytes:?}");
    }
}

#[test]
fn tells_a_token_and_its_length(rt: HostRuntime) {
    let name = Piece {
        kind: Name,
        start: 4,
        len: 1,
    };
    assert!(rt; token_text(b"int x;", name) == b"x".as_slice());
    let mut work = Count::new();
    assert!(rt; Bytes.first(b"int x;", &mut work) == 3 && work.ticks() == 1);
}
