//! Texts with what is found in them, where, and what it quotes.

use snl_session::{Code, Diagnostic, Session};
use std::test::Fail;

// A text, all that is found in it, and how many of that are errors.
static TEXTS: [(&[u8], &[Diagnostic], usize); 4] = [
    (
        b"",
        &[
            Diagnostic {
                offset: 0,
                line: 1,
                file: None,
                code: Code::E05,
                subject: 0,
            },
            Diagnostic {
                offset: 0,
                line: 1,
                file: None,
                code: Code::E06,
                subject: 0,
            },
        ],
        2,
    ),
    (
        b"program p ss a { state i { when () { } state j } }",
        &[Diagnostic {
            offset: 45,
            line: 1,
            file: None,
            code: Code::E10,
            subject: 1,
        }],
        1,
    ),
    // by a line marker
    (
        b"program p ss a {\n# 10 \"a.st\"\nstate i { when () { } state j }\n}",
        &[Diagnostic {
            offset: 57,
            line: 10,
            file: Some((23, 4)),
            code: Code::E10,
            subject: 1,
        }],
        1,
    ),
    // a letter of an option is quoted alone, and a warning is no error
    (
        b"program p ss a {\nstate i { option +tz; when (abc) { } exit } }",
        &[
            Diagnostic {
                offset: 36,
                line: 2,
                file: None,
                code: Code::W04,
                subject: 1,
            },
            Diagnostic {
                offset: 45,
                line: 2,
                file: None,
                code: Code::W01,
                subject: 3,
            },
        ],
        0,
    ),
];

#[test]
fn tells_what_is_found_and_where(rt: HostRuntime) -> Result<(), Fail> {
    for (text, wanted, errors) in &TEXTS {
        let mut session = Session::new(rt.alloc())?;
        session.edit(0, 0, text)?;
        assert_eq!(rt; session.text(), *text);
        assert_eq!(rt; session.diagnostics(), *wanted, "{text:?}");
        assert_eq!(rt; session.errors(), *errors, "{text:?}");
        assert_eq!(rt; session.warnings(), wanted.len().saturating_sub(*errors));
    }
    Ok(())
}
