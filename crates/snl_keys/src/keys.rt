//! What is typed, and where: after bytes that are in the text again and again.
//! In: a text. Out: places in it.

/// Keys, and the bytes after which they are typed.
pub struct Typing {
    pub name: &'static str,
    pub after: &'static [u8],
    pub keys: &'static [u8],
}

/// What is measured. The bytes are those of the text that tests/bench_text writes.
pub static TYPINGS: [Typing; 9] = [
    Typing {
        name: "a digit in an expression",
        after: b"retries < ",
        keys: b"7",
    },
    // between its letters the state is faulty
    Typing {
        name: "a statement, letter by letter",
        after: b"retries++;",
        keys: b"retries = 1 + 2 * 3;",
    },
    Typing {
        name: "a comment",
        after: b"/* Pump-down",
        keys: b" of the main chamber",
    },
    Typing {
        name: "white space",
        after: b"entry {",
        keys: b"\n    ",
    },
    Typing {
        name: "the name of a state",
        after: b"    }\n    state pumping",
        keys: b"_one",
    },
    Typing {
        name: "a number in a declaration",
        after: b" = {{1, 2, ",
        keys: b"5",
    },
    Typing {
        name: "a declared name",
        after: b"double pressure",
        keys: b"_one",
    },
    // the state goes on up to the end of its set, and is faulty
    Typing {
        name: "a brace in a body",
        after: b"retries++;",
        keys: b"{",
    },
    // up to the next end of a comment, or of the text
    Typing {
        name: "a comment that begins in a body",
        after: b"retries++;",
        keys: b"/*",
    },
];

/// Which of the places in a text.
#[derive(Clone, Copy)]
pub enum Place {
    Front,
    Middle,
    Back,
}

impl Place {
    pub fn name(self) -> &'static str {
        match self {
            Place::Front => "front",
            Place::Middle => "middle",
            Place::Back => "back",
        }
    }

    // Its number among so many places.
    fn number(self, count: usize) -> usize {
        match self {
            Place::Front => 0,
            Place::Middle => count / 2,
            Place::Back => count.saturating_sub(1),
        }
    }
}

// How often the bytes are in a text.
fn count_of(text: &[u8], wanted: &[u8]) -> usize {
    let mut count: usize = 0;
    for part in text.windows(wanted.len().max(1)) {
        if part == wanted {
            count = count.wrapping_add(1);
        }
    }
    count
}

/// The offset after such bytes in a text, at the front, in the middle or at the back; none where
/// they aren't in it.
pub fn offset_after(text: &[u8], wanted: &[u8], place: Place) -> Option<usize> {
    let mut before = place.number(count_of(text, wanted));
    for (start, part) in text.windows(wanted.len().max(1)).enumerate() {
        if part == wanted {
            if before == 0 {
                return Some(start.saturating_add(wanted.len()));
            }
            before -= 1;
        }
    }
    None
}
