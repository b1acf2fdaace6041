//! Edits of white space and comments, which only shift what a session has, edits that are nearly
//! so, and edits inside items, which change what is found in their state set. After each of them,
//! and after it is undone, the session is held against one that gets the text in one edit.

use snl_session::Session;
use std::alloc::Global;
use std::process::Abort;
use std::test::Fail;

// Findings of each kind are in it: at faulty items, by links, in items, inside a token, and at a
// state that isn't reached.
static TEXT: &str =
    "/* first */ program p\noption +rz;\nint x; // a flag\nint x;\nint\n y;\nassign x to \"dev:x\";\nmonitor z;\nevflag f; sync x to f;\nstray @ item;\nstruct r { int a; };\nstate lost { when () { } exit }\n%%local code\nss a {\nstruct q { int b; };\nstate s1 {\noption -tq;\nwhen (efTest(f) && x > 3) {\npvPut(x); v = 1;\n} state s2\n}\n\nstate\ts2 { /* none */\nwhen () { } state s4\n}\nstate s3 { when () { } exit }\n}\n/* next */ ss /* b */ b { state t {\nwhen (delay(1)) { } exit } }\n";

// What may come before the text: nothing, or a line marker.
static FRONTS: [&str; 2] = ["", "# 7 \"a.st\"\n"];

// Edits, each at the first place in the text after these bytes: so many bytes go, and others come.
static ROWS: [(&str, usize, &str); 44] = [
    // at the beginning, and at the end
    ("", 0, " "),
    ("", 0, "\n\n"),
    ("", 0, "# 3 \"b.st\"\n"),
    ("", 11, ""),
    ("exit } }", 0, "\n\n"),
    ("exit } }\n", 0, "// the end"),
    ("exit } }", 1, ""),
    // in comments
    ("/* fir", 0, "\n\n"),
    ("/* fir", 2, ""),
    ("// a fl", 0, " and more"),
    ("/* none", 0, "\n/* at\n all"),
    ("/* ", 2, "\n\n\n"),
    // comments that open, close, come and go
    ("/* first *", 1, ""),
    ("// a fl", 0, "\n"),
    ("/* none ", 0, "*/ /*"),
    ("int x;", 1, ""),
    ("int x", 0, " /* so\nmany */ "),
    ("s2 { ", 10, ""),
    ("s2 { ", 0, "/*"),
    // white space between tokens that touch and that don't
    ("when (", 0, " \n "),
    ("when (efTest(f) ", 1, "&&\n"),
    ("when (efTest(f) ", 0, "\n\n\t"),
    ("pvPut(x);", 1, "\n\n"),
    ("} state s2\n}", 2, "\n"),
    ("int x;", 0, "\n"),
    ("int", 0, "\n"),
    ("@ ", 0, "\n"),
    ("@", 1, "\n\n"),
    // between the two first tokens of an item, and after them
    ("program", 0, "\n"),
    ("program p", 0, "\n"),
    ("ss", 0, "\n/* a */\n"),
    ("ss a", 0, "\n"),
    ("\nstate", 0, "\n\n"),
    ("\nstate\t", 0, "\n\n"),
    ("state\ts2", 0, "\n\n"),
    ("next */ ss /* ", 0, "\n"),
    // line markers
    ("state s1 {\n", 0, "# 9 \"c.st\"\n"),
    ("} state s2\n}\n", 0, "#line 12\n"),
    // inside tokens
    ("prog", 0, " "),
    ("\"dev", 0, "\n"),
    ("%%local", 0, " "),
    ("option -t", 0, " "),
    ("option +r", 0, "\n"),
    ("s", 0, ""),
];

// The same of edits inside items.
static INSIDE: [(&str, usize, &str); 16] = [
    // a state that says what it said
    ("v = ", 1, "23"),
    ("v = 1;", 0, " v = 2;"),
    // a state that turns faulty, and sound again; it may be the first of its set, or the only one
    ("pvPut(x)", 1, ""),
    ("s3 { when () { } exi", 1, ""),
    ("when () { } state ", 2, ""),
    ("delay(1", 1, ""),
    // one that leads elsewhere, nowhere, or to itself
    ("} state s", 1, "3"),
    ("when () { } state s", 1, "1"),
    ("when () { } ", 8, "exit"),
    ("s3 { when () { } ", 4, "state s3"),
    // one that says something else in its conditions
    ("&& ", 1, "y"),
    ("x > 3", 0, " || x[2]"),
    ("efTest(", 1, "x"),
    // an item of a set that is no state, one in no set, and a state in no set
    ("q { int b", 1, ""),
    ("r { int a", 1, ""),
    ("lost { when () { } exi", 1, ""),
];

// A session over a text, and the text.
#[derive(Drop)]
struct Edited {
    session: Session,
    text: Vec<u8>,
}

// The bytes of a text from `start` up to `stop`; none where there is no such range.
fn part(text: &[u8], start: usize, stop: usize) -> &[u8] {
    text.get(start..stop).unwrap_or(&[])
}

impl Edited {
    fn over(alloc: Global, front: &str) -> Result<Edited, Fail> {
        let mut text = Vec::from_slice(alloc, front.as_bytes())?;
        text.extend_from_slice(TEXT.as_bytes())?;
        let (session, _) = Session::over(alloc, Vec::from_slice(alloc, &text)?)?;
        Ok(Edited { session, text })
    }

    // Compares the session with one that gets the text in one edit.
    fn expect_as_new(&self, rt: &impl Abort, alloc: Global) -> Result<(), Fail> {
        let mut new = Session::new(alloc)?;
        new.edit(0, 0, &self.text)?;
        assert_eq!(rt; self.session.text(), self.text.as_slice());
        assert_eq!(rt;
            self.session.diagnostics(),
            new.diagnostics(),
            "of {:?}",
            self.text
        );
        let listing = new.listing()?;
        assert_eq!(rt;
            self.session.listing()?.as_str(),
            listing.as_str(),
            "of {:?}",
            self.text
        );
        Ok(())
    }

    // Makes an edit, and compares.
    fn edit(
        &mut self,
        rt: &impl Abort,
        alloc: Global,
        start: usize,
        stop: usize,
        new: &[u8],
    ) -> Result<(), Fail> {
        let mut text = Vec::from_slice(alloc, part(&self.text, 0, start))?;
        text.extend_from_slice(new)?;
        text.extend_from_slice(part(&self.text, stop, self.text.len()))?;
        self.session.edit(start, stop, new)?;
        self.text = text;
        self.expect_as_new(rt, alloc)
    }
}

// Makes an edit after the first place of some bytes in a text with this front, and undoes it.
fn expect_as_new_after(
    rt: &impl Abort,
    alloc: Global,
    front: &str,
    after: &str,
    takes: usize,
    puts: &str,
) -> Result<(), Fail> {
    let mut edited = Edited::over(alloc, front)?;
    let Some(place) = TEXT.find(after) else {
        panic!(rt; "{after} is not in the text")
    };
    let start = front.len().wrapping_add(place).wrapping_add(after.len());
    let stop = start.wrapping_add(takes);
    let taken = Vec::from_slice(alloc, part(&edited.text, start, stop))?;
    edited.edit(rt, alloc, start, stop, puts.as_bytes())?;
    edited.edit(rt, alloc, start, start.wrapping_add(puts.len()), &taken)
}

#[test]
fn white_space_and_comments_shift_the_rest(rt: HostRuntime) -> Result<(), Fail> {
    for front in FRONTS {
        for (after, takes, puts) in &ROWS {
            expect_as_new_after(&rt, rt.alloc(), front, after, *takes, puts)?;
        }
    }
    Ok(())
}

#[test]
fn edits_inside_items_change_their_set(rt: HostRuntime) -> Result<(), Fail> {
    for front in FRONTS {
        for (after, takes, puts) in &INSIDE {
            expect_as_new_after(&rt, rt.alloc(), front, after, *takes, puts)?;
        }
    }
    Ok(())
}
