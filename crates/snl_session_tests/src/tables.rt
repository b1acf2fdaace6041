//! Texts with the rows of their tables, told from the language's rules; and the tables of a session
//! after each edit and after a refused one.

use snl_lex::Line;
use snl_session::{
    ChannelRow, Destination, FlagRow, NamedState, OptionRow, Queue, Refused, ScopeName, Session,
    SetRow, Span, StateMark, StateRow, Synced, WakeUp,
};
use sqlite_items::Items;
use std::alloc::Global;
use std::process::Abort;
use std::test::Fail;

// A session over a text.
fn session_over(alloc: Global, text: &[u8]) -> Result<Session, Refused> {
    let mut session = Session::new(alloc)?;
    session.edit(0, 0, text)?;
    Ok(session)
}

fn add_number(words: &mut Vec<u8>, number: usize) -> Result<(), Fail> {
    if number >= 10 {
        words.push(b'0' + (number / 10 % 10) as u8)?;
    }
    words.push(b'0' + (number % 10) as u8)?;
    Ok(())
}

fn add_span(text: &[u8], span: Span, words: &mut Vec<u8>) -> Result<(), Fail> {
    if span.start <= text.len() && span.len <= text.len() - span.start {
        words.extend_from_slice(&text[span.start..span.start + span.len])?;
    }
    Ok(())
}

fn add_scope(text: &[u8], scope: ScopeName, words: &mut Vec<u8>) -> Result<(), Fail> {
    match scope {
        ScopeName::Program => words.extend_from_slice(b" program")?,
        ScopeName::StateSet(set) => {
            words.push(b' ')?;
            add_span(text, set, words)?;
        }
        ScopeName::State { set, state } => {
            words.push(b' ')?;
            match set {
                Some(set) => add_span(text, set, words)?,
                None => words.push(b'-')?,
            }
            words.push(b'.')?;
            add_span(text, state, words)?;
        }
    }
    Ok(())
}

fn add_option(option: OptionRow, words: &mut Vec<u8>) -> Result<(), Fail> {
    words.extend_from_slice(b"option ")?;
    words.push(if option.is_set { b'+' } else { b'-' })?;
    words.push(option.letter)?;
    words.push(b'\n')?;
    Ok(())
}

fn add_flag(text: &[u8], flag: FlagRow, words: &mut Vec<u8>) -> Result<(), Fail> {
    words.extend_from_slice(b"flag ")?;
    add_span(text, flag.name, words)?;
    add_scope(text, flag.scope, words)?;
    words.push(b'\n')?;
    Ok(())
}

fn add_sync(sync: Synced, words: &mut Vec<u8>) -> Result<(), Fail> {
    words.extend_from_slice(match sync.queue {
        Queue::Unqueued => b" sync ".as_slice(),
        _ => b" syncq ".as_slice(),
    })?;
    match sync.flag {
        Some(number) => add_number(words, number)?,
        None => words.push(b'-')?,
    }
    match sync.queue {
        Queue::Unqueued => {}
        Queue::Default => words.extend_from_slice(b" default")?,
        Queue::Length(length) => {
            words.push(b' ')?;
            add_number(words, length as usize)?;
        }
    }
    Ok(())
}

fn add_channel(text: &[u8], channel: &ChannelRow, words: &mut Vec<u8>) -> Result<(), Fail> {
    words.extend_from_slice(b"channel ")?;
    add_span(text, channel.variable, words)?;
    if let Some(element) = channel.element {
        words.push(b'[')?;
        add_number(words, element as usize)?;
        words.push(b']')?;
    }
    add_scope(text, channel.scope, words)?;
    words.extend_from_slice(b" \"")?;
    words.extend_from_slice(channel.pv.bytes())?;
    words.push(b'"')?;
    if channel.is_monitored {
        words.extend_from_slice(b" monitor")?;
    }
    if let Some(sync) = channel.sync {
        add_sync(sync, words)?;
    }
    words.push(b'\n')?;
    Ok(())
}

fn add_named(text: &[u8], named: NamedState, words: &mut Vec<u8>) -> Result<(), Fail> {
    words.push(b' ')?;
    add_span(text, named.name, words)?;
    if !named.is_known {
        words.extend_from_slice(b" ?")?;
    }
    words.push(b'\n')?;
    Ok(())
}

fn add_transitions(
    text: &[u8],
    transitions: &[Destination],
    words: &mut Vec<u8>,
) -> Result<(), Fail> {
    for (number, transition) in transitions.iter().enumerate() {
        words.extend_from_slice(b"when ")?;
        add_number(words, number)?;
        match transition {
            Destination::State(named) => add_named(text, *named, words)?,
            Destination::Exit => words.extend_from_slice(b" exit\n")?,
        }
    }
    Ok(())
}

fn add_line(text: &[u8], line: Line, words: &mut Vec<u8>) -> Result<(), Fail> {
    words.extend_from_slice(b" line ")?;
    add_number(words, line.number)?;
    if let Some((start, len)) = line.file {
        words.extend_from_slice(b" in ")?;
        add_span(text, Span { start, len }, words)?;
    }
    Ok(())
}

fn add_wake(wake: &[WakeUp], words: &mut Vec<u8>) -> Result<(), Fail> {
    words.extend_from_slice(b"wake")?;
    for meant in wake {
        let (letter, number) = match meant {
            WakeUp::Flag(number) => (b'f', *number),
            WakeUp::Channel(number) => (b'c', *number),
            WakeUp::Variable(number) => (b'v', *number),
        };
        words.push(b' ')?;
        words.push(letter)?;
        add_number(words, number)?;
    }
    words.push(b'\n')?;
    Ok(())
}

fn add_state(text: &[u8], state: &StateRow, words: &mut Vec<u8>) -> Result<(), Fail> {
    words.extend_from_slice(b"state ")?;
    add_span(text, state.name, words)?;
    add_line(text, state.line, words)?;
    words.extend_from_slice(match state.mark {
        StateMark::Faulty => b" faulty\n".as_slice(),
        StateMark::Repeated => b" repeated\n".as_slice(),
        StateMark::Unknown => b" unknown\n".as_slice(),
        StateMark::Reached => b" reached\n".as_slice(),
        StateMark::Unreached => b" unreached\n".as_slice(),
    })?;
    for option in state.options.as_slice() {
        add_option(*option, words)?;
    }
    add_transitions(text, state.transitions.as_slice(), words)?;
    for goto in state.gotos.as_slice() {
        words.extend_from_slice(b"goto")?;
        add_named(text, *goto, words)?;
    }
    add_wake(state.wake.as_slice(), words)
}

fn add_set(text: &[u8], set: &SetRow, words: &mut Vec<u8>) -> Result<(), Fail> {
    words.extend_from_slice(b"ss ")?;
    add_span(text, set.name, words)?;
    add_line(text, set.line, words)?;
    words.push(b'\n')?;
    for state in set.states.as_slice() {
        add_state(text, state, words)?;
    }
    Ok(())
}

fn add_variables(variables: &[Items<usize>], words: &mut Vec<u8>) -> Result<(), Fail> {
    for (number, channels) in variables.iter().enumerate() {
        if channels.is_empty() {
            continue;
        }
        words.extend_from_slice(b"variable ")?;
        add_number(words, number)?;
        for channel in channels.as_slice() {
            words.extend_from_slice(b" c")?;
            add_number(words, *channel)?;
        }
        words.push(b'\n')?;
    }
    Ok(())
}

// The rows of the tables of a session's text. Of a number two digits are written.
fn lines(alloc: Global, session: &Session) -> Result<Vec<u8>, Fail> {
    let text = session.text();
    let tables = session.tables();
    let mut words = Vec::from_slice(alloc, b"program ")?;
    match tables.program {
        Some(name) => add_span(text, name, &mut words)?,
        None => words.push(b'-')?,
    }
    words.push(b'\n')?;
    for option in tables.options.as_slice() {
        add_option(*option, &mut words)?;
    }
    for flag in tables.flags.as_slice() {
        add_flag(text, *flag, &mut words)?;
    }
    for channel in tables.channels.as_slice() {
        add_channel(text, channel, &mut words)?;
    }
    add_variables(tables.variables.as_slice(), &mut words)?;
    for set in tables.sets.as_slice() {
        add_set(text, set, &mut words)?;
    }
    Ok(words)
}

// A text, and the rows of its tables.
static TEXTS: [(&[u8], &[u8]); 19] = [
    (
        b"program p\nint x;\nassign x to \"dev:x\";\nmonitor x;\nevflag f;\nsync x to f;\nss a {\nstate s1 {\nwhen (efTest(f) && x > 3) {\npvPut(x);\n} state s2\n}\nstate s2 {\nwhen () { } state s1\n}\n}\n",
        b"program p\nflag f program\nchannel x program \"dev:x\" monitor sync 1\nvariable 0 c0\nss a line 7\nstate s1 line 8 reached\nwhen 0 s2\nwake f1 v0\nstate s2 line 13 reached\nwhen 0 s1\nwake\n",
    ),
    (
        b"program q\nint a[2];\nassign a to {\"p\",\"q\",\"r\"};\nss s { state i { when () { } exit } }",
        b"program q\nss s line 4\nstate i line 4 reached\nwhen 0 exit\nwake\n",
    ),
    (
        b"program q\nint a[N];\nassign a to {\"p\",\"q\",\"r\"};\nss s { state i { when () { } exit } }",
        b"program q\nchannel a[0] program \"p\"\nchannel a[1] program \"q\"\nchannel a[2] program \"r\"\nvariable 0 c0 c1 c2\nss s line 4\nstate i line 4 reached\nwhen 0 exit\nwake\n",
    ),
    (
        b"program q int a[3]; assign a to {\"p\",\"q\",\"r\"}; evflag f; ss s { state i { when (a[1] > 0 && efTest(f)) { } exit } }",
        b"program q\nflag f program\nchannel a[0] program \"p\"\nchannel a[1] program \"q\"\nchannel a[2] program \"r\"\nvariable 0 c0 c1 c2\nss s line 1\nstate i line 1 reached\nwhen 0 exit\nwake c1 f1\n",
    ),
    (
        b"program q int a[3]; assign a to {\"p\",\"q\",\"r\"}; evflag f; ss s { state i { when (a[i] > 0 && efTest(f)) { } exit } }",
        b"program q\nflag f program\nchannel a[0] program \"p\"\nchannel a[1] program \"q\"\nchannel a[2] program \"r\"\nvariable 0 c0 c1 c2\nss s line 1\nstate i line 1 reached\nwhen 0 exit\nwake v0 f1\n",
    ),
    (
        b"int a[9]; int b; assign a[2] \"x\"; assign b \"y\"; ss s { state i { when (a[1] + a[02][k] + (a)[2] + b[7] + a[2].m + f(a) + c) { } exit } }",
        b"program -\nchannel a[2] program \"x\"\nchannel b program \"y\"\nvariable 0 c0\nvariable 1 c1\nss s line 1\nstate i line 1 reached\nwhen 0 exit\nwake c0 v0 v1 c0 v0\n",
    ),
    (
        b"ss a { state i { when () { } state j } state j { } state j { } state k { } } ss b { state i { ( } state k { when () { } exit } state i { } } ss c {",
        b"program -\nss a line 1\nstate i line 1 reached\nwhen 0 j\nwake\nstate j line 1 reached\nwake\nstate j line 1 repeated\nwake\nstate k line 1 unreached\nwake\nss b line 1\nstate i line 1 faulty\nwake\nstate k line 1 unknown\nwhen 0 exit\nwake\nstate i line 1 repeated\nwake\nss c line 1\n",
    ),
    (
        b"# 10 \"a.st\"\nss s {\n# 5\nstate i { }\n}",
        b"program -\nss s line 10 in a.st\nstate i line 5 in a.st reached\nwake\n",
    ),
    (
        b"program q int x; int y; evflag f; assign x to \"a\"; assign y; syncq x 5; syncq y to f;",
        b"program q\nflag f program\nchannel x program \"a\" syncq - 5\nchannel y program \"\" syncq 1 default\nvariable 0 c0\nvariable 1 c1\n",
    ),
    (b"", b"program -\n"),
    (b"program ;\nprogram r program t", b"program r\n"),
    (
        b"evflag g; int g; int f; evflag f; ss s { evflag f; state i { evflag h; when () { } exit } } state k { evflag h; }",
        b"program -\nflag g program\nflag f s\nflag h s.i\nflag h -.k\nss s line 1\nstate i line 1 reached\nwhen 0 exit\nwake\n",
    ),
    (
        b"int a[4]; assign a[3] to \"x\" /* */ \"y\\\"\"\n\"z\"; assign a[1] \"w\"; monitor a[03]; evflag e, f; sync a[1] to f; syncq a 2;",
        b"program -\nflag e program\nflag f program\nchannel a[3] program \"xy\\\"z\" monitor\nchannel a[1] program \"w\" sync 2\nvariable 0 c0 c1\n",
    ),
    (
        b"int b[3]; assign b to {\"x\", \"y\"}; syncq b[1]; monitor b[0]; assign b to {}; monitor b; assign b[2] \"z\";",
        b"program -\nchannel b[0] program \"x\" monitor\nchannel b[1] program \"y\" monitor syncq - default\nchannel b[2] program \"z\" monitor\nvariable 0 c0 c1 c2\n",
    ),
    (
        b"int x; ss s { int x; assign x to \"p\"; state i { int x; assign x to \"q\"; when (x) { } exit } } assign x to \"r\"; assign x to \"again\";",
        b"program -\nchannel x s \"p\"\nchannel x s.i \"q\"\nchannel x program \"r\"\nvariable 0 c2\nvariable 2 c0\nvariable 4 c1\nss s line 1\nstate i line 1 reached\nwhen 0 exit\nwake v4\n",
    ),
    (
        b"program o option +scaW; option -sqt; option + ; ss s { option +d; } option -W; option +s;",
        b"program o\noption -W\noption +a\noption +c\noption +s\nss s line 1\n",
    ),
    (
        b"option -wrmlie; option +dc; option -a; option +se;",
        b"program -\noption -a\noption +c\noption +d\noption +e\noption -i\noption -l\noption -m\noption -r\noption +s\noption -w\n",
    ),
    (
        b"program r\nss s {\nstate i { when (a()) { state z; } state i }\nstate z { when () { } exit }\n}\n",
        b"program r\nss s line 2\nstate i line 3 reached\nwhen 0 i\ngoto z\nwake\nstate z line 4 reached\nwhen 0 exit\nwake\n",
    ),
    (
        b"state k { when () { } exit } ss a { int x; state i { option +xt; when () { if (1) state j; else { state q; } } state r option -t; entry { state i; } when () { } state i } state j } ss b { state i ( } state { } } state l { } ss c {",
        b"program -\nss a line 1\nstate i line 1 unknown\noption -t\noption +x\nwhen 0 r ?\nwhen 1 i\ngoto j\ngoto q ?\nwake\nstate j line 1 faulty\nwake\nss b line 1\nstate i line 1 faulty\nwake\nss c line 1\n",
    ),
];

#[test]
fn tables_of_texts(rt: HostRuntime) -> Result<(), Fail> {
    for (text, told) in &TEXTS {
        let session = session_over(rt.alloc(), text)?;
        assert_eq!(rt; lines(rt.alloc(), &session)?.as_slice(), *told);
    }
    Ok(())
}

// Edits of one session in turn: a range, the number of the text in TEXTS that is put there, and the
// number of the text whose tables the session has after it.
static EDITS: [(usize, usize, usize, usize); 5] = [
    (0, 0, 0, 0),
    (0, 178, 9, 0),
    (1, 0, 4, 0),
    (0, 177, 4, 4),
    (0, 115, 9, 9),
];

#[test]
fn tables_after_edits(rt: HostRuntime) -> Result<(), Fail> {
    let mut session = Session::new(rt.alloc())?;
    for (start, stop, new, text) in &EDITS {
        if *new < TEXTS.len() && *text < TEXTS.len() {
            let refused = session.edit(*start, *stop, TEXTS[*new].0).is_err();
            assert_eq!(rt; refused, *stop == 178 || start > stop);
            assert_eq!(rt; lines(rt.alloc(), &session)?.as_slice(), TEXTS[*text].1);
        }
    }
    Ok(())
}
