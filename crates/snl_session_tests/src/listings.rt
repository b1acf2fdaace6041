//! Texts with their listings, and with the wake-up set of their first state.

use snl_session::Session;
use snl_tables::{wake_channels, wake_flags};
use std::test::Fail;

static LISTINGS: [(&[u8], &str); 3] = [
    (b"", "program -\n"),
    (
        b"program p\nint x;\nassign x to \"dev:x\";\nmonitor x;\nevflag f;\nsync x to f;\nss a {\nstate s1 {\nwhen (efTest(f) && x > 3) {\npvPut(x);\n} state s2\n}\nstate s2 {\nwhen () { } state s1\n}\n}\n",
        "program p\nflag 1 f program\nchannel 0 x program \"dev:x\" monitor sync 1\nss a line 7\nstate s1 line 8 reached\n  when 0 s2\n  wake f1 c0\nstate s2 line 13 reached\n  when 0 s1\n  wake -\n",
    ),
    (
        b"program p int x; assign x to \"\xc3\xa4\"; ss s { state i { when () { } state j } }",
        "program p\nchannel 0 x program \"\\xc3\\xa4\"\nss s line 1\nstate i line 1 reached\n  when 0 j ?\n  wake -\n",
    ),
];

#[test]
fn listings_of_texts(rt: HostRuntime) -> Result<(), Fail> {
    for (text, listing) in &LISTINGS {
        let mut session = Session::new(rt.alloc())?;
        session.edit(0, 0, text)?;
        assert_eq!(rt; session.listing()?.as_str(), *listing);
    }
    Ok(())
}

static WAKE_UPS: [(&[u8], &[usize], &[usize]); 2] = [
    (
        b"program q evflag e; int a[3]; assign a to {\"p\",\"q\",\"r\"}; evflag f; ss s { state i { when (a[2] > a[1] && efTest(f)) { } exit } }",
        &[2],
        &[1, 2],
    ),
    (
        b"program q evflag e; int a[3]; assign a to {\"p\",\"q\",\"r\"}; evflag f; ss s { state i { when (f || a[e] || a) { } exit } }",
        &[1, 2],
        &[0, 1, 2],
    ),
];

#[test]
fn wake_up_sets_of_texts(rt: HostRuntime) -> Result<(), Fail> {
    for (text, flags, channels) in &WAKE_UPS {
        let mut session = Session::new(rt.alloc())?;
        session.edit(0, 0, text)?;
        let tables = session.tables();
        let set = tables.sets.get(0).ok_or("no state set")?;
        let state = set.states.get(0).ok_or("no state")?;
        assert_eq!(rt; wake_flags(rt.alloc(), tables, state)?.as_slice(), *flags);
        assert_eq!(rt;
            wake_channels(rt.alloc(), tables, state)?.as_slice(),
            *channels
        );
    }
    Ok(())
}
