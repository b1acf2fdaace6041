//! Texts with the listing of the tables that are made by their pieces, told from the language's
//! rules.

use snl_listing::listing;
use snl_reading::tables_in;
use std::alloc::Global;
use std::test::Fail;

static TEXTS: [(&str, &str); 10] = [
    (
        "program p\nint x;\nassign x to \"dev:x\";\nmonitor x;\nevflag f;\nsync x to f;\nss a {\nstate s1 {\nwhen (efTest(f) && x > 3) {\npvPut(x);\n} state s2\n}\nstate s2 {\nwhen () { } state s1\n}\n}\n",
        "program p\nflag 1 f program\nchannel 0 x program \"dev:x\" monitor sync 1\nss a line 7\nstate s1 line 8 reached\n  when 0 s2\n  wake f1 c0\nstate s2 line 13 reached\n  when 0 s1\n  wake -\n",
    ),
    (
        "program q\nint a[N];\nassign a to {\"p\",\"q\",\"r\"};\nss s { state i { when () { } exit } }",
        "program q\nchannel 0 a[0] program \"p\"\nchannel 1 a[1] program \"q\"\nchannel 2 a[2] program \"r\"\nss s line 4\nstate i line 4 reached\n  when 0 exit\n  wake -\n",
    ),
    (
        "program q int a[3]; assign a to {\"p\",\"q\",\"r\"}; evflag f; ss s { state i { when (a[1] > 0 && efTest(f)) { } exit } }",
        "program q\nflag 1 f program\nchannel 0 a[0] program \"p\"\nchannel 1 a[1] program \"q\"\nchannel 2 a[2] program \"r\"\nss s line 1\nstate i line 1 reached\n  when 0 exit\n  wake f1 c1\n",
    ),
    (
        "program q int a[3]; assign a to {\"p\",\"q\",\"r\"}; evflag f; ss s { state i { when (a[i] > 0 && efTest(f)) { } exit } }",
        "program q\nflag 1 f program\nchannel 0 a[0] program \"p\"\nchannel 1 a[1] program \"q\"\nchannel 2 a[2] program \"r\"\nss s line 1\nstate i line 1 reached\n  when 0 exit\n  wake f1 c0 c1 c2\n",
    ),
    (
        "program r\nss s {\nstate i { when (a()) { state z; } state i }\nstate z { when () { } exit }\n}\n",
        "program r\nss s line 2\nstate i line 3 reached\n  when 0 i\n  goto z\n  wake -\nstate z line 4 reached\n  when 0 exit\n  wake -\n",
    ),
    (
        "program q int x; int y; evflag f; assign x to \"a\"; assign y; syncq x 5; syncq y to f; ss s { state i { when () { } exit } }",
        "program q\nflag 1 f program\nchannel 0 x program \"a\" syncq - 5\nchannel 1 y program \"\" syncq 1 default\nss s line 1\nstate i line 1 reached\n  when 0 exit\n  wake -\n",
    ),
    // line markers give files
    (
        "# 10 \"a.st\"\nprogram p\nint x;\nassign x to \"dev:x\";\nmonitor x;\nevflag f;\nsync x to f;\nss a {\nstate s1 {\nwhen (efTest(f) && x > 3) {\npvPut(x);\n} state s2\n}\nstate s2x {\nwhen () { } state s1\n}\n}\n",
        "program p\nflag 1 f program\nchannel 0 x program \"dev:x\" monitor sync 1\nss a line 16 in \"a.st\"\nstate s1 line 17 in \"a.st\" reached\n  when 0 s2 ?\n  wake f1 c0\nstate s2x line 22 in \"a.st\" unreached\n  when 0 s1\n  wake -\n",
    ),
    // an item that has no tree
    (
        "option +s; option -s; ss a { state i { ( } state k { option +t; when () { } exit } }",
        "program -\noption -s\nss a line 1\nstate i line 1 faulty\nstate k line 1 unknown\n  option +t\n  when 0 exit\n  wake -\n",
    ),
    // many state sets, a smaller one and a faulty one between two larger ones
    (
        "program p\nss a {\nstate i { when () { } state k }\nstate j { when () { } state i }\nstate k { when () { } state j }\n}\nss b {\nstate i { when () { } exit }\nstate j { when () { } state i }\n}\nss c {\nstate i { ( }\nstate k { when () { } exit }\n}\nss d {\nstate i { when () { } state k }\nstate j { when () { } exit }\nstate k { when () { } exit }\n}\n",
        "program p\nss a line 2\nstate i line 3 reached\n  when 0 k\n  wake -\nstate j line 4 reached\n  when 0 i\n  wake -\nstate k line 5 reached\n  when 0 j\n  wake -\nss b line 7\nstate i line 8 reached\n  when 0 exit\n  wake -\nstate j line 9 unreached\n  when 0 i\n  wake -\nss c line 11\nstate i line 12 faulty\nstate k line 13 unknown\n  when 0 exit\n  wake -\nss d line 15\nstate i line 16 reached\n  when 0 k\n  wake -\nstate j line 17 unreached\n  when 0 exit\n  wake -\nstate k line 18 reached\n  when 0 exit\n  wake -\n",
    ),
    ("", "program -\n"),
];

fn listing_of(alloc: Global, text: &[u8]) -> Result<String, Fail> {
    let tables = tables_in(alloc, text)?;
    Ok(listing(alloc, text, &tables)?)
}

#[test]
fn tables_of_texts(rt: HostRuntime) -> Result<(), Fail> {
    for (text, wanted) in &TEXTS {
        let told = listing_of(rt.alloc(), text.as_bytes())?;
        assert!(rt; told.as_str() == *wanted, "{text} has {told}");
    }
    Ok(())
}
