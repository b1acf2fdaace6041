//! The words of the command line, and sources that are read from files.
//! In: words; readers that give few bytes a call and fail. Out: the path that is named, the bytes
//! of the source.

use crate::fakes::Pieces;
use snl_run::{SourceFault, Watched, read_source};
use snl_words::{WordsFault, source_of};
use std::io;
use std::io::{ErrorKind, Read};
use std::test::Fail;

#[test]
fn takes_the_source_from_the_words(rt: HostRuntime) {
    for (words, want) in [
        (["snl_cli"].as_slice(), Ok(None)),
        (["snl_cli", "--source", "f"].as_slice(), Ok(Some("f"))),
        (["snl_cli", "--source=f"].as_slice(), Ok(Some("f"))),
        (["snl_cli", "--source", "a b"].as_slice(), Ok(Some("a b"))),
        (["snl_cli", "--source=-f"].as_slice(), Ok(Some("-f"))),
        (["snl_cli", "--source="].as_slice(), Ok(Some(""))),
        (["snl_cli", "--source"].as_slice(), Err(WordsFault::Usage)),
        (
            ["snl_cli", "--source", "-f"].as_slice(),
            Err(WordsFault::Usage),
        ),
        (
            ["snl_cli", "--source", "f", "--source", "g"].as_slice(),
            Err(WordsFault::Usage),
        ),
        (
            ["snl_cli", "--sauce", "f"].as_slice(),
            Err(WordsFault::Usage),
        ),
        (["snl_cli", "f"].as_slice(), Err(WordsFault::Usage)),
        (["snl_cli", "--help"].as_slice(), Err(WordsFault::Usage)),
        (["snl_cli", "-h"].as_slice(), Err(WordsFault::Usage)),
    ] {
        let source = source_of(rt.alloc(), words);
        let said = match &source {
            Ok(Some(path)) => Ok(Some(path.as_str())),
            Ok(None) => Ok(None),
            Err(fault) => Err(*fault),
        };
        assert_eq!(rt; said, want, "at {words:?}");
    }
}

#[test]
fn reads_a_file_in_any_pieces(rt: HostRuntime) -> Result<(), Fail> {
    for (size, most, calls) in [
        (0, 1, 1),
        (1, 1, 2),
        (5000, 1, 5001),
        (5000, 9999, 3),
        (1_048_576, 9999, 257),
    ] {
        let bytes = vec![in rt.alloc(); b'x'; size]?;
        let mut file = Watched::new(Pieces::new(&bytes, most, calls));
        assert_eq!(rt;
            read_source(rt.alloc(), &mut file)?.as_slice(),
            bytes.as_slice()
        );
        assert_eq!(rt; file.calls(), calls, "at {size} bytes");
    }
    Ok(())
}

#[test]
fn tells_a_file_that_gives_no_source(rt: HostRuntime) -> Result<(), Fail> {
    for (size, calls, want, made) in [
        (0, 0, SourceFault::Unreadable, 1),
        (5000, 1, SourceFault::Unreadable, 2),
        (5000, 2, SourceFault::Unreadable, 3),
        (1_048_576, 256, SourceFault::Unreadable, 257),
        (1_048_577, 257, SourceFault::TooLarge, 257),
        (2_000_000, 9999, SourceFault::TooLarge, 257),
    ] {
        let bytes = vec![in rt.alloc(); b'x'; size]?;
        let mut file = Watched::new(Pieces::new(&bytes, 9999, calls));
        assert_eq!(rt;
            read_source(rt.alloc(), &mut file).err(),
            Some(want),
            "at {size} bytes"
        );
        assert_eq!(rt; file.calls(), made, "at {size} bytes");
    }
    Ok(())
}

/// Answers each read by saying that it was interrupted.
#[derive(Drop)]
struct Interrupted;

impl Read for Interrupted {
    fn read(&mut self, _buf: &mut [u8]) -> io::Result<usize> {
        Err(io::Error::from(ErrorKind::Interrupted))
    }
}

#[test]
fn takes_an_interrupted_read_as_a_fault(rt: HostRuntime) {
    let mut file = Watched::new(Interrupted);
    assert_eq!(rt;
        read_source(rt.alloc(), &mut file).err(),
        Some(SourceFault::Unreadable)
    );
    assert_eq!(rt; file.calls(), 1);
}
