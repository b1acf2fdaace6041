//! Names that are free for what a text declares. In: a name. Out: whether the language leaves it
//! to programs.

ghost use Rattle.std.specs.Prelude.{◌≡◌, IfOk, IsTrue, bytes_eq};
ghost use Rattle.snl_rename.specs.Names.{IsFreeName, asks_for_array, asks_for_channel};
ghost use Rattle.snl_rename.specs.Names.{asks_for_flag, is_channel_constant, is_constant};
ghost use Rattle.snl_rename.specs.Names.{is_built_in, is_c_statement, is_c_storage, is_c_word};
ghost use Rattle.snl_rename.specs.Names.{is_of_program, is_one_name, acts_on_channel};
ghost use Rattle.snl_rename.specs.Names.{acts_on_queue, counts_channels, ends_request};
ghost use Rattle.snl_rename.specs.Names.{is_built_in_function, tells_of_channel};

use snl_cut::{Count, OutOfMemory};
use snl_facts::are_same_bytes;
use snl_lex::{Class, Piece, lex};
use std::alloc::Global;

/// The most bytes that a name may have.
const LONGEST: usize = 200;

fn is_constant(name: &[u8]) -> bool
    ensures { result ≡ is_constant name.now }
{
    are_same_bytes(name, b"TRUE")
        || are_same_bytes(name, b"FALSE")
        || are_same_bytes(name, b"SYNC")
        || are_same_bytes(name, b"ASYNC")
        || are_same_bytes(name, b"NOEVFLAG")
}

fn is_channel_constant(name: &[u8]) -> bool
    ensures { result ≡ is_channel_constant name.now }
{
    name.starts_with(b"pvStat") || name.starts_with(b"pvSevr")
}

fn asks_for_flag(name: &[u8]) -> bool
    ensures { result ≡ asks_for_flag name.now }
{
    are_same_bytes(name, b"efSet")
        || are_same_bytes(name, b"efTest")
        || are_same_bytes(name, b"efClear")
        || are_same_bytes(name, b"efTestAndClear")
}

fn acts_on_channel(name: &[u8]) -> bool
    ensures { result ≡ acts_on_channel name.now }
{
    are_same_bytes(name, b"pvGet")
        || are_same_bytes(name, b"pvPut")
        || are_same_bytes(name, b"pvMonitor")
        || are_same_bytes(name, b"pvStopMonitor")
        || are_same_bytes(name, b"pvAssign")
        || are_same_bytes(name, b"pvAssignSubst")
}

fn tells_of_channel(name: &[u8]) -> bool
    ensures { result ≡ tells_of_channel name.now }
{
    are_same_bytes(name, b"pvConnected")
        || are_same_bytes(name, b"pvAssigned")
        || are_same_bytes(name, b"pvStatus")
        || are_same_bytes(name, b"pvSeverity")
        || are_same_bytes(name, b"pvTimeStamp")
        || are_same_bytes(name, b"pvMessage")
        || are_same_bytes(name, b"pvName")
}

fn counts_channels(name: &[u8]) -> bool
    ensures { result ≡ counts_channels name.now }
{
    are_same_bytes(name, b"pvCount")
        || are_same_bytes(name, b"pvIndex")
        || are_same_bytes(name, b"pvChannelCount")
        || are_same_bytes(name, b"pvConnectCount")
        || are_same_bytes(name, b"pvAssignCount")
}

fn acts_on_queue(name: &[u8]) -> bool
    ensures { result ≡ acts_on_queue name.now }
{
    are_same_bytes(name, b"pvGetQ")
        || are_same_bytes(name, b"pvFreeQ")
        || are_same_bytes(name, b"pvFlushQ")
        || are_same_bytes(name, b"pvFlush")
        || are_same_bytes(name, b"pvSync")
}

fn ends_request(name: &[u8]) -> bool
    ensures { result ≡ ends_request name.now }
{
    are_same_bytes(name, b"pvGetComplete")
        || are_same_bytes(name, b"pvGetCancel")
        || are_same_bytes(name, b"pvPutComplete")
        || are_same_bytes(name, b"pvPutCancel")
}

fn asks_for_array(name: &[u8]) -> bool
    ensures { result ≡ asks_for_array name.now }
{
    are_same_bytes(name, b"pvArrayGetComplete")
        || are_same_bytes(name, b"pvArrayGetCancel")
        || are_same_bytes(name, b"pvArrayPutComplete")
        || are_same_bytes(name, b"pvArrayPutCancel")
        || are_same_bytes(name, b"pvArrayMonitor")
        || are_same_bytes(name, b"pvArrayStopMonitor")
        || are_same_bytes(name, b"pvArraySync")
        || are_same_bytes(name, b"pvArrayConnected")
}

fn is_of_program(name: &[u8]) -> bool
    ensures { result ≡ is_of_program name.now }
{
    are_same_bytes(name, b"delay")
        || are_same_bytes(name, b"optGet")
        || are_same_bytes(name, b"macValueGet")
}

fn asks_for_channel(name: &[u8]) -> bool
    ensures { result ≡ asks_for_channel name.now }
{
    acts_on_channel(name)
        || tells_of_channel(name)
        || counts_channels(name)
        || acts_on_queue(name)
        || ends_request(name)
}

fn is_built_in_function(name: &[u8]) -> bool
    ensures { result ≡ is_built_in_function name.now }
{
    asks_for_flag(name) || asks_for_channel(name) || asks_for_array(name) || is_of_program(name)
}

fn is_c_statement(name: &[u8]) -> bool
    ensures { result ≡ is_c_statement name.now }
{
    are_same_bytes(name, b"case")
        || are_same_bytes(name, b"default")
        || are_same_bytes(name, b"do")
        || are_same_bytes(name, b"goto")
        || are_same_bytes(name, b"switch")
}

fn is_c_storage(name: &[u8]) -> bool
    ensures { result ≡ is_c_storage name.now }
{
    are_same_bytes(name, b"auto")
        || are_same_bytes(name, b"extern")
        || are_same_bytes(name, b"inline")
        || are_same_bytes(name, b"register")
        || are_same_bytes(name, b"signed")
        || are_same_bytes(name, b"static")
        || are_same_bytes(name, b"typedef")
        || are_same_bytes(name, b"volatile")
}

fn is_c_word(name: &[u8]) -> bool
    ensures { result ≡ is_c_word name.now }
{
    is_c_statement(name) || is_c_storage(name)
}

fn is_built_in(name: &[u8]) -> bool
    ensures { result ≡ is_built_in name.now }
{
    is_constant(name) || is_channel_constant(name) || is_built_in_function(name) || is_c_word(name)
}

// Whether these pieces are one name of so many bytes.
fn is_one_name(pieces: &[Piece], len: usize) -> bool
    ensures { result ≡ is_one_name pieces.now len }
{
    match pieces {
        [piece] => piece.kind == Class::Name && piece.start == 0 && piece.len == len,
        _ => false,
    }
}

/// Whether a name is free.
pub fn is_free_name(alloc: Global, name: &[u8]) -> Result<bool, OutOfMemory>
    ensures { IfOk result (λ free. IsTrue free → IsFreeName name.now) }
{
    if name.len() > LONGEST || is_built_in(name) {
        return Ok(false);
    }
    let pieces = lex(alloc, name, &mut Count::new())?;
    Ok(is_one_name(&pieces, name.len()))
}
