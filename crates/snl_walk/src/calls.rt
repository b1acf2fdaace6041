//! What the built-in functions want as their first argument.

ghost use Rattle.std.specs.Prelude.{◌≡◌};
ghost use Rattle.snl_walk.specs.Calls.{acts_on_channel, asks_for_channel, asks_for_flag, role_by, role_in, tells_of_channel};
ghost use Rattle.snl_walk.specs.Tokens.{IsSource, bytes_in};

use crate::occurrence::ArgumentRole;
use crate::source::Source;
use snl_facts::are_same_bytes;

fn asks_for_flag(name: &[u8]) -> bool
    ensures { result ≡ asks_for_flag name.now }
{
    are_same_bytes(name, b"efSet")
        || are_same_bytes(name, b"efTest")
        || are_same_bytes(name, b"efClear")
        || are_same_bytes(name, b"efTestAndClear")
}

fn acts_on_channel(name: &[u8]) -> bool
    ensures { result ≡ acts_on_channel name.now }
{
    are_same_bytes(name, b"pvGet")
        || are_same_bytes(name, b"pvPut")
        || are_same_bytes(name, b"pvMonitor")
        || are_same_bytes(name, b"pvStopMonitor")
        || are_same_bytes(name, b"pvAssign")
}

fn tells_of_channel(name: &[u8]) -> bool
    ensures { result ≡ tells_of_channel name.now }
{
    are_same_bytes(name, b"pvConnected")
        || are_same_bytes(name, b"pvAssigned")
        || are_same_bytes(name, b"pvStatus")
        || are_same_bytes(name, b"pvSeverity")
        || are_same_bytes(name, b"pvTimeStamp")
}

fn asks_for_channel(name: &[u8]) -> bool
    ensures { result ≡ asks_for_channel name.now }
{
    acts_on_channel(name) || tells_of_channel(name)
}

fn role_by(name: &[u8]) -> ArgumentRole
    ensures { result ≡ role_by name.now }
{
    if asks_for_flag(name) {
        ArgumentRole::EventFlag
    } else if asks_for_channel(name) {
        ArgumentRole::Channel
    } else {
        ArgumentRole::Any
    }
}

/// The role of the first argument in the call of the name at this token, if it is one.
pub(crate) fn role_in(source: &Source, call: Option<usize>) -> ArgumentRole
    requires { IsSource source.now.text.now source.now.tokens.now }
    ensures { result ≡ role_in (bytes_in source.now) call }
{
    match call {
        Some(call) => role_by(source.bytes(call)),
        None => ArgumentRole::Any,
    }
}
