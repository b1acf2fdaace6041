//! A message to the user, as the notification `window/showMessage`.
//! In: the message and its severity. Out: the bytes of the notification, after those that are
//! there. Knows nothing of documents.

ghost use Rattle.std.specs.Prelude.{◌≡◌, ◌++◌, OnOk, codes};
ghost use Rattle.snl_say.specs.Notices.{message_end, message_head, message_text};

use crate::bytes::put_quoted;
use crate::severity::Severity;
use std::alloc::AllocError;

#[tactic(auto, unfolding(crate::specs::Notices::message_head))]
fn message_head() -> &'static [u8]
    ensures { result.now ≡ message_head }
{
    b"{\"jsonrpc\":\"2.0\",\"method\":\"window/showMessage\",\"params\":{\"message\":"
}

/// What is after the message.
fn message_end(severity: Severity) -> &'static [u8]
    ensures { result.now ≡ message_end severity }
{
    match severity {
        Severity::Error => b",\"type\":1}}",
        Severity::Warning => b",\"type\":2}}",
    }
}

/// A message that the client shows to its user. An `Err`, of memory, may leave a front of the
/// bytes.
pub fn put_message(out: &mut Vec<u8>, severity: Severity, message: &[u8]) -> Result<(), AllocError>
    ensures { OnOk result (out.new.items ≡ out.old.items ++ message_text severity message.now) }
{
    out.extend_from_slice(message_head())?;
    put_quoted(out, message)?;
    out.extend_from_slice(message_end(severity))?;
    Ok(())
}
