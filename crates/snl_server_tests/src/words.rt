//! What a message asks, as words.

use snl_hear::{Change, Message, Notification, Request};
use snl_place::{Encoding, Place};
use snl_say::Id;
use std::alloc::Global;
use std::test::Fail;

/// Adds bytes, and a space after them.
fn add_word(words: &mut Vec<u8>, word: &[u8]) -> Result<(), Fail> {
    words.extend_from_slice(word)?;
    words.push(b' ')?;
    Ok(())
}

/// Adds bytes in quotes, and a space after them.
fn add_quoted(words: &mut Vec<u8>, text: &str) -> Result<(), Fail> {
    words.push(b'\'')?;
    words.extend_from_slice(text.as_bytes())?;
    add_word(words, b"'")
}

/// Adds `LINE:CHARACTER`.
fn add_place(alloc: Global, words: &mut Vec<u8>, place: Place) -> Result<(), Fail> {
    let Place { line, character } = place;
    add_word(words, format!(in alloc; "{line}:{character}")?.as_bytes())
}

fn add_id(alloc: Global, words: &mut Vec<u8>, id: Id<'_>) -> Result<(), Fail> {
    match id {
        Id::Unsigned(number) => add_word(words, format!(in alloc; "{number}")?.as_bytes()),
        Id::Negative(number) => add_word(words, format!(in alloc; "below {number}")?.as_bytes()),
        Id::Text(bytes) => {
            add_word(words, b"text")?;
            add_word(words, bytes)
        }
    }
}

fn add_request(alloc: Global, words: &mut Vec<u8>, request: Request<'_>) -> Result<(), Fail> {
    match request {
        Request::Initialize(Encoding::Utf8) => add_word(words, b"initialize utf-8"),
        Request::Initialize(Encoding::Utf16) => add_word(words, b"initialize utf-16"),
        Request::Shutdown => add_word(words, b"shutdown"),
        Request::OfDocument { uri, question } => {
            add_word(words, uri.as_bytes())?;
            add_word(words, format!(in alloc; "{question:?}")?.as_bytes())
        }
        Request::InvalidParams => add_word(words, b"invalid params"),
        Request::MethodNotFound => add_word(words, b"method not found"),
    }
}

fn add_document(
    alloc: Global,
    words: &mut Vec<u8>,
    uri: &str,
    version: Option<u64>,
) -> Result<(), Fail> {
    add_word(words, uri.as_bytes())?;
    match version {
        Some(version) => add_word(words, format!(in alloc; "{version}")?.as_bytes()),
        None => add_word(words, b"-"),
    }
}

fn add_change(alloc: Global, words: &mut Vec<u8>, change: &Change<'_>) -> Result<(), Fail> {
    match change {
        Change::Whole(text) => add_quoted(words, text),
        Change::Part { start, stop, text } => {
            add_place(alloc, words, *start)?;
            add_place(alloc, words, *stop)?;
            add_quoted(words, text)
        }
    }
}

fn add_changes(alloc: Global, words: &mut Vec<u8>, changes: &[Change<'_>]) -> Result<(), Fail> {
    for change in changes {
        add_change(alloc, words, change)?;
    }
    Ok(())
}

fn add_told(alloc: Global, words: &mut Vec<u8>, told: &Notification<'_>) -> Result<(), Fail> {
    match told {
        Notification::Initialized => add_word(words, b"initialized"),
        Notification::Exit => add_word(words, b"exit"),
        Notification::DidOpen { uri, version, text } => {
            add_word(words, b"opened")?;
            add_document(alloc, words, uri, *version)?;
            add_quoted(words, text)
        }
        Notification::DidChange {
            uri,
            version,
            changes,
        } => {
            add_word(words, b"changed")?;
            add_document(alloc, words, uri, *version)?;
            add_changes(alloc, words, changes)
        }
        Notification::DidClose { uri } => {
            add_word(words, b"closed")?;
            add_word(words, uri.as_bytes())
        }
        Notification::InvalidParams { uri: Some(uri) } => {
            add_word(words, b"lost")?;
            add_word(words, uri.as_bytes())
        }
        Notification::InvalidParams { uri: None } => add_word(words, b"all lost"),
        Notification::Other => add_word(words, b"other"),
    }
}

/// Adds what a message asks, each word with a space after it.
pub fn add_message(alloc: Global, words: &mut Vec<u8>, message: &Message<'_>) -> Result<(), Fail> {
    match message {
        Message::NoJson => add_word(words, b"no JSON"),
        Message::NoMessage => add_word(words, b"no message"),
        Message::Response => add_word(words, b"response"),
        Message::Request { id, request } => {
            add_id(alloc, words, *id)?;
            add_request(alloc, words, *request)
        }
        Message::Notification(told) => add_told(alloc, words, told),
    }
}
