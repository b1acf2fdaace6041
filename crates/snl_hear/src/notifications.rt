//! What a notification tells.
//! In: its method and its parameters. Out: what it tells.
//! Knows nothing of the documents that are open.

ghost use Rattle.std.specs.Prelude.{◌≡◌, IfOk, map, option_map};
ghost use Rattle.snl_hear.specs.Changes.{all_changes_in, changed_of};
ghost use Rattle.snl_hear.specs.Notifications.{changed_by, closed_by, noted_in, noted_of, notification_named, opened_by};
ghost use Rattle.snl_hear.specs.Documents.{text_in, uri_in, version_in};
ghost use Rattle.snl_hear.specs.Values.{seen};

use crate::changes::{Change, changes_in};
use crate::documents::{text_in, uri_in, version_in};
use crate::values::{items_of, member_of};
use json::Value;
use std::alloc::{AllocError, Global};

/// What a notification tells. A version is given where it is an integer of 64 bits, from 0 on.
#[derive(Drop)]
pub enum Notification<'a> {
    /// `initialized`
    Initialized,
    /// `exit`
    Exit,
    /// `textDocument/didOpen`
    DidOpen {
        uri: &'a str,
        version: Option<u64>,
        text: &'a str,
    },
    /// `textDocument/didChange`: each change is one of the text after those before it.
    DidChange {
        uri: &'a str,
        version: Option<u64>,
        changes: Vec<Change<'a>>,
    },
    /// `textDocument/didClose`
    DidClose {
        uri: &'a str,
    },
    /// `didOpen` or `didChange` with parameters that do not fit. The client goes on with a text
    /// that isn't known: of this document, or of any, where there is no URI.
    InvalidParams {
        uri: Option<&'a str>,
    },
    /// Any other method, or `didClose` without a URI. Nothing is done for it.
    Other,
}

/// The methods of notifications.
#[derive(Clone, Copy)]
enum NotificationMethod {
    Initialized,
    Exit,
    DidOpen,
    DidChange,
    DidClose,
    Other,
}

fn notification_named(name: &str) -> NotificationMethod
    ensures { result ≡ notification_named name.now }
{
    match name {
        "initialized" => NotificationMethod::Initialized,
        "exit" => NotificationMethod::Exit,
        "textDocument/didOpen" => NotificationMethod::DidOpen,
        "textDocument/didChange" => NotificationMethod::DidChange,
        "textDocument/didClose" => NotificationMethod::DidClose,
        _ => NotificationMethod::Other,
    }
}

fn did_open<'a>(params: Option<&Value<'a>>) -> Notification<'a>
    ensures { noted_of result ≡ opened_by (uri_in (option_map (λ v. seen v.now) params.entry))
        (version_in (option_map (λ v. seen v.now) params.entry))
        (text_in (option_map (λ v. seen v.now) params.entry)) }
{
    let Some(uri) = uri_in(params) else {
        return Notification::InvalidParams { uri: None };
    };
    let Some(text) = text_in(params) else {
        return Notification::InvalidParams { uri: Some(uri) };
    };
    let version = version_in(params);
    Notification::DidOpen { uri, version, text }
}

fn did_close<'a>(params: Option<&Value<'a>>) -> Notification<'a>
    ensures { noted_of result ≡ closed_by (uri_in (option_map (λ v. seen v.now) params.entry)) }
{
    match uri_in(params) {
        Some(uri) => Notification::DidClose { uri },
        None => Notification::Other,
    }
}

/// `{"contentChanges": [CHANGE, ..]}`
fn all_changes_in<'a>(
    alloc: Global,
    params: Option<&Value<'a>>,
) -> Result<Option<Vec<Change<'a>>>, AllocError>
    ensures { IfOk result (λ told. option_map (λ v. map (λ change. changed_of change) v.items) told
        ≡ all_changes_in (option_map (λ v. seen v.now) params.entry)) }
{
    let Some(params) = params else {
        return Ok(None);
    };
    let Some(changes) = member_of(params, "contentChanges") else {
        return Ok(None);
    };
    match items_of(changes) {
        Some(values) => changes_in(alloc, values),
        None => Ok(None),
    }
}

fn did_change<'a>(alloc: Global, params: Option<&Value<'a>>) -> Result<Notification<'a>, AllocError>
    ensures { IfOk result (λ told. noted_of told
        ≡ changed_by (uri_in (option_map (λ v. seen v.now) params.entry))
        (version_in (option_map (λ v. seen v.now) params.entry))
        (all_changes_in (option_map (λ v. seen v.now) params.entry))) }
{
    let Some(uri) = uri_in(params) else {
        return Ok(Notification::InvalidParams { uri: None });
    };
    let version = version_in(params);
    match all_changes_in(alloc, params)? {
        Some(changes) => Ok(Notification::DidChange {
            uri,
            version,
            changes,
        }),
        None => Ok(Notification::InvalidParams { uri: Some(uri) }),
    }
}

/// What a notification of this method tells. Memory is for the list of changes alone.
pub fn notification_in<'a>(
    alloc: Global,
    method: &str,
    params: Option<&Value<'a>>,
) -> Result<Notification<'a>, AllocError>
    ensures { IfOk result (λ told. noted_of told
        ≡ noted_in method.now (option_map (λ v. seen v.now) params.entry)) }
{
    match notification_named(method) {
        NotificationMethod::Initialized => Ok(Notification::Initialized),
        NotificationMethod::Exit => Ok(Notification::Exit),
        NotificationMethod::DidOpen => Ok(did_open(params)),
        NotificationMethod::DidChange => did_change(alloc, params),
        NotificationMethod::DidClose => Ok(did_close(params)),
        NotificationMethod::Other => Ok(Notification::Other),
    }
}
